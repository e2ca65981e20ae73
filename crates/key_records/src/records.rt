//! The labels that are held, as the memory knows them.
ghost use Rattle.std.specs.Prelude.{◌≡◌, ◌+◌, ◌-◌, ◌*◌, ◌^◌, ◌≤◌, ◌<◌, ℕ, List, Option, None, Some};
ghost use Rattle.std.specs.Prelude.{map, replicate, set, get_or, IfOk, IfSome, IsSome, IsNone, IsTrue, IsFalse};
ghost use Rattle.key_records.specs.Changes.{any_under, is_under, any_ahead, is_ahead_row};
ghost use Rattle.record_bodies.specs.Directory.{cell_of, free_cell, held_count, AreApart, label_at, IsFresh};
ghost use Rattle.record_bodies.specs.Entries.{row_directory, row_label, label_or, turned};
ghost use Rattle.record_bodies.specs.Rank.{IsNth};
ghost use Rattle.record_bodies.specs.Rows.{AreRows};

use device_cells::{NoMemory, Steps};
use master_registers::Pattern;
use record_bodies::{Directory, Label, Place, Row, blank, free_in, label_of, turn_rows};
use std::alloc::Global;
use std::marker::Model;

/// The bytes of a store: 1,024 cells.
pub const STORE_LEN: u64 = 1_572_864;

/// How many cells a store has.
pub(crate) const CELLS: usize = 1024;

/// The labels that are held, each in its cell, with what the memory knows of them.
#[derive(Drop)]
pub struct Records {
    rows: Vec<Option<Row>>,
    directory: Directory,
}

// Clauses see a list of 1,024 places, one for each cell.
impl Model for Records {
    ghost use Rattle.std.specs.Prelude.{List, Option};
    ghost use Rattle.record_bodies.specs.declared.rows.Row.{Row};
    ghost use Rattle.record_bodies.specs.Rows.{AreListed};

    ghost Value = { List (Option Row) };

    ghost view = { λ r. r.rows.items };

    ghost invariant = { λ r. AreListed r.rows.items r.directory };
}

impl Records {
    /// No labels, with all the memory that records need.
    pub fn new(alloc: Global) -> Result<Records, NoMemory>
        ensures { IfOk result (λ records. records ≡ replicate CELLS None) }
    {
        let directory = Directory::new(alloc)?;
        let mut rows = vec![in alloc; None; CELLS]?;
        blank(rows.as_mut_slice());
        Ok(Records { rows, directory })
    }

    /// Where the label is held, in at most 11 steps for 1,024 labels.
    pub fn find<L>(&self, label: &Label, steps: &mut Steps<L>) -> Option<Place>
        ensures found { result ≡ cell_of label.now (row_directory self.now) }
        ensures held { IfSome result (λ place.
            label_at (row_directory self.now) place ≡ Some label.now) }
        ensures within { IfSome result (λ place. place < 1024) }
        ensures few { 2 ^ (steps.new - steps.old) ≤ 2 * held_count (row_directory self.now) + 1 }
        ensures later { steps.old ≤ steps.new }
    {
        self.directory.find(&self.rows, label, steps)
    }

    /// The label of a cell, where the cell holds one. It takes no comparison and no memory.
    pub fn label_in(&self, cell: u16) -> Option<&Label>
        requires { cell < 1024 }
        ensures label { IfSome result (λ label.
            label_at (row_directory self.now) cell ≡ Some label.now) }
        ensures found { IfSome result (λ label.
            cell_of label.now (row_directory self.now) ≡ Some cell) }
        ensures none { IsNone result → label_at (row_directory self.now) cell ≡ None }
    {
        match &self.rows[cell as usize] {
            Some(row) => Some(&row.label),
            None => None,
        }
    }

    /// How many labels are held.
    pub fn count(&self) -> usize
        ensures count { result ≡ held_count (row_directory self.now) }
        ensures most { result ≤ 1024 }
    {
        let _rows = &self.rows;
        self.directory.count()
    }

    /// The label before which this many stand in ascending order of their bytes.
    pub fn label_at(&self, index: usize) -> &Label
        requires { index < held_count (row_directory self.now) }
        ensures { IsNth index (row_directory self.now) result.now }
    {
        label_of(&self.rows, self.directory.cell_at(index))
    }

    /// Whether some key is under the master key with this pattern.
    pub fn any_under(&self, pattern: &Pattern) -> bool
        ensures { result ≡ any_under pattern.now self.now }
    {
        self.rows.iter().any(|row| is_under(row, pattern))
    }

    /// Whether a label that is held is ahead: its key is sealed under a full new register besides.
    pub fn is_ahead(&self, place: Place) -> bool
        requires { IsSome (label_at (row_directory self.now) place) }
        ensures { result ≡ is_ahead_row (get_or self.now place None) }
    {
        self.row(place).ahead.is_some()
    }

    /// Whether some label is ahead.
    pub fn any_ahead(&self) -> bool
        ensures { result ≡ any_ahead self.now }
    {
        self.rows.iter().any(is_ahead_row)
    }

    /// Makes every label that is ahead one that is under its second token, and not ahead: the new master key has become
    /// the current one. No device is called.
    pub fn turn(&mut self)
        ensures { self.new ≡ map turned self.old }
    {
        turn_rows(self.rows.as_mut_slice());
    }

    /// The lowest cell that holds no label.
    pub(crate) fn free_cell(&self) -> Option<u16>
        ensures none { IsNone result → free_cell (row_directory self.now) ≡ 1024 }
        ensures free { IfSome result (λ cell.
            (cell ≡ free_cell (row_directory self.now)) × (cell < 1024)) }
        ensures rows { AreRows self.now }
    {
        match free_in(&self.rows) {
            Some(cell) => Some(cell as u16),
            None => None,
        }
    }

    /// The cell of a label that is held.
    pub(crate) fn cell(&self, place: Place) -> u16
        requires { IsSome (label_at (row_directory self.now) place) }
        ensures cell { result ≡ place }
        ensures within { result < 1024 }
        ensures rows { AreRows self.now }
    {
        let _rows = &self.rows;
        place.cell()
    }

    /// The row of a label that is held.
    pub(crate) fn row(&self, place: Place) -> Row
        requires { IsSome (label_at (row_directory self.now) place) }
        ensures { get_or self.now place None ≡ Some result }
    {
        match self.rows[place.cell() as usize] {
            Some(row) => row,
            None => unreachable!(),
        }
    }

    /// A label that is held.
    pub(crate) fn label(&self, place: Place) -> Label
        requires { IsSome (label_at (row_directory self.now) place) }
        ensures held { label_at (row_directory self.now) place ≡ Some result }
        ensures label { result ≡ label_or (get_or self.now place None) }
    {
        self.row(place).label
    }

    /// No labels.
    pub(crate) fn clear(&mut self)
        ensures cleared { self.new ≡ replicate CELLS None }
        ensures rows { AreRows self.new }
    {
        blank(self.rows.as_mut_slice());
        self.directory.clear();
    }

    /// Puts a row into a cell, where no cell holds its label.
    pub(crate) fn put(&mut self, cell: u16, row: Option<Row>) -> bool
        requires { cell < 1024 }
        ensures put { IsTrue result → self.new ≡ set self.old cell row }
        ensures held { IsFalse result → (label : List ℕ) × (row_label row ≡ Some label)
            × (k : ℕ) × (label_at (row_directory self.old) k ≡ Some label) }
        ensures rows { AreRows self.new }
    {
        let _rows = &self.rows;
        if self.holds_label_of(&row) {
            return false;
        }
        self.set_row(cell, row);
        true
    }

    /// Whether a cell holds the label of a row.
    fn holds_label_of(&self, row: &Option<Row>) -> bool
        ensures found { IsTrue result → (label : List ℕ) × (row_label row.now ≡ Some label)
            × (k : ℕ) × (label_at (row_directory self.now) k ≡ Some label) }
        ensures fresh { IsFalse result → IsFresh (row_label row.now) (row_directory self.now) }
    {
        match row {
            Some(row) => {
                let mut steps: Steps<()> = Steps::new();
                self.find(&row.label, &mut steps).is_some()
            }
            None => false,
        }
    }

    /// Makes the row of a cell another one.
    pub(crate) fn set_row(&mut self, cell: u16, row: Option<Row>)
        requires within { cell < 1024 }
        requires apart { AreApart (set (row_directory self.old) cell (row_label row)) }
        ensures set { self.new ≡ set self.old cell row }
        ensures rows { AreRows self.new }
    {
        self.directory.set_row(&self.rows, cell, &row);
        self.rows[cell as usize] = row;
    }
}

/// Whether the key of a row is under the master key with this pattern.
fn is_under(row: &Option<Row>, pattern: &Pattern) -> bool
    ensures { result ≡ is_under pattern.now row.now }
{
    match row {
        Some(row) => match row.pattern {
            Some(other) => other.bytes == pattern.bytes,
            None => false,
        },
        None => false,
    }
}

/// Whether the label of a row is ahead.
fn is_ahead_row(row: &Option<Row>) -> bool
    ensures { result ≡ is_ahead_row row.now }
{
    match row {
        Some(row) => row.ahead.is_some(),
        None => false,
    }
}
