//! The cells that hold labels, in ascending order of these.
ghost use Rattle.std.specs.Prelude.{◌≡◌, ◌≢◌, ◌+◌, ◌-◌, ◌*◌, ◌^◌, ◌≤◌, ◌<◌, [], ℕ};
ghost use Rattle.std.specs.Prelude.{None, Some, length, get_or, set, IfOk, IsTrue};
ghost use Rattle.std.specs.Vec.{vec_capacity};
ghost use Rattle.record_bodies.specs.Ascending.{Lists};
ghost use Rattle.record_bodies.specs.Directory.{AreApart, cell_of, held_count, label_at};
ghost use Rattle.record_bodies.specs.Entries.{row_directory, row_label};
ghost use Rattle.record_bodies.specs.Rows.{AreListed};

use crate::halving::search;
use crate::labels::Label;
use crate::rows::Row;
use device_cells::{NoMemory, Steps};
use std::alloc::Global;
use std::marker::Model;

/// Where a label is held. `Directory::find` alone makes one.
#[derive(Clone, Copy, Debug, PartialEq, Eq)]
pub struct Place {
    cell: u16,
}

// Clauses see the number of the cell.
impl Model for Place {
    ghost use Rattle.std.specs.Prelude.{ℕ};

    ghost Value = { ℕ };

    ghost view = { λ p. p.cell };

    ghost inverse = { λ n. record { cell = n } };
}

impl Place {
    /// The number of its cell.
    pub fn cell(self) -> u16
        ensures { result ≡ self }
    {
        self.cell
    }
}

/// The cells that hold labels, in ascending order of the bytes of these. The rows beside it have the labels. A change
/// moves at most 1,024 numbers.
#[derive(Drop)]
pub struct Directory {
    cells: Vec<u16>,
}

// Clauses see the cells.
impl Model for Directory {
    ghost use Rattle.std.specs.Prelude.{◌≤◌, ℕ, List};
    ghost use Rattle.std.specs.Vec.{vec_capacity};

    ghost Value = { List ℕ };

    ghost view = { λ d. d.cells.items };

    ghost invariant = { λ d. 1024 ≤ vec_capacity d.cells };
}

impl Directory {
    /// No labels, with all the memory that the directory needs.
    pub fn new(alloc: Global) -> Result<Directory, NoMemory>
        ensures { IfOk result (λ d. d ≡ []) }
    {
        let cells = Vec::with_capacity(alloc, 1024)?;
        Ok(Directory { cells })
    }

    /// The cell of the label.
    pub fn find<L>(
        &self,
        rows: &[Option<Row>],
        label: &Label,
        steps: &mut Steps<L>,
    ) -> Option<Place>
        requires { AreListed rows.now self.now }
        ensures found { result ≡ cell_of label.now (row_directory rows.now) }
        ensures few { 2 ^ (steps.new - steps.old) ≤ 2 * held_count (row_directory rows.now) + 1 }
        ensures later { steps.old ≤ steps.new }
    {
        match search(&self.cells, rows, label, steps) {
            Ok(at) => Some(Place {
                cell: self.cells[at],
            }),
            Err(_) => None,
        }
    }

    /// How many labels there are.
    pub fn count(&self) -> usize
        ensures { result ≡ length self.now }
    {
        self.cells.len()
    }

    /// The cell of the label with this many smaller ones.
    pub fn cell_at(&self, index: usize) -> u16
        requires { index < length self.now }
        ensures { result ≡ get_or self.now index 0 }
    {
        self.cells[index]
    }

    /// Lists the cells that hold labels once this one has another row. Where it keeps its label, nothing moves.
    pub fn set_row(&mut self, rows: &[Option<Row>], cell: u16, row: &Option<Row>)
        requires within { cell < 1024 }
        requires listed { AreListed rows.now self.old }
        requires apart { AreApart (set (row_directory rows.now) cell (row_label row.now)) }
        ensures { Lists (set (row_directory rows.now) cell (row_label row.now)) self.new }
    {
        if have_one_label(&rows[cell as usize], row) {
            return;
        }
        take_out(&mut self.cells, rows, cell);
        if let Some(row) = row {
            put_in(&mut self.cells, rows, cell, &row.label);
        }
    }

    /// No labels.
    pub fn clear(&mut self)
        ensures { self.new ≡ [] }
    {
        self.cells.clear();
    }
}

/// Whether two rows have the same label.
fn have_one_label(one: &Option<Row>, other: &Option<Row>) -> bool
    ensures { IsTrue result → row_label one.now ≡ row_label other.now }
{
    let (Some(one), Some(other)) = (one, other) else {
        return false;
    };
    let mut steps: Steps<()> = Steps::new();
    one.label.compare(&other.label, &mut steps).is_eq()
}

/// Takes a cell out, where it holds a label.
fn take_out(cells: &mut Vec<u16>, rows: &[Option<Row>], cell: u16)
    requires within { cell < 1024 }
    requires listed { AreListed rows.now cells.old.items }
    ensures listed { Lists (set (row_directory rows.now) cell None) cells.new.items }
    ensures capacity { vec_capacity cells.new ≡ vec_capacity cells.old }
{
    if let Some(row) = &rows[cell as usize] {
        let mut steps: Steps<()> = Steps::new();
        match search(cells, rows, &row.label, &mut steps) {
            Ok(at) => {
                cells.remove(at);
            }
            Err(_) => {}
        }
    }
}

/// Puts a cell in, where its label is to stand.
fn put_in(cells: &mut Vec<u16>, rows: &[Option<Row>], cell: u16, label: &Label)
    requires within { cell < length rows.now }
    requires listed { Lists (set (row_directory rows.now) cell None) cells.old.items }
    requires fresh { (n : ℕ) → label_at (set (row_directory rows.now) cell None) n ≢ Some label.now }
    requires room { length cells.old.items < vec_capacity cells.old }
    ensures listed { Lists (set (row_directory rows.now) cell (Some label.now)) cells.new.items }
    ensures capacity { vec_capacity cells.new ≡ vec_capacity cells.old }
{
    let mut steps: Steps<()> = Steps::new();
    match search(cells, rows, label, &mut steps) {
        Ok(_) => {}
        Err(at) => {
            cells.insert(at, cell).unwrap();
        }
    }
}
