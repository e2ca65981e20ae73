//! What the memory knows of a record, and the rows of all of them.
ghost use Rattle.std.specs.Prelude.{◌≡◌, ◌<◌, None, Some, length, map, replicate, IfSome, IsSome, IsNone};
ghost use Rattle.record_bodies.specs.Directory.{free_cell, label_at};
ghost use Rattle.record_bodies.specs.Entries.{row_directory, turned, turned_row};

use crate::labels::Label;
use master_registers::Pattern;
use multi_encipher::Sealed;

/// What the memory knows of a record.
#[derive(Clone, Copy, Debug, PartialEq, Eq)]
pub struct Row {
    /// Its label.
    pub label: Label,
    /// The pattern of the master key that its token is under; none for a null record.
    pub pattern: Option<Pattern>,
    /// Where it is ahead, the pattern of its second token.
    pub ahead: Option<Pattern>,
}

/// A second token beside a first one, whose control vector it has.
#[derive(Clone, Copy, Debug, PartialEq, Eq)]
pub struct Second {
    /// The pattern of the master key that it is under.
    pub pattern: Pattern,
    /// The halves of the key.
    pub sealed: Sealed,
}

/// The row once the new master key has become the current one.
fn turned_row(row: &Row) -> Row
    ensures { result ≡ turned_row row.now }
{
    let pattern = match row.ahead {
        Some(pattern) => Some(pattern),
        None => row.pattern,
    };
    Row {
        label: row.label,
        pattern,
        ahead: None,
    }
}

/// The label of a cell that holds one.
pub fn label_of(rows: &[Option<Row>], cell: u16) -> &Label
    requires { IsSome (label_at (row_directory rows.now) cell) }
    ensures { label_at (row_directory rows.now) cell ≡ Some result.now }
{
    match &rows[cell as usize] {
        Some(row) => &row.label,
        None => unreachable!(),
    }
}

/// The first place without a row.
pub fn free_in(rows: &[Option<Row>]) -> Option<usize>
    ensures free { IfSome result (λ cell. (cell ≡ free_cell (row_directory rows.now))
        × (cell < length rows.now)) }
    ensures none { IsNone result → free_cell (row_directory rows.now) ≡ length rows.now }
{
    for cell in 0..rows.len() {
        if rows[cell].is_none() {
            return Some(cell);
        }
    }
    None
}

/// A row whose label is under its second token, where it was ahead.
fn turned(row: &Option<Row>) -> Option<Row>
    ensures { result ≡ turned row.now }
{
    match row {
        Some(row) => Some(turned_row(row)),
        None => None,
    }
}

/// Turns each row.
pub fn turn_rows(rows: &mut [Option<Row>])
    ensures { rows.new ≡ map turned rows.old }
{
    for row in rows.iter_mut() {
        *row = turned(row);
    }
}

/// Leaves no row.
pub fn blank(rows: &mut [Option<Row>])
    ensures { rows.new ≡ replicate (length rows.old) None }
{
    rows.fill(None);
}
