//! Cells: the selected one of two bodies, and how a body is replaced so that a stop leaves the old or
//! the new one.
ghost use Rattle.std.specs.Prelude.{◌≡◌, ◌+◌, ◌-◌, ◌*◌, ◌<◌, ◌≤◌, [], ◌∷◌, length, IfOk, OnOk};
ghost use Rattle.device_cells.specs.Cells.{cell_size, body_size, selected, body_place as place_of_body};
ghost use Rattle.device_cells.specs.Cells.{body as selected_body, IsReplaced, IsReplacing};
ghost use Rattle.device_cells.specs.Faults.{HasCause};
ghost use Rattle.device_cells.specs.Medium.{Told, IsSettled, From, Becomes, EachImage, Keeps};
ghost use Rattle.device_cells.specs.Ranges.{SameOutside, HoldsPiece};

use crate::{Disk, Failed};
use std::marker::Model;

/// The bytes of a sector.
pub const SECTOR_LEN: u64 = 512;

/// The bytes of a cell: the sector of its selector, and one for each body.
pub const CELL_LEN: u64 = 1_536;

/// The bytes of a body.
pub const BODY_LEN: usize = 192;

/// The number of a cell of three sectors: a selector and two bodies. An even selector byte selects
/// the first body, an odd one the second. A body is the first 192 bytes of its sector.
#[derive(Clone, Copy, Debug, PartialEq, Eq)]
pub struct Cell {
    number: u16,
}

// Clauses see its number.
impl Model for Cell {
    ghost use Rattle.std.specs.Prelude.{ℕ};

    ghost Value = { ℕ };

    ghost view = { λ c. c.number };

    ghost inverse = { λ n. record { number = n } };
}

impl Cell {
    pub fn new(number: u16) -> Cell
        ensures { result ≡ number }
    {
        Cell { number }
    }

    fn selector_place(self) -> u64
        ensures { result ≡ cell_size * self }
    {
        CELL_LEN * u64::from(self.number)
    }

    fn body_place(self, side: u8) -> u64
        requires { side < 2 }
        ensures { result ≡ place_of_body self side }
    {
        self.selector_place() + SECTOR_LEN * (1 + u64::from(side))
    }
}

/// Makes each image of the disk what a read gives.
pub fn settle<D: Disk>(disk: &mut D) -> Result<(), Failed>
    ensures settled { OnOk result (IsSettled (D.medium disk.new)) }
    ensures content { (D.medium disk.new).content ≡ (D.medium disk.old).content }
    ensures moments { EachImage (D.medium disk.old) (D.medium disk.new) (D.medium disk.old).images }
    ensures cause { HasCause (D.faults disk.old) (D.faults disk.new) result }
{
    disk.sync()
}

/// Reads the selected body. After `Failed`, `out` may hold any bytes.
pub fn read_cell<D: Disk>(disk: &mut D, cell: Cell, out: &mut [u8; BODY_LEN]) -> Result<(), Failed>
    requires { cell_size * (cell + 1) ≤ (D.medium disk.old).size }
    ensures bytes { OnOk result (Told (D.medium disk.old) (λ c. out.new ≡ selected_body c cell)) }
    ensures keeps { Keeps (D.medium disk.old) (D.medium disk.new) }
    ensures cause { HasCause (D.faults disk.old) (D.faults disk.new) result }
{
    let side = selected_side(disk, cell)?;
    disk.read(cell.body_place(side), out)
}

/// Replaces the selected body: the other body is written and synced, and then the one byte that
/// selects it. It costs two writes and two syncs.
pub fn replace_cell<D: Disk>(disk: &mut D, cell: Cell, body: &[u8; BODY_LEN]) -> Result<(), Failed>
    requires within { cell_size * (cell + 1) ≤ (D.medium disk.old).size }
    requires settled { IsSettled (D.medium disk.old) }

    ensures settled { OnOk result (IsSettled (D.medium disk.new)) }
    ensures replaced { OnOk result
        (Becomes (IsReplaced cell body.now) (D.medium disk.old) (D.medium disk.new)) }
    ensures replacing { Becomes (IsReplacing cell body.now)
        (D.medium disk.old) (D.medium disk.new) }

    // A stop at any moment of the call leaves the old body of this cell or the new one, and all else
    // as it was.
    ensures moments { EachImage (D.medium disk.old) (D.medium disk.new)
        (From (IsReplacing cell body.now) (D.medium disk.old)) }
    ensures cause { HasCause (D.faults disk.old) (D.faults disk.new) result }
{
    let side = 1 - selected_side(disk, cell)?;
    put(disk, cell.body_place(side), body)?;
    put(disk, cell.selector_place(), &[side])
}

// Which body is selected: 0 is the first.
fn selected_side<D: Disk>(disk: &mut D, cell: Cell) -> Result<u8, Failed>
    requires { cell_size * (cell + 1) ≤ (D.medium disk.old).size }
    ensures side { IfOk result (λ side. Told (D.medium disk.old) (λ c. side ≡ selected c cell)) }
    ensures two { IfOk result (λ side. side < 2) }
    ensures keeps { Keeps (D.medium disk.old) (D.medium disk.new) }
    ensures cause { HasCause (D.faults disk.old) (D.faults disk.new) result }
{
    let mut selector = [0; 1];
    disk.read(cell.selector_place(), &mut selector)?;
    Ok(selector[0] % 2)
}

// A write and a sync.
fn put<D: Disk>(disk: &mut D, at: u64, piece: &[u8]) -> Result<(), Failed>
    requires within { at + length piece.now ≤ (D.medium disk.old).size }
    requires short { length piece.now ≤ body_size }
    requires settled { IsSettled (D.medium disk.old) }
    ensures settled { OnOk result (IsSettled (D.medium disk.new)) }
    ensures bytes { OnOk result
        (Becomes (HoldsPiece at piece.now) (D.medium disk.old) (D.medium disk.new)) }
    ensures outside { Becomes (SameOutside at (length piece.now))
        (D.medium disk.old) (D.medium disk.new) }
    ensures moments { EachImage (D.medium disk.old) (D.medium disk.new)
        (From (SameOutside at (length piece.now)) (D.medium disk.old)) }
    ensures cause { HasCause (D.faults disk.old) (D.faults disk.new) result }
{
    disk.write(at, piece)?;
    disk.sync()
}
