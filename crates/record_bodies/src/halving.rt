//! Halving a list of cells whose labels ascend.
ghost use Rattle.std.specs.Prelude.{◌≡◌, ◌+◌, ◌-◌, ◌*◌, ◌^◌, ◌≤◌, ◌<◌, ℕ, Some, length, get_or, IfOk, IfErr, IsSome};
ghost use Rattle.record_bodies.specs.Ascending.{AreAscending, IsAmong, IsPlace, labels_of};
ghost use Rattle.record_bodies.specs.Directory.{label_at};
ghost use Rattle.record_bodies.specs.Entries.{row_directory};

use crate::labels::Label;
use crate::rows::{Row, label_of};
use device_cells::Steps;
use std::cmp::Ordering;

/// Where the label stands in a list of cells whose labels ascend, or where its cell would. Each step halves the list.
pub(crate) fn search<L>(
    cells: &[u16],
    rows: &[Option<Row>],
    label: &Label,
    steps: &mut Steps<L>,
) -> Result<usize, usize>
    requires held { (n : ℕ) → IsAmong cells.now n → IsSome (label_at (row_directory rows.now) n) }
    requires ascending { AreAscending (labels_of (row_directory rows.now) cells.now) }
    ensures found { IfOk result (λ at. (at < length cells.now)
        × (label_at (row_directory rows.now) (get_or cells.now at 0) ≡ Some label.now)) }
    ensures missing { IfErr result
        (IsPlace (labels_of (row_directory rows.now) cells.now) label.now) }
    ensures few { 2 ^ (steps.new - steps.old) ≤ 2 * length cells.now + 1 }
    ensures later { steps.old ≤ steps.new }
{
    let mut low = 0;
    let mut high = cells.len();
    'halves: while low < high {
        let middle = low + (high - low) / 2;
        match label_of(rows, cells[middle]).compare(label, steps) {
            Ordering::Less => low = middle + 1,
            Ordering::Equal => return Ok(middle),
            Ordering::Greater => high = middle,
        }
    }
    Err(low)
}
