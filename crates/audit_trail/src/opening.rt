//! Opening a trail: its cells are read upwards, for the greatest number that is held, and then again.
ghost use Rattle.std.specs.Prelude.{◌≡◌, ◌↔◌, ◌⊎◌, ◌+◌, ◌*◌, ◌%◌, ◌^◌, ◌≤◌, ◌<◌, ℕ, Option, None, Some, Result, Ok, Err, OnOk, OnErr, IfOk, IfErr, IfSome, IsOk, IsTrue};
ghost use Rattle.device_cells.specs.Faults.{Rose};
ghost use Rattle.device_cells.specs.Medium.{Told, Keeps};
ghost use Rattle.audit_trail.specs.Changes.{TrailLeft};
ghost use Rattle.audit_trail.specs.Opening.{CellReads, Scanned, Checked, greater, newest_number};
ghost use Rattle.audit_trail.specs.TrailStands.{trail_size, StandsForTrail, IsStray, IsFirstStray, IsFirstStale, IsFirstDamaged};

use crate::bodies::{is_blank, read_record};
use crate::faults::TrailFault;
use crate::trail::{CELLS, HELD, Trail, cell_of};
use device_cells::{Cell, Disk, read_cell, settle};

/// Makes every image of the trail its content, and learns the number of the next record. Damaged names the first
/// cell that isn't blank and holds no record of its own; or, where there is none, the first cell that holds an older
/// record than it should. After an error the memory is as before.
pub fn open_trail<T: Disk>(trail: &mut T, held: &mut Trail) -> Result<(), TrailFault>
    requires { (T.medium trail.old).size ≡ trail_size }
    ensures stands { OnOk result
        (Told (T.medium trail.new) (λ image. StandsForTrail image held.new)) }
    ensures unopened { OnErr result (held.new ≡ held.old) }
    ensures damaged { (cell : ℕ) → result ≡ Err (TrailFault.Damaged cell)
        → Told (T.medium trail.old) (λ image. IsFirstDamaged image cell) }
    ensures exact { (Rose (T.faults trail.old) (T.faults trail.new) → ⊥)
        → Told (T.medium trail.old) (λ image. (cell : ℕ) → IsFirstDamaged image cell
        → result ≡ Err (TrailFault.Damaged cell)) }
    ensures faults { IfErr result (λ fault. (fault ≡ TrailFault.DiskFault)
        ⊎ ((cell : ℕ) × (cell < 4096) × (fault ≡ TrailFault.Damaged cell))) }
    ensures keeps { Keeps (T.medium trail.old) (T.medium trail.new) }
    ensures left { TrailLeft (T.medium trail.old) (T.medium trail.new)
        (T.faults trail.old) (T.faults trail.new)
        (IsOk result) (result ≡ Err TrailFault.DiskFault) }
{
    if settle(trail).is_err() {
        return Err(TrailFault::DiskFault);
    }
    match scan_cells(trail) {
        Ok(None) => {
            *held = Trail::new();
            Ok(())
        }
        Ok(Some(last)) => match check_cells(trail, last) {
            Ok(()) => {
                *held = Trail::after(last);
                Ok(())
            }
            Err(fault) => Err(fault),
        },
        Err(fault) => Err(fault),
    }
}

/// The number of the record that a cell holds; none where the cell is blank.
fn read_number<T: Disk>(trail: &mut T, cell: u16) -> Result<Option<u64>, TrailFault>
    requires size { (T.medium trail.old).size ≡ trail_size }
    requires below { cell < 4096 }
    ensures reads { IfOk result (λ number. Told (T.medium trail.old) (λ image.
        CellReads image cell number)) }
    ensures low { IfOk result (λ number. IfSome number (λ n. n < 2 ^ 63)) }
    ensures damaged { (n : ℕ) → result ≡ Err (TrailFault.Damaged n)
        → (n ≡ cell) × Told (T.medium trail.old) (λ image. IsStray image cell) }
    ensures faults { IfErr result (λ fault.
        (fault ≡ TrailFault.DiskFault) ⊎ (fault ≡ TrailFault.Damaged cell)) }
    ensures keeps { Keeps (T.medium trail.old) (T.medium trail.new) }
    ensures later { T.faults trail.old ≤ T.faults trail.new }
    ensures failed { result ≡ Err TrailFault.DiskFault
        → Rose (T.faults trail.old) (T.faults trail.new) }
    ensures quiet { (result ≡ Err TrailFault.DiskFault → ⊥)
        → T.faults trail.new ≡ T.faults trail.old }
{
    let mut body = [0; 192];
    match read_cell(trail, Cell::new(cell), &mut body) {
        Ok(()) => {
            if is_blank(&body) {
                return Ok(None);
            }
            match read_record(&body) {
                Some(record) => {
                    if cell_of(record.number) == cell {
                        Ok(Some(record.number))
                    } else {
                        Err(TrailFault::Damaged(cell))
                    }
                }
                None => Err(TrailFault::Damaged(cell)),
            }
        }
        Err(_) => Err(TrailFault::DiskFault),
    }
}

/// The greatest number that is held; none where every cell is blank.
fn scan_cells<T: Disk>(trail: &mut T) -> Result<Option<u64>, TrailFault>
    requires { (T.medium trail.old).size ≡ trail_size }
    ensures scanned { IfOk result (λ last. Told (T.medium trail.old) (λ image.
        Scanned image 4096 last)) }
    ensures low { IfOk result (λ last. IfSome last (λ n. n < 2 ^ 63)) }
    ensures damaged { (n : ℕ) → result ≡ Err (TrailFault.Damaged n)
        → Told (T.medium trail.old) (λ image. IsFirstStray image n) }
    ensures faults { IfErr result (λ fault. (fault ≡ TrailFault.DiskFault)
        ⊎ ((cell : ℕ) × (cell < 4096) × (fault ≡ TrailFault.Damaged cell))) }
    ensures keeps { Keeps (T.medium trail.old) (T.medium trail.new) }
    ensures later { T.faults trail.old ≤ T.faults trail.new }
    ensures failed { result ≡ Err TrailFault.DiskFault
        → Rose (T.faults trail.old) (T.faults trail.new) }
    ensures quiet { (result ≡ Err TrailFault.DiskFault → ⊥)
        → T.faults trail.new ≡ T.faults trail.old }
{
    let mut last = None;
    for cell in 0..CELLS {
        match read_number(trail, cell) {
            Ok(number) => last = greater(last, number),
            Err(fault) => return Err(fault),
        }
    }
    Ok(last)
}

/// The greater of two numbers, of which each may be missing.
fn greater(one: Option<u64>, other: Option<u64>) -> Option<u64>
    ensures { result ≡ greater one other }
{
    match one {
        Some(a) => match other {
            Some(b) => { if a < b { Some(b) } else { Some(a) } }
            None => Some(a),
        },
        None => other,
    }
}

/// The greatest number up to `last` that belongs to a cell; none where no number up to it does.
fn newest_number(last: u64, cell: u16) -> Option<u64>
    requires { cell < 4096 }
    ensures { result ≡ newest_number last cell }
{
    let cell = cell as u64;
    if cell <= last {
        Some(last - (last - cell) % HELD)
    } else {
        None
    }
}

fn is_same(one: Option<u64>, other: Option<u64>) -> bool
    ensures { IsTrue result ↔ (one ≡ other) }
{
    one == other
}

/// Checks that each cell holds the newest record that belongs to it.
fn check_cells<T: Disk>(trail: &mut T, last: u64) -> Result<(), TrailFault>
    requires size { (T.medium trail.old).size ≡ trail_size }
    requires scanned { Told (T.medium trail.old) (λ image. Scanned image 4096 (Some last)) }
    ensures checked { OnOk result (Told (T.medium trail.old) (λ image. Checked image last 4096)) }
    ensures damaged { (n : ℕ) → result ≡ Err (TrailFault.Damaged n)
        → Told (T.medium trail.old) (λ image. IsFirstStale image last n) }
    ensures faults { IfErr result (λ fault. (fault ≡ TrailFault.DiskFault)
        ⊎ ((cell : ℕ) × (cell < 4096) × (fault ≡ TrailFault.Damaged cell))) }
    ensures keeps { Keeps (T.medium trail.old) (T.medium trail.new) }
    ensures later { T.faults trail.old ≤ T.faults trail.new }
    ensures failed { result ≡ Err TrailFault.DiskFault
        → Rose (T.faults trail.old) (T.faults trail.new) }
    ensures quiet { (result ≡ Err TrailFault.DiskFault → ⊥)
        → T.faults trail.new ≡ T.faults trail.old }
{
    for cell in 0..CELLS {
        match read_number(trail, cell) {
            Ok(number) => {
                if !is_same(number, newest_number(last, cell)) {
                    return Err(TrailFault::Damaged(cell));
                }
            }
            Err(fault) => return Err(fault),
        }
    }
    Ok(())
}
