//! Opening a store: its cells are read upwards, each once.
ghost use Rattle.std.specs.Prelude.{◌≡◌, ◌+◌, ◌*◌, ◌≤◌, ◌<◌, ◌⊎◌, ℕ, None, replicate, Result, Err, OnOk, OnErr, IfErr};
ghost use Rattle.key_cells.specs.Lease.{bench_of};
ghost use Rattle.key_records.specs.Changes.{HasRecordCause, ChangesKeyAndBody};
ghost use Rattle.record_bodies.specs.Opening.{Opens, IsRefused, pattern_coming};
ghost use Rattle.record_bodies.specs.Rows.{AreRows};
ghost use Rattle.record_bodies.specs.StoreStands.{KeepsLabels, HoldsRows, labels_in, IsFirstDamaged};
ghost use Rattle.master_registers.specs.Loaded.{IsLoaded, Loaded, masters_in};
ghost use Rattle.master_registers.specs.Masters.{Masters};
ghost use Rattle.device_cells.specs.Cells.{body};
ghost use Rattle.device_cells.specs.Faults.{Rose};
ghost use Rattle.device_cells.specs.Medium.{Told, Keeps};
ghost use Rattle.verb_rules.specs.Keys.{keys_of};

use crate::faults::RecordFault;
use crate::parsing::{coming_pattern, read_row};
use crate::records::{CELLS, Records, STORE_LEN};
use device_cells::{Cell, Disk, read_cell};
use key_cells::Lease;
use master_registers::{Pattern, Registers};

/// Reads each cell of the store once, upwards. Damaged names the first cell that reads as no record under the
/// current and the old master key, or whose label a lower cell holds. Of a label that is ahead the two tokens are
/// compared with the masters in the lease. After an error no label is known.
pub fn open_records<D: Disk>(
    store: &mut D,
    lease: &mut Lease,
    held: &Registers,
    records: &mut Records,
) -> Result<(), RecordFault>
    requires size { (D.medium store.old).size ≡ STORE_LEN }
    requires loaded { IsLoaded held.now (bench_of lease.old) }

    ensures stands { OnOk result (Told (D.medium store.new) (λ image.
        KeepsLabels (keys_of (masters_in held.now (bench_of lease.old))) records.new
        (labels_in (keys_of (masters_in held.now (bench_of lease.old))) image) image)) }
    ensures holds { OnOk result (Told (D.medium store.new) (HoldsRows records.new)) }
    ensures unopened { OnErr result (records.new ≡ replicate CELLS None) }
    ensures damaged { (cell : ℕ) → result ≡ Err (RecordFault.Damaged cell)
        → Told (D.medium store.old) (λ image.
        IsFirstDamaged (keys_of (masters_in held.now (bench_of lease.old))) image cell) }
    ensures exact { (Rose (D.faults store.old) (D.faults store.new) → ⊥)
        → Told (D.medium store.old) (λ image. (cell : ℕ)
        → IsFirstDamaged (keys_of (masters_in held.now (bench_of lease.old))) image cell
        → result ≡ Err (RecordFault.Damaged cell)) }
    ensures faults { IfErr result (λ fault. (fault ≡ RecordFault.DiskFault)
        ⊎ ((cell : ℕ) × (cell < 1024) × (fault ≡ RecordFault.Damaged cell))) }
    ensures keeps { Keeps (D.medium store.old) (D.medium store.new) }
    ensures cause { HasRecordCause (D.faults store.old) (D.faults store.new) result }
    ensures rest { ChangesKeyAndBody lease.old lease.new }
{
    let coming = coming_pattern(lease, held);
    match open_cells(store, lease, held, coming, records) {
        Ok(()) => Ok(()),
        Err(fault) => {
            records.clear();
            Err(fault)
        }
    }
}

/// Reads each cell.
fn open_cells<D: Disk>(
    store: &mut D,
    lease: &mut Lease,
    held: &Registers,
    coming: Option<Pattern>,
    records: &mut Records,
) -> Result<(), RecordFault>
    ghost m: { Masters }
    requires size { (D.medium store.old).size ≡ STORE_LEN }
    requires loaded { Loaded m held.now (bench_of lease.old) }
    requires coming { coming ≡ pattern_coming (keys_of m) }
    ensures stands { OnOk result (Told (D.medium store.old) (λ image.
        KeepsLabels (keys_of m) records.new (labels_in (keys_of m) image) image)) }
    ensures damaged { (n : ℕ) → result ≡ Err (RecordFault.Damaged n)
        → Told (D.medium store.old) (λ image. IsFirstDamaged (keys_of m) image n) }
    ensures exact { (Rose (D.faults store.old) (D.faults store.new) → ⊥)
        → Told (D.medium store.old) (λ image. (n : ℕ) → IsFirstDamaged (keys_of m) image n
        → result ≡ Err (RecordFault.Damaged n)) }
    ensures faults { IfErr result (λ fault. (fault ≡ RecordFault.DiskFault)
        ⊎ ((cell : ℕ) × (cell < 1024) × (fault ≡ RecordFault.Damaged cell))) }
    ensures keeps { Keeps (D.medium store.old) (D.medium store.new) }
    ensures cause { HasRecordCause (D.faults store.old) (D.faults store.new) result }
    ensures rest { ChangesKeyAndBody lease.old lease.new }
{
    records.clear();
    for cell in 0..1024 {
        match open_cell(store, lease, held, coming, records, cell) {
            Ok(()) => {}
            Err(fault) => return Err(fault),
        }
    }
    Ok(())
}

/// Reads one cell.
fn open_cell<D: Disk>(
    store: &mut D,
    lease: &mut Lease,
    held: &Registers,
    coming: Option<Pattern>,
    records: &mut Records,
    cell: u16,
) -> Result<(), RecordFault>
    ghost m: { Masters }
    requires size { (D.medium store.old).size ≡ STORE_LEN }
    requires below { cell < 1024 }
    requires loaded { Loaded m held.now (bench_of lease.old) }
    requires coming { coming ≡ pattern_coming (keys_of m) }
    requires rows { AreRows records.old }
    ensures opened { OnOk result (Told (D.medium store.old) (λ image.
        Opens (keys_of m) (body image cell) cell records.old records.new)) }
    ensures rows { AreRows records.new }
    ensures damaged { (n : ℕ) → result ≡ Err (RecordFault.Damaged n)
        → (n ≡ cell) × Told (D.medium store.old)
        (λ image. IsRefused (keys_of m) (body image cell) records.old) }
    ensures faults { IfErr result (λ fault.
        (fault ≡ RecordFault.DiskFault) ⊎ (fault ≡ RecordFault.Damaged cell)) }
    ensures keeps { Keeps (D.medium store.old) (D.medium store.new) }
    ensures cause { HasRecordCause (D.faults store.old) (D.faults store.new) result }
    ensures rest { ChangesKeyAndBody lease.old lease.new }
{
    if read_cell(store, Cell::new(cell), lease.body_mut()).is_err() {
        return Err(RecordFault::DiskFault);
    }
    match read_row(lease, held, coming) {
        Some(row) => {
            if records.put(cell, row) {
                Ok(())
            } else {
                Err(RecordFault::Damaged(cell))
            }
        }
        None => Err(RecordFault::Damaged(cell)),
    }
}
