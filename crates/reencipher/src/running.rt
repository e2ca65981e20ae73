//! The store under a new master key, and ahead of one, cell by cell upwards.
ghost use Rattle.std.specs.Prelude.{List, Option, IsSome};
ghost use Rattle.key_cells.specs.Lease.{bench_of};
ghost use Rattle.record_bodies.specs.Entries.{Entry};
ghost use Rattle.record_bodies.specs.StoreStands.{HasStore, KeepsLabels};
ghost use Rattle.master_registers.specs.Loaded.{IsLoaded, Loaded};
ghost use Rattle.master_registers.specs.Masters.{Masters};
ghost use Rattle.reencipher.specs.Damage.{IsMisread};
ghost use Rattle.reencipher.specs.Runs.{IsLabelCell, LeavesAnyStore, Reenciphers, TurnsCells};
ghost use Rattle.key_records.specs.Ready.{IsReadyFor};
ghost use Rattle.verb_rules.specs.Ready.{IsReadyAhead};
ghost use Rattle.device_cells.specs.Medium.{Told};
ghost use Rattle.verb_rules.specs.Keys.{keys_of};

use crate::turns::turn_cell;
use device_cells::Disk;
use key_cells::{Lease, MasterPlace};
use key_records::{RecordFault, Records};
use master_registers::{Registers, pattern_of};
use record_bodies::StoreAction;

/// Makes each label under the old master key the same key with the same control vector under the current one, and
/// answers how many there were. It goes once through the 1,024 cells upwards. A label that is current, null or under
/// neither register is not written.
///
/// `DiskFault` comes only where the disk's count of faults rose, and `Damaged`, which names the cell whose body isn't
/// that of its record, only over a disk that doesn't tell its bytes. After an error the records are to be opened again.
pub fn reencipher<D: Disk>(
    lease: &mut Lease,
    held: &Registers,
    store: &mut D,
    records: &mut Records,
) -> Result<u32, RecordFault>
    requires store { HasStore records.old (D.medium store.old) }
    requires loaded { IsLoaded held.now (bench_of lease.old) }
    requires current { IsSome held.now.current_pattern }

    // the labels of a state, where the store stands for them and the memory knows them
    ensures labels { (m : Masters) (s : List (Option Entry))
        → Loaded m held.now (bench_of lease.old)
        → Told (D.medium store.old) (KeepsLabels (keys_of m) records.old s)
        → Reenciphers StoreAction.Renew (keys_of m) s records.new
        (D.medium store.old) (D.medium store.new) result }

    // the labels that the memory knows, also those under neither register
    ensures cells { TurnsCells StoreAction.Renew held.now records.old records.new
        (D.medium store.old) (D.medium store.new) result }

    // by the body that was read, whatever the store tells of its bytes
    ensures misread { IsMisread result records.new (bench_of lease.new) }

    // whatever the store holds
    ensures left { LeavesAnyStore D.medium D.faults (IsLabelCell records.old)
        lease.old lease.new records.old records.new store.old store.new result }
{
    run_action(StoreAction::Renew, lease, held, store, records)
}

/// Seals the key of each label that is under the current master key, and not ahead, under the full new one besides, and
/// answers how many there were. It goes upwards, and answers faults as `reencipher` does.
pub fn ahead<D: Disk>(
    lease: &mut Lease,
    held: &Registers,
    store: &mut D,
    records: &mut Records,
) -> Result<u32, RecordFault>
    requires store { HasStore records.old (D.medium store.old) }
    requires loaded { IsLoaded held.now (bench_of lease.old) }
    requires current { IsSome held.now.current_pattern }
    requires ready { IsReadyAhead held.now (bench_of lease.old) }

    // the labels of a state, where the store stands for them and the memory knows them
    ensures labels { (m : Masters) (s : List (Option Entry))
        → Loaded m held.now (bench_of lease.old)
        → Told (D.medium store.old) (KeepsLabels (keys_of m) records.old s)
        → Reenciphers StoreAction.Ahead (keys_of m) s records.new
        (D.medium store.old) (D.medium store.new) result }

    // the labels that the memory knows, also those under neither register
    ensures cells { TurnsCells StoreAction.Ahead held.now records.old records.new
        (D.medium store.old) (D.medium store.new) result }

    // by the body that was read, whatever the store tells of its bytes
    ensures misread { IsMisread result records.new (bench_of lease.new) }

    // whatever the store holds
    ensures left { LeavesAnyStore D.medium D.faults (IsLabelCell records.old)
        lease.old lease.new records.old records.new store.old store.new result }
{
    run_action(StoreAction::Ahead, lease, held, store, records)
}

/// Takes the second token of each label that is ahead away again, and answers how many there were. It goes upwards, and
/// answers faults as `reencipher` does.
pub fn drop_ahead<D: Disk>(
    lease: &mut Lease,
    held: &Registers,
    store: &mut D,
    records: &mut Records,
) -> Result<u32, RecordFault>
    requires store { HasStore records.old (D.medium store.old) }
    requires loaded { IsLoaded held.now (bench_of lease.old) }
    requires current { IsSome held.now.current_pattern }

    // the labels of a state, where the store stands for them and the memory knows them
    ensures labels { (m : Masters) (s : List (Option Entry))
        → Loaded m held.now (bench_of lease.old)
        → Told (D.medium store.old) (KeepsLabels (keys_of m) records.old s)
        → Reenciphers StoreAction.Drop (keys_of m) s records.new
        (D.medium store.old) (D.medium store.new) result }

    // the labels that the memory knows, also those under neither register
    ensures cells { TurnsCells StoreAction.Drop held.now records.old records.new
        (D.medium store.old) (D.medium store.new) result }

    // by the body that was read, whatever the store tells of its bytes
    ensures misread { IsMisread result records.new (bench_of lease.new) }

    // whatever the store holds
    ensures left { LeavesAnyStore D.medium D.faults (IsLabelCell records.old)
        lease.old lease.new records.old records.new store.old store.new result }
{
    run_action(StoreAction::Drop, lease, held, store, records)
}

/// Makes every label what an action makes of it, and answers how many it changed. It goes once through the 1,024 cells
/// upwards. A label of which the action makes nothing else is not written: for `Renew` one that is current, null or under
/// neither register.
///
/// `DiskFault` comes only where the disk's count of faults rose, and `Damaged`, which names the cell whose body isn't
/// that of its record, only over a disk that doesn't tell its bytes. After an error the records are to be opened again.
fn run_action<D: Disk>(
    action: StoreAction,
    lease: &mut Lease,
    held: &Registers,
    store: &mut D,
    records: &mut Records,
) -> Result<u32, RecordFault>
    requires store { HasStore records.old (D.medium store.old) }
    requires loaded { IsLoaded held.now (bench_of lease.old) }
    requires current { IsSome held.now.current_pattern }
    requires ready { IsReadyFor action held.now (bench_of lease.old) }

    // the labels of a state, where the store stands for them and the memory knows them
    ensures labels { (m : Masters) (s : List (Option Entry))
        → Loaded m held.now (bench_of lease.old)
        → Told (D.medium store.old) (KeepsLabels (keys_of m) records.old s)
        → Reenciphers action (keys_of m) s records.new
        (D.medium store.old) (D.medium store.new) result }

    // the labels that the memory knows, also those under neither register
    ensures cells { TurnsCells action held.now records.old records.new
        (D.medium store.old) (D.medium store.new) result }

    // by the body that was read, whatever the store tells of its bytes
    ensures misread { IsMisread result records.new (bench_of lease.new) }

    // whatever the store holds
    ensures left { LeavesAnyStore D.medium D.faults (IsLabelCell records.old)
        lease.old lease.new records.old records.new store.old store.new result }
{
    let coming = pattern_of(lease, MasterPlace::New);
    let mut changed = 0;
    for cell in 0..1024 {
        match turn_cell(action, coming, lease, held, store, records, cell) {
            Ok(done) => changed += u32::from(done),
            Err(fault) => return Err(fault),
        }
    }
    Ok(changed)
}
