//! The tokens that an action puts into a record.
ghost use Rattle.std.specs.Prelude.{◌≡◌, List, Option, None, Some, IfErr, OnOk, IsSome, get_or};
ghost use Rattle.key_cells.specs.Lease.{bench_of};
ghost use Rattle.key_records.specs.Changes.{ChangesLabels, ChangesRecord};
ghost use Rattle.record_bodies.specs.Directory.{label_at};
ghost use Rattle.record_bodies.specs.Entries.{Entry, row_directory, label_or};
ghost use Rattle.record_bodies.specs.StoreStands.{HoldsRows, KeepsLabels};
ghost use Rattle.key_records.specs.declared.records.TheConstants.{STORE_LEN};
ghost use Rattle.key_tokens.specs.Denotes.{Denoted, MasterKeys};
ghost use Rattle.master_registers.specs.Loaded.{IsLoaded, masters_in};
ghost use Rattle.reencipher.specs.Tokens.{CanBeWritten, StandFor, body_of, put_in, row_of};
ghost use Rattle.device_cells.specs.Medium.{Told, IsSettled};
ghost use Rattle.verb_rules.specs.Keys.{keys_of};

use device_cells::Disk;
use key_cells::Lease;
use key_records::{Place, RecordFault, Records, Second};
use master_registers::Registers;

/// The tokens that are put into a record.
#[derive(Clone, Copy)]
pub(crate) enum Tokens {
    /// One token.
    One([u8; 64]),
    /// A token under the current master key, and a second one under the new one.
    Two([u8; 64], Second),
}

/// Puts tokens into the record of a label that is held.
pub(crate) fn put<D: Disk>(
    tokens: &Tokens,
    lease: &mut Lease,
    held: &Registers,
    store: &mut D,
    records: &mut Records,
    place: Place,
) -> Result<(), RecordFault>
    requires held { IsSome (label_at (row_directory records.old) place) }
    requires size { (D.medium store.old).size ≡ STORE_LEN }
    requires settled { IsSettled (D.medium store.old) }
    requires holds { Told (D.medium store.old) (HoldsRows records.old) }
    requires loaded { IsLoaded held.now (bench_of lease.old) }
    requires ready { CanBeWritten (keys_of (masters_in held.now (bench_of lease.old))) tokens.now }

    ensures changes { ChangesRecord D.medium D.faults place
        (body_of (label_or (get_or records.old place None)) tokens.now)
        (Some (row_of (label_or (get_or records.old place None)) tokens.now))
        records.old records.new lease.old lease.new store.old store.new result }
    ensures labels { (masters : MasterKeys) (s : List (Option Entry)) (key : Denoted)
        → Told (D.medium store.old) (KeepsLabels masters records.old s)
        → StandFor masters tokens.now key
        → ChangesLabels masters place s (put_in tokens.now place key s)
        records.new (D.medium store.old) (D.medium store.new) result }
    ensures directory { OnOk result (row_directory records.new ≡ row_directory records.old) }
    ensures faults { IfErr result (λ fault. fault ≡ RecordFault.DiskFault) }
{
    match tokens {
        Tokens::One(token) => records.write(store, lease, held, place, token),
        Tokens::Two(token, second) => {
            records.write_both(store, lease, held, place, token, second)
        }
    }
}
