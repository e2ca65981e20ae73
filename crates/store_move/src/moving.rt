//! The key of a label, exported.
ghost use Rattle.std.specs.Prelude.{◌≡◌, ℕ, List, Option, None, Err, get_or, IfOk, IsSome};
ghost use Rattle.key_cells.specs.Lease.{bench_of};
ghost use Rattle.record_bodies.specs.Directory.{label_at};
ghost use Rattle.record_bodies.specs.Entries.{Entry, row_directory, what_in};
ghost use Rattle.record_bodies.specs.StoreStands.{HoldsRows, KeepsLabels, entry_at};
ghost use Rattle.master_registers.specs.Loaded.{Loaded};
ghost use Rattle.master_registers.specs.Masters.{Masters};
ghost use Rattle.device_cells.specs.Medium.{Keeps, Told};
ghost use Rattle.verb_rules.specs.Keys.{IsDouble, keys_of, opened};
ghost use Rattle.store_move.specs.Exports.{ChangesWork, IsMoved};
ghost use Rattle.key_tokens.specs.Denotes.{Denoted};
ghost use Rattle.store_move.specs.Reading.{FailsAt, HoldsAsRead};

use crate::stored::judge_record;
use device_cells::Disk;
use key_cells::Lease;
use key_records::{Place, RecordFault, Records, STORE_LEN};
use key_transport::export;
use master_registers::Registers;
use verb_rules::{Judged, Rule, exported_key};

/// What comes of a label whose key is to be moved.
#[derive(Clone, Copy, Debug, PartialEq, Eq)]
pub enum Moved {
    /// The external token of its key: 64 bytes.
    Token([u8; 64]),
    /// The label is kept back, by this rule: 08, 17 or 21.
    Kept(Rule),
}

/// Exports the key of a label under the clear key of a judged transport key; or names the first of rules 08, 17 and 21
/// that the label breaks. One cell is read.
///
/// Damaged comes where the body that was read isn't that of the record, or has a token under neither register. The clear
/// key stands in the lease alone, whose places `First` and `Key`, body and schedules change. Nothing is written.
pub fn unload_label<D: Disk>(
    lease: &mut Lease,
    store: &mut D,
    records: &Records,
    place: Place,
    transport: &Judged,
    held: &Registers,
) -> Result<Moved, RecordFault>
    requires held { IsSome (label_at (row_directory records.now) place) }
    requires size { (D.medium store.old).size ≡ STORE_LEN }
    requires holds { Told (D.medium store.old) (HoldsRows records.now) }
    requires double { IsDouble transport.now }

    ensures moved { (m : Masters) (s : List (Option Entry)) → Loaded m held.now (bench_of lease.old)
        → Told (D.medium store.old) (KeepsLabels (keys_of m) records.now s)
        → IfOk result (λ moved. Told (D.medium store.old)
        (λ _. IsMoved (opened (bench_of lease.old) transport.now).key
        (what_in (entry_at s place)) moved)) }
    ensures own { (m : Masters) → Loaded m held.now (bench_of lease.old)
        → IfOk result (λ moved. (what : Option Denoted)
        × HoldsAsRead (keys_of m) (get_or records.now place None) (bench_of lease.new).body what
        × IsMoved (opened (bench_of lease.old) transport.now).key what moved) }
    ensures damaged { (m : Masters) (s : List (Option Entry))
        → Loaded m held.now (bench_of lease.old)
        → Told (D.medium store.old) (KeepsLabels (keys_of m) records.now s)
        → (cell : ℕ) → result ≡ Err (RecordFault.Damaged cell)
        → Told (D.medium store.old) (λ _. ⊥) }
    ensures misread { (m : Masters) → Loaded m held.now (bench_of lease.old)
        → (cell : ℕ) (what : Option Denoted) → result ≡ Err (RecordFault.Damaged cell)
        → HoldsAsRead (keys_of m) (get_or records.now place None) (bench_of lease.new).body what
        → ⊥ }
    ensures fails { FailsAt place (D.faults store.old) (D.faults store.new) result }
    ensures keeps { Keeps (D.medium store.old) (D.medium store.new) }
    ensures rest { ChangesWork lease.old lease.new }
{
    match judge_record(lease, store, records, place, &exported_key(), held) {
        Ok(Ok(key)) => Ok(Moved::Token(export(lease, &key, transport))),
        Ok(Err(rule)) => Ok(Moved::Kept(rule)),
        Err(fault) => Err(fault),
    }
}
