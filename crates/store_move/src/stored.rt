//! The key in a record, judged by what is needed of it.
ghost use Rattle.std.specs.Prelude.{◌≡◌, ℕ, List, Option, None, Err, get_or, IfOk, IsSome, IsTrue};
ghost use Rattle.key_cells.specs.Lease.{bench_of};
ghost use Rattle.key_records.specs.Changes.{KeepsAllButBody};
ghost use Rattle.record_bodies.specs.Directory.{label_at};
ghost use Rattle.record_bodies.specs.Entries.{Entry, row_directory, what_in};
ghost use Rattle.record_bodies.specs.StoreStands.{HoldsRows, KeepsLabels, entry_at};
ghost use Rattle.master_registers.specs.Loaded.{Loaded};
ghost use Rattle.master_registers.specs.Masters.{Masters};
ghost use Rattle.device_cells.specs.Medium.{Keeps, Told};
ghost use Rattle.verb_rules.specs.KeyChecks.{age_of};
ghost use Rattle.verb_rules.specs.Keys.{HasHalves, IsDouble, keys_of};
ghost use Rattle.key_tokens.specs.Denotes.{Denoted};
ghost use Rattle.store_move.specs.Reading.{FailsAt, HoldsAsRead};
ghost use Rattle.store_move.specs.Stored.{IsStored};

use device_cells::Disk;
use key_cells::Lease;
use key_records::{Place, RecordFault, Records, STORE_LEN};
use master_registers::Registers;
use verb_rules::{Judged, Need, Rule, judge_stored};

/// The key of a record, by what is needed of it; or the first of rules 08, 17 and 19 to 22 that it breaks. One cell is
/// read, and nothing is written.
///
/// Damaged comes where the body that was read isn't that of the record, or has a token under neither register.
pub fn judge_record<D: Disk>(
    lease: &mut Lease,
    store: &mut D,
    records: &Records,
    place: Place,
    need: &Need,
    held: &Registers,
) -> Result<Result<Judged, Rule>, RecordFault>
    requires held { IsSome (label_at (row_directory records.now) place) }
    requires size { (D.medium store.old).size ≡ STORE_LEN }
    requires holds { Told (D.medium store.old) (HoldsRows records.now) }

    ensures stored { (m : Masters) (s : List (Option Entry))
        → Loaded m held.now (bench_of lease.old)
        → Told (D.medium store.old) (KeepsLabels (keys_of m) records.now s)
        → IfOk result (λ judged. Told (D.medium store.old)
        (λ _. IsStored (bench_of lease.old) need.now (what_in (entry_at s place)) judged)) }
    ensures own { (m : Masters) → Loaded m held.now (bench_of lease.old)
        → IfOk result (λ judged. (what : Option Denoted)
        × HoldsAsRead (keys_of m) (get_or records.now place None) (bench_of lease.new).body what
        × IsStored (bench_of lease.old) need.now what judged) }
    ensures halves { IfOk result (λ judged. IfOk judged HasHalves) }
    ensures age { IfOk result (λ judged.
        IfOk judged (λ key. key.age ≡ age_of held.now key.token)) }
    ensures under { IfOk result (λ judged. IfOk judged (λ key. IsSome key.age)) }
    ensures double { IsTrue need.now.double → IfOk result (λ judged. IfOk judged IsDouble) }
    ensures damaged { (m : Masters) (s : List (Option Entry))
        → Loaded m held.now (bench_of lease.old)
        → Told (D.medium store.old) (KeepsLabels (keys_of m) records.now s)
        → (cell : ℕ) → result ≡ Err (RecordFault.Damaged cell)
        → Told (D.medium store.old) (λ _. ⊥) }
    ensures misread { (m : Masters) → Loaded m held.now (bench_of lease.old)
        → (cell : ℕ) (what : Option Denoted) → result ≡ Err (RecordFault.Damaged cell)
        → HoldsAsRead (keys_of m) (get_or records.now place None) (bench_of lease.new).body what
        → ⊥ }
    ensures fails { FailsAt place (D.faults store.old) (D.faults store.new) result }
    ensures keeps { Keeps (D.medium store.old) (D.medium store.new) }
    ensures rest { KeepsAllButBody lease.old lease.new }
{
    let mut token = [0; 64];
    match records.read(store, lease, place, &mut token) {
        Ok(true) => match judge_stored(&token, need, held) {
            Some(judged) => Ok(judged),
            None => Err(RecordFault::Damaged(place.cell())),
        },
        Ok(false) => Ok(Err(Rule::Null)),
        Err(fault) => Err(fault),
    }
}
