//! The transport key under which keys are exported.
ghost use Rattle.std.specs.Prelude.{◌≡◌, ℕ, List, Option, None, Err, get_or, IfOk, IsSome};
ghost use Rattle.key_cells.specs.Lease.{bench_of};
ghost use Rattle.key_records.specs.Changes.{KeepsAllButBody};
ghost use Rattle.record_bodies.specs.Directory.{label_at};
ghost use Rattle.record_bodies.specs.Entries.{Entry, row_directory, what_in};
ghost use Rattle.record_bodies.specs.StoreStands.{HoldsRows, KeepsLabels, entry_at};
ghost use Rattle.master_registers.specs.Loaded.{Loaded};
ghost use Rattle.master_registers.specs.Masters.{Masters};
ghost use Rattle.device_cells.specs.Medium.{Keeps, Told};
ghost use Rattle.verb_rules.specs.Keys.{IsDouble, keys_of};
ghost use Rattle.store_move.specs.Exports.{IsTransport, exporter};
ghost use Rattle.key_tokens.specs.Denotes.{Denoted};
ghost use Rattle.store_move.specs.Reading.{FailsAt, HoldsAsRead};

use crate::stored::judge_record;
use cca_vectors::Class;
use device_cells::Disk;
use key_cells::Lease;
use key_records::{Place, RecordFault, Records, STORE_LEN};
use master_registers::Registers;
use verb_rules::{Judged, Need, Rule, Usage, transport_key};

/// A transport key under which keys are exported.
fn exporter() -> Need
    ensures { result ≡ exporter }
{
    transport_key(Class::Exporter, Usage::Transport)
}

/// The key of a label, as the transport key under which keys are exported; or the first of rules 08, 17 and 19 to 22
/// that it breaks. One cell is read, and nothing is written.
pub fn judge_transport<D: Disk>(
    lease: &mut Lease,
    store: &mut D,
    records: &Records,
    place: Place,
    held: &Registers,
) -> Result<Result<Judged, Rule>, RecordFault>
    requires held { IsSome (label_at (row_directory records.now) place) }
    requires size { (D.medium store.old).size ≡ STORE_LEN }
    requires holds { Told (D.medium store.old) (HoldsRows records.now) }

    ensures judged { (m : Masters) (s : List (Option Entry))
        → Loaded m held.now (bench_of lease.old)
        → Told (D.medium store.old) (KeepsLabels (keys_of m) records.now s)
        → IfOk result (λ judged. Told (D.medium store.old)
        (λ _. IsTransport (bench_of lease.old) (what_in (entry_at s place)) judged)) }
    ensures own { (m : Masters) → Loaded m held.now (bench_of lease.old)
        → IfOk result (λ judged. (what : Option Denoted)
        × HoldsAsRead (keys_of m) (get_or records.now place None) (bench_of lease.new).body what
        × IsTransport (bench_of lease.old) what judged) }
    ensures double { IfOk result (λ judged. IfOk judged IsDouble) }
    ensures damaged { (m : Masters) (s : List (Option Entry))
        → Loaded m held.now (bench_of lease.old)
        → Told (D.medium store.old) (KeepsLabels (keys_of m) records.now s)
        → (cell : ℕ) → result ≡ Err (RecordFault.Damaged cell)
        → Told (D.medium store.old) (λ _. ⊥) }
    ensures fails { FailsAt place (D.faults store.old) (D.faults store.new) result }
    ensures keeps { Keeps (D.medium store.old) (D.medium store.new) }
    ensures rest { KeepsAllButBody lease.old lease.new }
{
    judge_record(lease, store, records, place, &exporter(), held)
}
