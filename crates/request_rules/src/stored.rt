//! Labels, judged by what the memory knows of them, and the keys in their records.
ghost use Rattle.std.specs.Prelude.{◌≡◌, ℕ, [], None, Some, Err, IfOk, true, get_or};
ghost use Rattle.record_bodies.specs.Directory.{cell_of};
ghost use Rattle.record_bodies.specs.Entries.{row_directory};
ghost use Rattle.key_cells.specs.Bench.{Bench};
ghost use Rattle.key_cells.specs.Lease.{bench_of};
ghost use Rattle.record_bodies.specs.StoreStands.{Agrees, HasStore};
ghost use Rattle.master_registers.specs.Loaded.{Loaded};
ghost use Rattle.master_registers.specs.Masters.{Masters};
ghost use Rattle.verb_rules.specs.Keys.{keys_of};
ghost use Rattle.cca_machine.specs.State.{State};
ghost use Rattle.request_rules.specs.Standing.{AtStore};
ghost use Rattle.request_rules.specs.Judging.{IsAsked, IsShaped};
ghost use Rattle.request_rules.specs.ByRecords.{IsHeldIn};
ghost use Rattle.request_rules.specs.Stored.{Finds, IsAnsweredAsRead, IsLabelAsked, IsReadFault, ReadsStore, read_stop};

use crate::judging::answer_of;
use cca_machine::{Ask, Grant};
use device_cells::{Disk, Steps};
use key_cells::Lease;
use key_records::{Label, Place, RecordFault, Records};
use line_service::{Device, Stop};
use master_registers::Registers;
use store_move::judge_record;
use verb_rules::{Need, Rule};
use verb_script::named_label;

/// The place of a label that is held, by rules 06 and 07. It costs at most 11 comparisons.
fn find_label(text: &[u8], records: &Records) -> Result<Place, Rule>
    ensures { Finds records.now text.now result }
{
    let Some(label) = Label::read(text) else {
        return Err(Rule::LabelForm);
    };
    let mut steps: Steps<()> = Steps::new();
    match records.find(&label, &mut steps) {
        Some(place) => Ok(place),
        None => Err(Rule::LabelUnknown),
    }
}

/// Judges a label that is to be held.
pub(crate) fn judge_held(text: &[u8], records: &Records) -> Result<Grant, Rule>
    ensures asked { (s : State) (bench : Bench)
        → Agrees (keys_of s.registers) records.now s.labels
        → IsAsked s bench text.now Ask.Held result }
    ensures shaped { IsShaped records.now text.now Ask.Held result }
{
    match find_label(text, records) {
        Ok(place) => Ok(Grant::of_place(place)),
        Err(rule) => Err(rule),
    }
}

/// Judges where a key goes: the reply, or the record of a label that is to be held.
pub(crate) fn judge_target(text: &[u8], records: &Records) -> Result<Grant, Rule>
    ensures asked { (s : State) (bench : Bench)
        → Agrees (keys_of s.registers) records.now s.labels
        → IsAsked s bench text.now Ask.Target result }
    ensures shaped { IsShaped records.now text.now Ask.Target result }
{
    match named_label(text) {
        Some(label) => judge_held(label, records),
        None => Ok(Grant::nothing()),
    }
}

/// Judges a label that may be held or not.
pub(crate) fn judge_new_label(text: &[u8]) -> Result<Grant, Rule>
    ensures asked { (s : State) (bench : Bench) → IsAsked s bench text.now Ask.NewLabel result }
    ensures shaped { IsShaped [] text.now Ask.NewLabel result }
{
    match Label::read(text) {
        Some(_) => Ok(Grant::nothing()),
        None => Err(Rule::LabelForm),
    }
}

/// Why a record wasn't read, or a label not brought under another master key.
pub fn stop_of(fault: RecordFault) -> Stop
    requires { IsReadFault fault }
    ensures { result ≡ read_stop fault }
{
    match fault {
        RecordFault::DiskFault => Stop::StoreFault,
        RecordFault::Damaged(cell) => Stop::Damaged(Device::Store, cell),
        RecordFault::Full => unreachable!(),
        RecordFault::Exists => unreachable!(),
    }
}

/// Judges the key in the record of a label. One cell is read.
pub(crate) fn judge_label<D: Disk>(
    label: &[u8],
    need: &Need,
    store: &mut D,
    lease: &mut Lease,
    held: &Registers,
    records: &Records,
) -> Result<Result<Grant, Rule>, Stop>
    requires { HasStore records.now (D.medium store.old) }
    ensures asked { (s : State)
        → AtStore s held.now (bench_of lease.old) records.now (D.medium store.old)
        → IfOk result (IsLabelAsked s (bench_of lease.old) need.now label.now) }
    // By what was read of the record of a label that is held, whatever the store tells of its bytes.
    ensures own { (m : Masters) (place : ℕ) → Loaded m held.now (bench_of lease.old)
        → IsHeldIn records.now label.now place
        → IfOk result (IsAnsweredAsRead m (bench_of lease.old) need.now
        (get_or records.now place None) (bench_of lease.new).body) }
    ensures shaped { IfOk result (IsShaped [] [] (Ask.Key need.now)) }
    // The cell that a stop names is the label's.
    ensures cell { (n : ℕ) → result ≡ Err (Stop.Damaged Device.Store n)
        → cell_of label.now (row_directory records.now) ≡ Some n }
    ensures reads { ReadsStore D.medium D.faults true held.now records.now
        lease.old lease.new store.old store.new result }
{
    let place = match find_label(label, records) {
        Ok(place) => place,
        Err(rule) => return Ok(Err(rule)),
    };
    match judge_record(lease, store, records, place, need, held) {
        Ok(judged) => Ok(answer_of(judged)),
        Err(fault) => Err(stop_of(fault)),
    }
}
