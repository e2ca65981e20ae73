//! One label: its requests, or why it is kept back.
ghost use Rattle.std.specs.Prelude.{◌≡◌, ◌<◌, ℕ, None, Some, Err, IfErr, get_or};
ghost use Rattle.std.specs.Str.{bytes_eq};
ghost use Rattle.key_cells.specs.Lease.{bench_of};
ghost use Rattle.record_bodies.specs.Directory.{cell_of, label_at};
ghost use Rattle.record_bodies.specs.Entries.{row_directory};
ghost use Rattle.record_bodies.specs.StoreStands.{HoldsRows, KeepsLabels};
ghost use Rattle.line_service.specs.Devices.{TellsFault};
ghost use Rattle.line_service.specs.Sending.{Grows};
ghost use Rattle.master_registers.specs.Loaded.{Loaded};
ghost use Rattle.master_registers.specs.Masters.{Masters};
ghost use Rattle.line_service.specs.Replies.{two_digits};
ghost use Rattle.device_cells.specs.Medium.{Keeps, Told};
ghost use Rattle.device_cells.specs.WhereTold.{WhereTold};
ghost use Rattle.verb_rules.specs.Keys.{IsDouble, keys_of, opened};
ghost use Rattle.verb_rules.specs.Rules.{rule_number};
ghost use Rattle.cca_machine.specs.State.{State};
ghost use Rattle.store_unload.specs.Moves.{clear_of, remarks_on, requests_for, with_newlines};
ghost use Rattle.store_unload.specs.Telling.{KeepsMasters, TellsAsRead, TellsLabel};
ghost use Rattle.store_unload.specs.Writing.{IsFault};

use crate::sending::{send_remark, send_requests};
use crate::writing::MoveFault;
use command_words::Move;
use device_cells::{Disk, Sink, Steps};
use key_cells::Lease;
use key_records::{Label, Place, RecordFault, Records, STORE_LEN};
use line_service::ReplyBuffer;
use master_registers::Registers;
use store_move::{Moved, unload_label};
use verb_rules::{Judged, Rule};

/// Tells a label that is held: its requests to the file where it is moved, and else why not to the report.
pub(crate) fn tell_label<K: Sink, P: Sink, D: Disk>(
    how: &Move,
    label: &Label,
    line: &mut ReplyBuffer,
    lease: &mut Lease,
    held: &Registers,
    transport: &Judged,
    file: &mut K,
    report: &mut P,
    store: &mut D,
    records: &Records,
) -> Result<(), MoveFault>
    requires held { (place : ℕ) × (label_at (row_directory records.now) place ≡ Some label.now) }
    requires size { (D.medium store.old).size ≡ STORE_LEN }
    requires holds { Told (D.medium store.old) (HoldsRows records.now) }
    requires double { IsDouble transport.now }

    ensures tells { (s : State) → Loaded s.registers held.now (bench_of lease.old)
        → Told (D.medium store.old) (KeepsLabels (keys_of s.registers) records.now s.labels)
        → opened (bench_of lease.old) transport.now ≡ clear_of s how.now.transport
        → Told (D.medium store.old) (λ _. TellsLabel
        (with_newlines (requests_for s how.now label.now))
        (with_newlines (remarks_on s how.now label.now)) result
        (K.held file.old) (K.held file.new) (P.held report.old) (P.held report.new)) }
    // By what was read of its record, whatever the store tells of its bytes.
    ensures own { (m : Masters) (place : ℕ) → Loaded m held.now (bench_of lease.old)
        → cell_of label.now (row_directory records.now) ≡ Some place
        → TellsAsRead (keys_of m) how.now label.now (get_or records.now place None)
        (opened (bench_of lease.old) transport.now).key (bench_of lease.new).body result
        (K.held file.old) (K.held file.new) (P.held report.old) (P.held report.new) }
    ensures file_grows { WhereTold (K.held file.old) (K.held file.new) Grows }
    ensures report_grows { WhereTold (P.held report.old) (P.held report.new) Grows }

    ensures faults { IfErr result IsFault }
    ensures file_left { TellsFault (K.faults file.old) (K.faults file.new)
        (result ≡ Err MoveFault.WriteFault) }
    ensures report_left { TellsFault (P.faults report.old) (P.faults report.new)
        (result ≡ Err MoveFault.ReportFault) }
    ensures store_left { TellsFault (D.faults store.old) (D.faults store.new)
        (result ≡ Err (MoveFault.Store RecordFault.DiskFault)) }
    ensures keeps { Keeps (D.medium store.old) (D.medium store.new) }
    ensures masters { KeepsMasters lease.old lease.new }
{
    if is_same(label, &how.transport_there) {
        return send_remark(label, b"target", line, report);
    }
    let place = place_of(label, records);
    match unload_label(lease, store, records, place, transport, held) {
        Ok(Moved::Token(token)) => send_requests(how, &token, label, line, file),
        Ok(Moved::Kept(rule)) => send_remark(label, &digits_of(rule), line, report),
        Err(fault) => Err(MoveFault::Store(fault)),
    }
}

// Whether two labels are the same.
fn is_same(label: &Label, other: &Label) -> bool
    ensures { result ≡ bytes_eq label.now other.now }
{
    label.text() == other.text()
}

// Where a label that is held stands.
fn place_of(label: &Label, records: &Records) -> Place
    requires { (place : ℕ) × (label_at (row_directory records.now) place ≡ Some label.now) }
    ensures found { cell_of label.now (row_directory records.now) ≡ Some result }
    ensures held { label_at (row_directory records.now) result ≡ Some label.now }
    ensures within { result < 1024 }
{
    let mut steps: Steps<()> = Steps::new();
    records.find(label, &mut steps).unwrap()
}

// The number of a rule, in two decimal digits.
fn digits_of(rule: Rule) -> [u8; 2]
    ensures { result ≡ two_digits (rule_number rule) }
{
    let number = rule.number();
    [b'0' + number / 10, b'0' + number % 10]
}
