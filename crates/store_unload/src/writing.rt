//! The file and the report, label by label.
ghost use Rattle.std.specs.Prelude.{◌≡◌, Err, IfErr};
ghost use Rattle.key_cells.specs.Lease.{bench_of, loan_of};
ghost use Rattle.record_bodies.specs.StoreStands.{HoldsRows, KeepsLabels};
ghost use Rattle.line_service.specs.Devices.{TellsFault};
ghost use Rattle.line_service.specs.Sending.{Grows};
ghost use Rattle.master_registers.specs.Loaded.{Loaded};
ghost use Rattle.master_registers.specs.Masters.{Masters};
ghost use Rattle.device_cells.specs.Medium.{Keeps, Told};
ghost use Rattle.device_cells.specs.WhereTold.{WhereTold};
ghost use Rattle.verb_rules.specs.Keys.{IsDouble, keys_of, opened};
ghost use Rattle.cca_machine.specs.State.{State};
ghost use Rattle.store_unload.specs.Moves.{clear_of};
ghost use Rattle.store_unload.specs.Writing.{IsFault, RestsOnRecords, Tells};

use crate::telling::tell_label;
use command_words::Move;
use device_cells::{Disk, Sink};
use key_cells::Lease;
use key_records::{RecordFault, Records, STORE_LEN};
use line_service::ReplyBuffer;
use master_registers::Registers;
use thiserror::Error;
use verb_rules::Judged;

/// Why a move ended before the last label.
#[derive(Clone, Copy, Debug, PartialEq, Eq, Error)]
pub enum MoveFault {
    /// The file could not be written.
    #[error("the file could not be written")]
    WriteFault,
    /// The report could not be written.
    #[error("the report could not be written")]
    ReportFault,
    /// The store failed, or a record of it is damaged.
    #[error("the store failed or is damaged")]
    Store(RecordFault),
}

/// Goes through the labels in ascending order: of each one that is moved two requests are sent to the file, CSNBKRC and
/// CSNBKIM, and of each other one a line to the report.
///
/// The registers and the labels were opened, and the transport key was judged. Each label costs one read of the store; one
/// that is moved two writes to the file, and one that is kept back one to the report. No memory is taken, and nothing is
/// written to the store.
pub fn write_move<K: Sink, P: Sink, D: Disk>(
    how: &Move,
    line: &mut ReplyBuffer,
    lease: &mut Lease,
    held: &Registers,
    transport: &Judged,
    file: &mut K,
    report: &mut P,
    store: &mut D,
    records: &Records,
) -> Result<(), MoveFault>
    requires size { (D.medium store.old).size ≡ STORE_LEN }
    requires holds { Told (D.medium store.old) (HoldsRows records.now) }
    requires double { IsDouble transport.now }

    // What file and report got, from the state for which the disks stand.
    ensures tells { (s : State) → Loaded s.registers held.now (bench_of lease.old)
        → Told (D.medium store.old) (KeepsLabels (keys_of s.registers) records.now s.labels)
        → opened (bench_of lease.old) transport.now ≡ clear_of s how.now.transport
        → Told (D.medium store.old) (λ _. Tells s how.now result
        (K.held file.old) (K.held file.new) (P.held report.old) (P.held report.new)) }
    // By what was read of each label's record, whatever the store tells of its bytes.
    ensures own { (m : Masters) → Loaded m held.now (bench_of lease.old)
        → RestsOnRecords (keys_of m) how.now records.now
        (opened (bench_of lease.old) transport.now).key result
        (K.held file.old) (K.held file.new) (P.held report.old) (P.held report.new) }
    ensures file_grows { WhereTold (K.held file.old) (K.held file.new) Grows }
    ensures report_grows { WhereTold (P.held report.old) (P.held report.new) Grows }

    // What is left of each device, and why it ended.
    ensures faults { IfErr result IsFault }
    ensures file_left { TellsFault (K.faults file.old) (K.faults file.new)
        (result ≡ Err MoveFault.WriteFault) }
    ensures report_left { TellsFault (P.faults report.old) (P.faults report.new)
        (result ≡ Err MoveFault.ReportFault) }
    ensures store_left { TellsFault (D.faults store.old) (D.faults store.new)
        (result ≡ Err (MoveFault.Store RecordFault.DiskFault)) }
    ensures keeps { Keeps (D.medium store.old) (D.medium store.new) }
    ensures loan { loan_of lease.new ≡ loan_of lease.old }
{
    for index in 0..records.count() {
        let label = records.label_at(index);
        match tell_label(
            how, label, line, lease, held, transport, file, report, store, records,
        ) {
            Ok(()) => {}
            Err(fault) => return Err(fault),
        }
    }
    Ok(())
}
