//! How a command ends, and what each end is told as.
ghost use Rattle.std.specs.Prelude.{◌≡◌, None};
ghost use Rattle.cca.specs.Exits.{audit_fault_of, fault_of_lem, run_fault_of};

use cca_tool::{AuditStatus, Device, MoveStatus, Status};
use real_devices::Fault;

/// How a command ended.
#[derive(Clone, Copy)]
pub enum Ending {
    /// That of a run, with an audit trail or without, or of a listing of the trail.
    Run(AuditStatus),
    /// That of a move.
    Move(MoveStatus),
}

/// What an end is told as: nothing where it is a good one.
pub fn fault_of(ending: Ending) -> Option<Fault>
    ensures { result ≡ fault_of_lem ending }
{
    match ending {
        Ending::Run(status) => audit_fault_of(status),
        Ending::Move(MoveStatus::Run(status)) => run_fault_of(status),
        Ending::Move(MoveStatus::Refused(rule)) => Some(Fault::Refused(rule)),
        Ending::Move(MoveStatus::ReportFault) => Some(Fault::Report),
    }
}

/// What the end of an audited run or of a listing is told as.
fn audit_fault_of(status: AuditStatus) -> Option<Fault>
    ensures { result ≡ audit_fault_of status }
{
    match status {
        AuditStatus::Run(status) => run_fault_of(status),
        AuditStatus::TrailFault => Some(Fault::Trail),
        AuditStatus::TrailDamaged(cell) => Some(Fault::TrailCell(cell)),
        AuditStatus::TrailFull => Some(Fault::TrailFull),
    }
}

/// What a run's end is told as: nothing where it ended well.
fn run_fault_of(status: Status) -> Option<Fault>
    ensures { result ≡ run_fault_of status }
{
    match status {
        Status::Done => None,
        Status::Usage => Some(Fault::Usage),
        Status::Damaged(Device::Module, cell) => Some(Fault::ModuleCell(cell)),
        Status::Damaged(Device::Store, cell) => Some(Fault::StoreCell(cell)),
        Status::ReadFault => Some(Fault::Input),
        Status::WriteFault => Some(Fault::Output),
        Status::EntropyFault => Some(Fault::Entropy),
        Status::ModuleFault => Some(Fault::Module),
        Status::StoreFault => Some(Fault::Store),
        Status::InputLimit => Some(Fault::InputLimit),
        Status::NoMemory => Some(Fault::NoMemory),
    }
}
