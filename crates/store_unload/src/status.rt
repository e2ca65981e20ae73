//! How a run ends.
ghost use Rattle.std.specs.Prelude.{◌≡◌};
ghost use Rattle.store_unload.specs.Statuses.{status_of_lem};

use line_service::{Device, Stop};

/// How a run ended.
#[derive(Clone, Copy, Debug, PartialEq, Eq)]
pub enum Status {
    /// The input was read to its end, and every line was answered.
    Done,
    /// The words aren't those of a command.
    Usage,
    /// The input could not be read.
    ReadFault,
    /// The output could not be written.
    WriteFault,
    /// The random source failed.
    EntropyFault,
    /// The module failed.
    ModuleFault,
    /// The store failed.
    StoreFault,
    /// A cell of a disk reads as nothing that the disk may hold.
    Damaged(Device, u16),
    /// More bytes came than a run takes.
    InputLimit,
    /// There was no memory.
    NoMemory,
}

/// The status of lines that ended so.
pub fn status_of(outcome: Result<(), Stop>) -> Status
    ensures { result ≡ status_of_lem outcome }
{
    match outcome {
        Ok(()) => Status::Done,
        Err(Stop::ReadFault) => Status::ReadFault,
        Err(Stop::WriteFault) => Status::WriteFault,
        Err(Stop::EntropyFault) => Status::EntropyFault,
        Err(Stop::ModuleFault) => Status::ModuleFault,
        Err(Stop::StoreFault) => Status::StoreFault,
        Err(Stop::Damaged(device, cell)) => Status::Damaged(device, cell),
        Err(Stop::InputLimit) => Status::InputLimit,
    }
}
