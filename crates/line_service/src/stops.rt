//! Why a session ends before its input does.

/// A disk of the coprocessor.
#[derive(Clone, Copy, Debug, PartialEq, Eq)]
pub enum Device {
    /// The disk of master key registers and roles.
    Module,
    /// The disk of key records.
    Store,
}

/// Why a session ended. It is to be begun again.
#[derive(Clone, Copy, Debug, PartialEq, Eq)]
pub enum Stop {
    /// The source failed.
    ReadFault,
    /// The sink failed.
    WriteFault,
    /// The random source failed.
    EntropyFault,
    /// The module failed.
    ModuleFault,
    /// The store failed.
    StoreFault,
    /// A cell of a disk reads as nothing that the disk may hold.
    Damaged(Device, u16),
    /// 2^40 bytes were taken, and no whole line of them is left.
    InputLimit,
}
