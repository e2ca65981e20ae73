//! Why the registers weren't loaded or changed.
use thiserror::Error;

/// Why the registers weren't loaded.
#[derive(Clone, Copy, Debug, PartialEq, Eq, Error)]
pub enum LoadFault {
    /// The disk failed.
    #[error("the module failed")]
    DiskFault,
    /// The body of cell 0 reads as no registers.
    #[error("the registers of the module are damaged")]
    Damaged,
}

/// Why the registers weren't changed.
#[derive(Clone, Copy, Debug, PartialEq, Eq, Error)]
pub enum RegisterFault {
    /// The disk failed. It holds the old registers or the new ones, and is to be opened again.
    #[error("the module failed")]
    DiskFault,
    /// The new register isn't in the state that the step needs.
    #[error("the new master key register isn't in the state that the step needs")]
    RegisterState,
    /// New and current have the same pattern.
    #[error("the new master key has the pattern of the current one")]
    SamePattern,
}
