//! Why roles weren't opened or changed.
use thiserror::Error;

/// Why roles weren't opened or changed.
#[derive(Clone, Copy, Debug, PartialEq, Eq, Error)]
pub enum RoleFault {
    /// The disk failed. Its roles are to be opened again.
    #[error("the module failed")]
    DiskFault,
    /// The cell of this number reads as no role, or as one whose name a lower cell holds.
    #[error("a role of the module is damaged")]
    Damaged(u16),
    /// Each cell holds a role, and none of them has the name.
    #[error("the module holds as many roles as it can")]
    TableFull,
    /// No role has the name.
    #[error("the role isn't held")]
    Unknown,
}
