//! Why records weren't opened, read or changed.
use thiserror::Error;

/// Why records weren't opened, read or changed.
#[derive(Clone, Copy, Debug, PartialEq, Eq, Error)]
pub enum RecordFault {
    /// The disk failed. The records are to be opened again.
    #[error("the store failed")]
    DiskFault,
    /// The cell of this number reads as no record, or as one whose label a lower cell holds.
    #[error("a record of the store is damaged")]
    Damaged(u16),
    /// Every cell holds a label.
    #[error("the store holds as many labels as it can")]
    Full,
    /// The label is held.
    #[error("the label is held")]
    Exists,
}
