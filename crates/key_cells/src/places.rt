//! The names of the places of the workbench that hold keys.

/// A place of 24 bytes, for a master key.
#[derive(Clone, Copy, PartialEq, Eq, Debug)]
pub enum MasterPlace {
    /// The current master key.
    Current,
    /// The old master key.
    Old,
    /// The new master key.
    New,
    /// A part of a master key.
    Part,
}

/// A place of 16 bytes, for a key or a transport key. A key of 8 bytes lies in the first 8.
#[derive(Clone, Copy, PartialEq, Eq, Debug)]
pub enum KeyPlace {
    /// The first transport key.
    First,
    /// The second transport key.
    Second,
    /// The key that a verb works on.
    Key,
    /// A key that is being made.
    Fresh,
}
