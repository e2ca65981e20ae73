/// The place of the key under which another one is enciphered.
#[derive(Clone, Copy, Debug, PartialEq, Eq)]
pub enum Under {
    /// The current master key.
    Current,
    /// The old master key.
    Old,
    /// The new master key.
    New,
    /// The first transport key.
    First,
    /// The second transport key.
    Second,
}

/// The halves of a key, each enciphered by itself. The right half of a single-length key is zero.
#[derive(Clone, Copy, Debug, PartialEq, Eq)]
pub struct Sealed {
    pub left: [u8; 8],
    pub right: [u8; 8],
}
