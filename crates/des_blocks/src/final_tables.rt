//! The inverse of the initial permutation IP of FIPS 46-3 by eight bits of a half at a time. A half stands as
//! E spreads it, and the low four bits of its eight bytes together are its 32 bits: row i has, for each value
//! of these four bits of byte i, the lowest byte first, what they give.

use crate::table_rows::row;

/// The table of IP for the bits of the left half, the lowest bit first: bit 1, and 32 down to 2, in rows that a
/// macro makes of four. The inverse of IP takes the bits to these places.
macro_rules! rows {
    ($row:ident) => {
        [
            $row!(58, 8, 16, 24),
            $row!(32, 40, 48, 56),
            $row!(64, 6, 14, 22),
            $row!(30, 38, 46, 54),
            $row!(62, 4, 12, 20),
            $row!(28, 36, 44, 52),
            $row!(60, 2, 10, 18),
            $row!(26, 34, 42, 50),
        ]
    };
}

/// The row of the left half.
macro_rules! left {
    ($($place:literal),*) => { row!($(1 << (64 - $place)),*) };
}

/// The row of the right half, whose bits IP takes from the place before.
macro_rules! right {
    ($($place:literal),*) => { row!($(1 << (65 - $place)),*) };
}

/// What the inverse of IP makes of the left half of its input.
pub(crate) const FINAL_LEFT: [[u64; 16]; 8] = rows!(left);

/// What the inverse of IP makes of the right half of its input.
pub(crate) const FINAL_RIGHT: [[u64; 16]; 8] = rows!(right);
