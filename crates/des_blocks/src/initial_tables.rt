//! The initial permutation IP of FIPS 46-3 by four bits of a block at a time: row i has, for each value of the
//! four bits from bit 4 * i up, what they give. The exclusive or over all rows is the half of a block.

use crate::table_rows::{row, spread};

/// The table of the inverse of IP from its end: the places to which IP takes the bits of a block, the lowest bit
/// first, in rows that a macro makes of four.
macro_rules! rows {
    ($row:ident) => {
        [
            $row!(25, 57, 17, 49),
            $row!(9, 41, 1, 33),
            $row!(26, 58, 18, 50),
            $row!(10, 42, 2, 34),
            $row!(27, 59, 19, 51),
            $row!(11, 43, 3, 35),
            $row!(28, 60, 20, 52),
            $row!(12, 44, 4, 36),
            $row!(29, 61, 21, 53),
            $row!(13, 45, 5, 37),
            $row!(30, 62, 22, 54),
            $row!(14, 46, 6, 38),
            $row!(31, 63, 23, 55),
            $row!(15, 47, 7, 39),
            $row!(32, 64, 24, 56),
            $row!(16, 48, 8, 40),
        ]
    };
}

/// The row of the left half: the bits that IP takes to places up to 32 are the first and the third.
macro_rules! left {
    ($first:literal, $second:literal, $third:literal, $fourth:literal) => {
        row!(spread!($first), 0, spread!($third), 0)
    };
}

/// The row of the right half: the bits that IP takes to places from 33 up are the second and the fourth.
macro_rules! right {
    ($first:literal, $second:literal, $third:literal, $fourth:literal) => {
        row!(0, spread!($second - 32), 0, spread!($fourth - 32))
    };
}

/// What IP and the bit-selection table E make of a block: the left half, in eight groups of six bits.
pub(crate) const INITIAL_LEFT: [[u64; 16]; 16] = rows!(left);

/// What IP and the bit-selection table E make of a block: the right half, in eight groups of six bits.
pub(crate) const INITIAL_RIGHT: [[u64; 16]; 16] = rows!(right);
