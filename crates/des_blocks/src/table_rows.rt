//! Macros that write tables from places, as FIPS 46-3 numbers them: from 1, the highest bit first.

/// A row with an entry for each value of some bits, the lowest bit first: what the bits that are 1 give, joined.
macro_rules! row {
    ($($word:expr),*) => { $crate::table_rows::joined!([0]; $($word),*) };
}

pub(crate) use row;

/// The entries so far, each without and with every word that is left.
macro_rules! joined {
    ([$($entry:expr),*];) => { [$($entry),*] };
    ([$($entry:expr),*]; $word:expr $(, $more:expr)*) => {
        $crate::table_rows::joined!([$($entry),*, $($entry | $word),*]; $($more),*)
    };
}

pub(crate) use joined;

/// What E makes of the bit of a half at a place: a bit in the group of its four bits, and one in the group
/// before at the first of the four, or in the group after at the last one.
macro_rules! spread {
    ($place:expr) => {
        1 << (61 - $place - ($place - 1) / 4 * 4)
            | (($place % 4 == 1) as u64) << ((66 - 2 * $place) % 64)
            | (($place % 4 == 0) as u64) << ((125 - 2 * $place) % 64)
    };
}

pub(crate) use spread;
