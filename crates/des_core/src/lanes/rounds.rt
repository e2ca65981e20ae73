//! A round of FIPS 46-3 over 128 lanes.
ghost use Rattle.std.specs.Prelude.{◌≡◌, ◌<◌, ◌*◌, ℕ, [], ◌∷◌, drop, length, slice_index, take};
ghost use Rattle.std.specs.Int.{bit_at};
ghost use Rattle.des_blocks.specs.Bits.{bits, xor};
ghost use Rattle.des_blocks.specs.Des.{f, look_up, places};
ghost use Rattle.des_blocks.specs.Schedules.{group_bits};
ghost use Rattle.des_blocks.specs.Tables.{expansion, s1, s2, s3, s4, s5, s6, s7, s8};
ghost use Rattle.des_core.specs.Lanes.{AreVectors, bit_of, joined_at, lane};

use super::boxes;
use std::simd::prelude::*;

/// A bit of a group of a round key at every lane, as words of ones or of zeros.
#[inline(always)]
fn key_lanes(group: u8, place: usize) -> u64x2
    requires { place < 8 }
    ensures vector { length result ≡ 2 }
    ensures bits { (e i : ℕ) → e < 2 → i < 64 → bit_of e i result ≡ bit_at group place }
{
    u64x2::splat(0u64.wrapping_sub((group >> place & 1) as u64))
}

/// What S1 has for its six bits of a right half and a group of a round key.
#[inline(always)]
fn entry_1(right: &[u64x2; 32], group: u8) -> (u64x2, u64x2, u64x2, u64x2)
    requires { AreVectors right.now }
    ensures vectors { AreVectors (result.0 ∷ result.1 ∷ result.2 ∷ result.3 ∷ []) }
    ensures lanes { (e i : ℕ) → e < 2 → i < 64
        → lane e i (result.0 ∷ result.1 ∷ result.2 ∷ result.3 ∷ [])
        ≡ look_up s1
        (xor (take 6 (drop 0 (places expansion (lane e i right.now)))) (bits 6 group)) }
{
    boxes::s1(
        right[31] ^ key_lanes(group, 5),
        right[0] ^ key_lanes(group, 4),
        right[1] ^ key_lanes(group, 3),
        right[2] ^ key_lanes(group, 2),
        right[3] ^ key_lanes(group, 1),
        right[4] ^ key_lanes(group, 0),
    )
}

/// What S2 has for its six bits of a right half and a group of a round key.
#[inline(always)]
fn entry_2(right: &[u64x2; 32], group: u8) -> (u64x2, u64x2, u64x2, u64x2)
    requires { AreVectors right.now }
    ensures vectors { AreVectors (result.0 ∷ result.1 ∷ result.2 ∷ result.3 ∷ []) }
    ensures lanes { (e i : ℕ) → e < 2 → i < 64
        → lane e i (result.0 ∷ result.1 ∷ result.2 ∷ result.3 ∷ [])
        ≡ look_up s2
        (xor (take 6 (drop 6 (places expansion (lane e i right.now)))) (bits 6 group)) }
{
    boxes::s2(
        right[3] ^ key_lanes(group, 5),
        right[4] ^ key_lanes(group, 4),
        right[5] ^ key_lanes(group, 3),
        right[6] ^ key_lanes(group, 2),
        right[7] ^ key_lanes(group, 1),
        right[8] ^ key_lanes(group, 0),
    )
}

/// What S3 has for its six bits of a right half and a group of a round key.
#[inline(always)]
fn entry_3(right: &[u64x2; 32], group: u8) -> (u64x2, u64x2, u64x2, u64x2)
    requires { AreVectors right.now }
    ensures vectors { AreVectors (result.0 ∷ result.1 ∷ result.2 ∷ result.3 ∷ []) }
    ensures lanes { (e i : ℕ) → e < 2 → i < 64
        → lane e i (result.0 ∷ result.1 ∷ result.2 ∷ result.3 ∷ [])
        ≡ look_up s3
        (xor (take 6 (drop 12 (places expansion (lane e i right.now)))) (bits 6 group)) }
{
    boxes::s3(
        right[7] ^ key_lanes(group, 5),
        right[8] ^ key_lanes(group, 4),
        right[9] ^ key_lanes(group, 3),
        right[10] ^ key_lanes(group, 2),
        right[11] ^ key_lanes(group, 1),
        right[12] ^ key_lanes(group, 0),
    )
}

/// What S4 has for its six bits of a right half and a group of a round key.
#[inline(always)]
fn entry_4(right: &[u64x2; 32], group: u8) -> (u64x2, u64x2, u64x2, u64x2)
    requires { AreVectors right.now }
    ensures vectors { AreVectors (result.0 ∷ result.1 ∷ result.2 ∷ result.3 ∷ []) }
    ensures lanes { (e i : ℕ) → e < 2 → i < 64
        → lane e i (result.0 ∷ result.1 ∷ result.2 ∷ result.3 ∷ [])
        ≡ look_up s4
        (xor (take 6 (drop 18 (places expansion (lane e i right.now)))) (bits 6 group)) }
{
    boxes::s4(
        right[11] ^ key_lanes(group, 5),
        right[12] ^ key_lanes(group, 4),
        right[13] ^ key_lanes(group, 3),
        right[14] ^ key_lanes(group, 2),
        right[15] ^ key_lanes(group, 1),
        right[16] ^ key_lanes(group, 0),
    )
}

/// What S5 has for its six bits of a right half and a group of a round key.
#[inline(always)]
fn entry_5(right: &[u64x2; 32], group: u8) -> (u64x2, u64x2, u64x2, u64x2)
    requires { AreVectors right.now }
    ensures vectors { AreVectors (result.0 ∷ result.1 ∷ result.2 ∷ result.3 ∷ []) }
    ensures lanes { (e i : ℕ) → e < 2 → i < 64
        → lane e i (result.0 ∷ result.1 ∷ result.2 ∷ result.3 ∷ [])
        ≡ look_up s5
        (xor (take 6 (drop 24 (places expansion (lane e i right.now)))) (bits 6 group)) }
{
    boxes::s5(
        right[15] ^ key_lanes(group, 5),
        right[16] ^ key_lanes(group, 4),
        right[17] ^ key_lanes(group, 3),
        right[18] ^ key_lanes(group, 2),
        right[19] ^ key_lanes(group, 1),
        right[20] ^ key_lanes(group, 0),
    )
}

/// What S6 has for its six bits of a right half and a group of a round key.
#[inline(always)]
fn entry_6(right: &[u64x2; 32], group: u8) -> (u64x2, u64x2, u64x2, u64x2)
    requires { AreVectors right.now }
    ensures vectors { AreVectors (result.0 ∷ result.1 ∷ result.2 ∷ result.3 ∷ []) }
    ensures lanes { (e i : ℕ) → e < 2 → i < 64
        → lane e i (result.0 ∷ result.1 ∷ result.2 ∷ result.3 ∷ [])
        ≡ look_up s6
        (xor (take 6 (drop 30 (places expansion (lane e i right.now)))) (bits 6 group)) }
{
    boxes::s6(
        right[19] ^ key_lanes(group, 5),
        right[20] ^ key_lanes(group, 4),
        right[21] ^ key_lanes(group, 3),
        right[22] ^ key_lanes(group, 2),
        right[23] ^ key_lanes(group, 1),
        right[24] ^ key_lanes(group, 0),
    )
}

/// What S7 has for its six bits of a right half and a group of a round key.
#[inline(always)]
fn entry_7(right: &[u64x2; 32], group: u8) -> (u64x2, u64x2, u64x2, u64x2)
    requires { AreVectors right.now }
    ensures vectors { AreVectors (result.0 ∷ result.1 ∷ result.2 ∷ result.3 ∷ []) }
    ensures lanes { (e i : ℕ) → e < 2 → i < 64
        → lane e i (result.0 ∷ result.1 ∷ result.2 ∷ result.3 ∷ [])
        ≡ look_up s7
        (xor (take 6 (drop 36 (places expansion (lane e i right.now)))) (bits 6 group)) }
{
    boxes::s7(
        right[23] ^ key_lanes(group, 5),
        right[24] ^ key_lanes(group, 4),
        right[25] ^ key_lanes(group, 3),
        right[26] ^ key_lanes(group, 2),
        right[27] ^ key_lanes(group, 1),
        right[28] ^ key_lanes(group, 0),
    )
}

/// What S8 has for its six bits of a right half and a group of a round key.
#[inline(always)]
fn entry_8(right: &[u64x2; 32], group: u8) -> (u64x2, u64x2, u64x2, u64x2)
    requires { AreVectors right.now }
    ensures vectors { AreVectors (result.0 ∷ result.1 ∷ result.2 ∷ result.3 ∷ []) }
    ensures lanes { (e i : ℕ) → e < 2 → i < 64
        → lane e i (result.0 ∷ result.1 ∷ result.2 ∷ result.3 ∷ [])
        ≡ look_up s8
        (xor (take 6 (drop 42 (places expansion (lane e i right.now)))) (bits 6 group)) }
{
    boxes::s8(
        right[27] ^ key_lanes(group, 5),
        right[28] ^ key_lanes(group, 4),
        right[29] ^ key_lanes(group, 3),
        right[30] ^ key_lanes(group, 2),
        right[31] ^ key_lanes(group, 1),
        right[0] ^ key_lanes(group, 0),
    )
}

/// Joins the four bits of an S-box, at each lane, to those at some places.
#[inline(always)]
fn join_four(left: &mut [u64x2; 32], places: [usize; 4], four: (u64x2, u64x2, u64x2, u64x2))
    requires { (k : ℕ) → k < 4 → slice_index places k < 32 }
    ensures { left.new ≡ joined_at places (four.0 ∷ four.1 ∷ four.2 ∷ four.3 ∷ []) left.old }
{
    left[places[0]] = left[places[0]] ^ four.0;
    left[places[1]] = left[places[1]] ^ four.1;
    left[places[2]] = left[places[2]] ^ four.2;
    left[places[3]] = left[places[3]] ^ four.3;
}

/// The next right half, at each lane: the left one combined with f of the right one under the round
/// key that eight groups are, box by box.
#[inline(always)]
pub(crate) fn next_half(left: &mut [u64x2; 32], right: &[u64x2; 32], groups: &[u8; 128], at: usize)
    requires at { at < 16 }
    requires left { AreVectors left.old }
    requires right { AreVectors right.now }
    ensures vectors { AreVectors left.new }
    ensures lanes { (e i : ℕ) → e < 2 → i < 64
        → lane e i left.new ≡ xor (lane e i left.old)
        (f (lane e i right.now) (group_bits (take 8 (drop (8 * at) groups.now)))) }
{
    let first = 8 * at;
    join_four(left, [8, 16, 22, 30], entry_1(right, groups[first]));
    join_four(left, [12, 27, 1, 17], entry_2(right, groups[first + 1]));
    join_four(left, [23, 15, 29, 5], entry_3(right, groups[first + 2]));
    join_four(left, [25, 19, 9, 0], entry_4(right, groups[first + 3]));
    join_four(left, [7, 13, 24, 2], entry_5(right, groups[first + 4]));
    join_four(left, [3, 28, 10, 18], entry_6(right, groups[first + 5]));
    join_four(left, [31, 11, 21, 6], entry_7(right, groups[first + 6]));
    join_four(left, [4, 26, 14, 20], entry_8(right, groups[first + 7]));
}
