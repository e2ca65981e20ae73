//! DES and triple DES of FIPS 46-3 over 128 lanes.
ghost use Rattle.std.specs.Prelude.{ℕ, ◌≡◌, ◌+◌, ◌*◌, ◌<◌, [], ◌++◌};
ghost use Rattle.std.specs.Prelude.{drop, reverse, slice_index_or, take};
ghost use Rattle.key_cells.specs.declared.schedules.Schedule as declared;
ghost use Rattle.des_blocks.specs.Bits.{bits};
ghost use Rattle.des_blocks.specs.Des.{decipher, places, rounds};
ghost use Rattle.des_blocks.specs.Schedules.{ded_under, keys_of, ordered};
ghost use Rattle.des_blocks.specs.Tables.{final_permutation, initial_permutation};
ghost use Rattle.des_core.specs.Ciphers.{undone};
ghost use Rattle.des_core.specs.Lanes.{AreVectors, lane, word};

use super::rounds::next_half;
use super::transposition::transpose;
use crate::ciphers::Cipher;
use key_cells::Schedule;
use std::simd::prelude::*;

/// The left halves that IP makes of blocks whose bits stand in words, the last bit first.
#[inline(always)]
fn initial_left(words: &[u64x2; 64]) -> [u64x2; 32]
    requires { AreVectors words.now }
    ensures vectors { AreVectors result }
    ensures lanes { (e i : ℕ) → lane e i result
        ≡ take 32 (places initial_permutation (reverse (lane e i words.now))) }
{
    [
        words[6], words[14], words[22], words[30], words[38], words[46], words[54], words[62],
        words[4], words[12], words[20], words[28], words[36], words[44], words[52], words[60],
        words[2], words[10], words[18], words[26], words[34], words[42], words[50], words[58],
        words[0], words[8], words[16], words[24], words[32], words[40], words[48], words[56],
    ]
}

/// The right halves.
#[inline(always)]
fn initial_right(words: &[u64x2; 64]) -> [u64x2; 32]
    requires { AreVectors words.now }
    ensures vectors { AreVectors result }
    ensures lanes { (e i : ℕ) → lane e i result
        ≡ drop 32 (places initial_permutation (reverse (lane e i words.now))) }
{
    [
        words[7], words[15], words[23], words[31], words[39], words[47], words[55], words[63],
        words[5], words[13], words[21], words[29], words[37], words[45], words[53], words[61],
        words[3], words[11], words[19], words[27], words[35], words[43], words[51], words[59],
        words[1], words[9], words[17], words[25], words[33], words[41], words[49], words[57],
    ]
}

/// The blocks that the inverse of IP makes of two halves, their bits in words, the last bit first.
#[inline(always)]
fn final_words(left: &[u64x2; 32], right: &[u64x2; 32]) -> [u64x2; 64]
    requires left { AreVectors left.now }
    requires right { AreVectors right.now }
    ensures vectors { AreVectors result }
    ensures lanes { (e i : ℕ) → reverse (lane e i result)
        ≡ places final_permutation (lane e i left.now ++ lane e i right.now) }
{
    [
        left[24], right[24], left[16], right[16], left[8], right[8], left[0], right[0], left[25],
        right[25], left[17], right[17], left[9], right[9], left[1], right[1], left[26], right[26],
        left[18], right[18], left[10], right[10], left[2], right[2], left[27], right[27], left[19],
        right[19], left[11], right[11], left[3], right[3], left[28], right[28], left[20],
        right[20], left[12], right[12], left[4], right[4], left[29], right[29], left[21],
        right[21], left[13], right[13], left[5], right[5], left[30], right[30], left[22],
        right[22], left[14], right[14], left[6], right[6], left[31], right[31], left[23],
        right[23], left[15], right[15], left[7], right[7],
    ]
}

/// The place of the round key of a round, where the round keys go forward or in reverse.
#[inline(always)]
fn key_place(reversed: bool, round: usize) -> usize
    requires { round < 16 }
    ensures within { result < 16 }
    ensures key { (keys : declared.Schedule) → slice_index_or (keys_of keys) result []
        ≡ slice_index_or (ordered reversed (keys_of keys)) round [] }
{
    if reversed { 15 - round } else { round }
}

/// The next two rounds: each half in turn becomes the next right one.
#[inline(always)]
fn two_rounds(
    keys: &Schedule,
    reversed: bool,
    two: usize,
    left: &mut [u64x2; 32],
    right: &mut [u64x2; 32],
)
    requires two { two < 8 }
    requires left { AreVectors left.old }
    requires right { AreVectors right.old }
    ensures left { AreVectors left.new }
    ensures right { AreVectors right.new }
    ensures lanes { (e i : ℕ) → e < 2 → i < 64
        → rounds (drop (2 * (two + 1)) (ordered reversed (keys_of keys.now)))
        (lane e i left.new) (lane e i right.new)
        ≡ rounds (drop (2 * two) (ordered reversed (keys_of keys.now)))
        (lane e i left.old) (lane e i right.old) }
{
    next_half(left, right, &keys.groups, key_place(reversed, 2 * two));
    next_half(right, left, &keys.groups, key_place(reversed, 2 * two + 1));
}

/// The sixteen rounds. The halves come out in the order R, L.
#[inline(never)]
fn sixteen_rounds(keys: &Schedule, reversed: bool, left: &mut [u64x2; 32], right: &mut [u64x2; 32])
    requires left { AreVectors left.old }
    requires right { AreVectors right.old }
    ensures left { AreVectors left.new }
    ensures right { AreVectors right.new }
    ensures lanes { (e i : ℕ) → e < 2 → i < 64
        → rounds (ordered reversed (keys_of keys.now)) (lane e i left.old) (lane e i right.old)
        ≡ lane e i right.new ++ lane e i left.new }
{
    for two in 0..8 {
        two_rounds(keys, reversed, two, left, right);
    }
}

/// Deciphering by DES, at each lane.
#[inline(always)]
fn des_lanes(keys: &Schedule, words: &mut [u64x2; 64])
    requires { AreVectors words.old }
    ensures vectors { AreVectors words.new }
    ensures lanes { (e i : ℕ) → e < 2 → i < 64
        → reverse (lane e i words.new) ≡ decipher (keys_of keys.now) (reverse (lane e i words.old)) }
{
    let mut left = initial_left(words);
    let mut right = initial_right(words);
    sixteen_rounds(keys, true, &mut left, &mut right);
    *words = final_words(&right, &left);
}

/// The inverse of triple DES, at each lane. IP and its inverse stand once, since between the
/// ciphers they undo each other.
#[inline(always)]
fn triple_lanes(keys: &[Schedule; 3], words: &mut [u64x2; 64])
    requires { AreVectors words.old }
    ensures vectors { AreVectors words.new }
    ensures lanes { (e i : ℕ) → e < 2 → i < 64
        → reverse (lane e i words.new) ≡ ded_under keys.now (reverse (lane e i words.old)) }
{
    let mut left = initial_left(words);
    let mut right = initial_right(words);
    sixteen_rounds(&keys[2], true, &mut left, &mut right);
    sixteen_rounds(&keys[1], false, &mut right, &mut left);
    sixteen_rounds(&keys[0], true, &mut left, &mut right);
    *words = final_words(&right, &left);
}

/// Deciphering by a cipher, at each lane.
#[inline(always)]
fn decipher_lanes(cipher: Cipher, keys: &[Schedule; 3], words: &mut [u64x2; 64])
    requires { AreVectors words.old }
    ensures vectors { AreVectors words.new }
    ensures lanes { (e i : ℕ) → e < 2 → i < 64
        → reverse (lane e i words.new) ≡ undone cipher keys.now (reverse (lane e i words.old)) }
{
    match cipher {
        Cipher::Des => des_lanes(&keys[0], words),
        Cipher::TripleDes => triple_lanes(keys, words),
    }
}

/// 128 words of 64 bits deciphered.
pub(crate) fn decipher_words(cipher: Cipher, keys: &[Schedule; 3], words: &mut [u64x2; 64])
    requires { AreVectors words.old }
    ensures vectors { AreVectors words.new }
    ensures words { (k e : ℕ) → k < 64 → e < 2
        → bits 64 (word e k words.new) ≡ undone cipher keys.now (bits 64 (word e k words.old)) }
{
    transpose(words);
    decipher_lanes(cipher, keys, words);
    transpose(words);
}
