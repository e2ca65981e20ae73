//! Blocks of 8 bytes under the round keys that schedules hold.
ghost use Rattle.std.specs.Prelude.{◌≡◌, ℕ, List, length, reverse};
ghost use Rattle.des_blocks.specs.Bits.{bits, byte_bits, xor};
ghost use Rattle.des_blocks.specs.Des.{decipher, encipher, places};
ghost use Rattle.des_blocks.specs.Halves.{AreHalves, rounded};
ghost use Rattle.des_blocks.specs.Schedules.{AreOf, IsOf, ded_under, ede_under, keys_of, ordered};
ghost use Rattle.des_blocks.specs.Tables.{final_permutation, initial_permutation};
ghost use Rattle.des_blocks.specs.TripleDes.{deciphered, enciphered};
ghost use Rattle.des_blocks.specs.TripleDes as triple;

use crate::cipher::{next_half, round_key};
use crate::final_tables::{FINAL_LEFT, FINAL_RIGHT};
use crate::gathering::gathered;
use crate::initial_tables::{INITIAL_LEFT, INITIAL_RIGHT};
use key_cells::Schedule;

/// The two halves of a block between IP and its inverse, each as E spreads it.
#[derive(Clone, Copy)]
pub struct Halves {
    /// The left half.
    pub left: u64,
    /// The right one.
    pub right: u64,
}

/// The halves that IP makes of a block.
#[inline]
pub fn initial_halves(block: u64) -> Halves
    ensures { AreHalves result.left result.right (places initial_permutation (bits 64 block)) }
{
    Halves {
        left: gathered::<16, 4>(block, &INITIAL_LEFT),
        right: gathered::<16, 4>(block, &INITIAL_RIGHT),
    }
}

/// The block that the inverse of IP makes of two halves.
#[inline]
pub fn final_block(halves: Halves) -> u64
    ensures { (both : List ℕ) → AreHalves halves.left halves.right both
        → bits 64 result ≡ places final_permutation both }
{
    gathered::<16, 8>(halves.left, &FINAL_LEFT) ^ gathered::<16, 8>(halves.right, &FINAL_RIGHT)
}

/// The sixteen rounds from two halves. They come out in the order R, L.
#[inline(always)]
fn rounds(keys: &Schedule, reversed: bool, halves: Halves) -> Halves
    ensures { (both : List ℕ) → AreHalves halves.left halves.right both
        → AreHalves result.left result.right (rounded (ordered reversed (keys_of keys.now)) both) }
{
    let mut left = halves.left;
    let mut right = halves.right;
    let mut groups = right ^ round_key(keys, reversed, 0);
    for two in 0..8 {
        let one = next_half(keys, reversed, 2 * two, left, groups);
        let next = next_half(keys, reversed, 2 * two + 1, right, one.groups);
        left = one.half;
        right = next.half;
        groups = next.groups;
    }
    Halves {
        left: right,
        right: left,
    }
}

/// The rounds over the round keys forward.
fn forward(keys: &Schedule, halves: Halves) -> Halves
    ensures { (both : List ℕ) → AreHalves halves.left halves.right both
        → AreHalves result.left result.right (rounded (keys_of keys.now) both) }
{
    rounds(keys, false, halves)
}

/// The rounds over the round keys in reverse.
fn backward(keys: &Schedule, halves: Halves) -> Halves
    ensures { (both : List ℕ) → AreHalves halves.left halves.right both
        → AreHalves result.left result.right (rounded (reverse (keys_of keys.now)) both) }
{
    rounds(keys, true, halves)
}

/// The sixteen rounds of two blocks side by side, so that a processor overlaps them.
#[inline(always)]
fn rounds_of_two(
    keys: &Schedule,
    reversed: bool,
    halves: Halves,
    others: Halves,
) -> (Halves, Halves)
    ensures first { (both : List ℕ) → AreHalves halves.left halves.right both
        → AreHalves result.0.left result.0.right
        (rounded (ordered reversed (keys_of keys.now)) both) }
    ensures second { (both : List ℕ) → AreHalves others.left others.right both
        → AreHalves result.1.left result.1.right
        (rounded (ordered reversed (keys_of keys.now)) both) }
{
    let mut left = halves.left;
    let mut right = halves.right;
    let mut groups = right ^ round_key(keys, reversed, 0);
    let mut other_left = others.left;
    let mut other_right = others.right;
    let mut other_groups = other_right ^ round_key(keys, reversed, 0);
    for two in 0..8 {
        let one = next_half(keys, reversed, 2 * two, left, groups);
        let other_one = next_half(keys, reversed, 2 * two, other_left, other_groups);
        let next = next_half(keys, reversed, 2 * two + 1, right, one.groups);
        let other_next = next_half(keys, reversed, 2 * two + 1, other_right, other_one.groups);
        left = one.half;
        right = next.half;
        groups = next.groups;
        other_left = other_one.half;
        other_right = other_next.half;
        other_groups = other_next.groups;
    }
    (
        Halves {
            left: right,
            right: left,
        },
        Halves {
            left: other_right,
            right: other_left,
        },
    )
}

/// The rounds of two blocks over the round keys forward.
fn forward_two(keys: &Schedule, halves: Halves, others: Halves) -> (Halves, Halves)
    ensures first { (both : List ℕ) → AreHalves halves.left halves.right both
        → AreHalves result.0.left result.0.right (rounded (keys_of keys.now) both) }
    ensures second { (both : List ℕ) → AreHalves others.left others.right both
        → AreHalves result.1.left result.1.right (rounded (keys_of keys.now) both) }
{
    rounds_of_two(keys, false, halves, others)
}

/// The rounds of two blocks over the round keys in reverse.
fn backward_two(keys: &Schedule, halves: Halves, others: Halves) -> (Halves, Halves)
    ensures first { (both : List ℕ) → AreHalves halves.left halves.right both
        → AreHalves result.0.left result.0.right (rounded (reverse (keys_of keys.now)) both) }
    ensures second { (both : List ℕ) → AreHalves others.left others.right both
        → AreHalves result.1.left result.1.right (rounded (reverse (keys_of keys.now)) both) }
{
    rounds_of_two(keys, true, halves, others)
}

/// The halves that IP makes of a block, by a call that isn't inlined: a compiler that joined its XORs
/// with those of the caller could let all of them wait for the block before.
#[inline(never)]
fn initial_apart(block: u64) -> Halves
    ensures { AreHalves result.left result.right (places initial_permutation (bits 64 block)) }
{
    initial_halves(block)
}

/// The halves that IP makes of a block, joined by XOR with those of another one.
#[inline]
pub(crate) fn joined(chain: Halves, block: u64) -> Halves
    ensures { (before : List ℕ) → length before ≡ 64
        → AreHalves chain.left chain.right (places initial_permutation before)
        → AreHalves result.left result.right
        (places initial_permutation (xor (bits 64 block) before)) }
{
    let own = initial_apart(block);
    Halves {
        left: own.left ^ chain.left,
        right: own.right ^ chain.right,
    }
}

/// The halves of a block enciphered in a chain by DES, from those of the block before it. Between the two the
/// inverse of IP and IP undo each other.
#[inline]
pub fn encipher_next(keys: &Schedule, chain: Halves, block: u64) -> Halves
    ensures { (before : List ℕ) → length before ≡ 64
        → AreHalves chain.left chain.right (places initial_permutation before)
        → AreHalves result.left result.right (places initial_permutation
        (encipher (keys_of keys.now) (xor (bits 64 block) before))) }
{
    forward(keys, joined(chain, block))
}

/// A word of 64 bits enciphered by DES.
#[inline]
fn encipher_word(keys: &Schedule, block: u64) -> u64
    ensures { bits 64 result ≡ encipher (keys_of keys.now) (bits 64 block) }
{
    final_block(forward(keys, initial_halves(block)))
}

/// A word of 64 bits deciphered by DES.
#[inline]
pub fn decipher_word(keys: &Schedule, block: u64) -> u64
    ensures { bits 64 result ≡ decipher (keys_of keys.now) (bits 64 block) }
{
    final_block(backward(keys, initial_halves(block)))
}

/// Two words of 64 bits deciphered by DES.
#[inline]
pub fn decipher_two(keys: &Schedule, block: u64, other: u64) -> (u64, u64)
    ensures first { bits 64 result.0 ≡ decipher (keys_of keys.now) (bits 64 block) }
    ensures second { bits 64 result.1 ≡ decipher (keys_of keys.now) (bits 64 other) }
{
    let (one, other_one) = backward_two(keys, initial_halves(block), initial_halves(other));
    (final_block(one), final_block(other_one))
}

/// A block enciphered by DES (FIPS 46-3), under the sixteen round keys that the schedule holds.
pub fn encipher_block(keys: &Schedule, block: &[u8; 8]) -> [u8; 8]
    ensures bits { byte_bits result ≡ encipher (keys_of keys.now) (byte_bits block.now) }
    ensures bytes { (key : List ℕ) → IsOf keys.now key → result ≡ enciphered key block.now }
{
    encipher_word(keys, u64::from_be_bytes(*block)).to_be_bytes()
}

/// A block deciphered by DES (FIPS 46-3), under the sixteen round keys that the schedule holds, in reverse.
pub fn decipher_block(keys: &Schedule, block: &[u8; 8]) -> [u8; 8]
    ensures bits { byte_bits result ≡ decipher (keys_of keys.now) (byte_bits block.now) }
    ensures bytes { (key : List ℕ) → IsOf keys.now key → result ≡ deciphered key block.now }
{
    decipher_word(keys, u64::from_be_bytes(*block)).to_be_bytes()
}

/// A word of 64 bits through triple DES. IP and its inverse stand once, since between the ciphers they undo
/// each other.
#[inline]
pub fn ede_word(keys: &[Schedule; 3], block: u64) -> u64
    ensures { bits 64 result ≡ ede_under keys.now (bits 64 block) }
{
    let one = forward(&keys[0], initial_halves(block));
    let two = backward(&keys[1], one);
    final_block(forward(&keys[2], two))
}

/// A word of 64 bits through the inverse of triple DES.
#[inline]
pub fn ded_word(keys: &[Schedule; 3], block: u64) -> u64
    ensures { bits 64 result ≡ ded_under keys.now (bits 64 block) }
{
    let one = backward(&keys[2], initial_halves(block));
    let two = forward(&keys[1], one);
    final_block(backward(&keys[0], two))
}

/// Two words of 64 bits through the inverse of triple DES.
#[inline]
pub fn ded_two(keys: &[Schedule; 3], block: u64, other: u64) -> (u64, u64)
    ensures first { bits 64 result.0 ≡ ded_under keys.now (bits 64 block) }
    ensures second { bits 64 result.1 ≡ ded_under keys.now (bits 64 other) }
{
    let (one, other_one) = backward_two(&keys[2], initial_halves(block), initial_halves(other));
    let (two, other_two) = forward_two(&keys[1], one, other_one);
    let (three, other_three) = backward_two(&keys[0], two, other_two);
    (final_block(three), final_block(other_three))
}

/// A block by triple DES (FIPS 46-3): enciphered under the first schedule, deciphered under the second,
/// enciphered under the third.
pub fn ede(keys: &[Schedule; 3], block: &[u8; 8]) -> [u8; 8]
    ensures bits { byte_bits result ≡ ede_under keys.now (byte_bits block.now) }
    ensures bytes { (a b c : List ℕ) → AreOf keys.now a b c → result ≡ triple.ede a b c block.now }
{
    ede_word(keys, u64::from_be_bytes(*block)).to_be_bytes()
}

/// The inverse of [`ede`]: a block deciphered under the third schedule, enciphered under the second,
/// deciphered under the first.
pub fn ded(keys: &[Schedule; 3], block: &[u8; 8]) -> [u8; 8]
    ensures bits { byte_bits result ≡ ded_under keys.now (byte_bits block.now) }
    ensures bytes { (a b c : List ℕ) → AreOf keys.now a b c → result ≡ triple.ded a b c block.now }
{
    ded_word(keys, u64::from_be_bytes(*block)).to_be_bytes()
}
