//! The transposition of 64 words of 64 bits, in each half of vectors.
ghost use Rattle.std.specs.Prelude.{◌≡◌, ◌<◌, ℕ, [], slice_index_or};
ghost use Rattle.des_core.specs.Lanes.{AreVectors, bit_of};
ghost use Rattle.des_core.specs.Stages.{IsStage, first_row, second_row, with_bit};

use std::simd::prelude::*;

/// Two rows exchange bits: those of the first above its masked columns, and those of the second in
/// them.
#[inline(always)]
fn exchanged(a: u64x2, b: u64x2, apart: usize, mask: u64) -> (u64x2, u64x2)
    requires { apart < 64 }
    ensures first { result.0 ≡ first_row apart mask a b }
    ensures second { result.1 ≡ second_row apart mask a b }
{
    let places = u64x2::splat(apart as u64);
    let turning = ((a >> places) ^ b) & u64x2::splat(mask);
    (a ^ (turning << places), b ^ turning)
}

/// A stage of the transposition: at one power of two, rows and columns exchange that bit of their
/// numbers.
#[inline(always)]
fn stage(words: &mut [u64x2; 64], apart: usize, mask: u64)
    requires stage { IsStage apart mask }
    requires vectors { AreVectors words.old }
    ensures vectors { AreVectors words.new }
    ensures bits { (e r c : ℕ) → e < 2 → r < 64 → c < 64
        → bit_of e c (slice_index_or words.new r [])
        ≡ bit_of e (with_bit apart c r) (slice_index_or words.old (with_bit apart r c) []) }
{
    for pair in 0..32 {
        let at = 2 * apart * (pair / apart) + pair % apart;
        let (first, second) = exchanged(words[at], words[at + apart], apart, mask);
        words[at] = first;
        words[at + apart] = second;
    }
}

/// Exchanges bit c of row r with bit r of row c, for all rows and columns.
#[inline(never)]
pub(crate) fn transpose(words: &mut [u64x2; 64])
    requires { AreVectors words.old }
    ensures vectors { AreVectors words.new }
    ensures bits { (e r c : ℕ) → e < 2 → r < 64 → c < 64
        → bit_of e c (slice_index_or words.new r []) ≡ bit_of e r (slice_index_or words.old c []) }
{
    stage(words, 32, 0x0000_0000_ffff_ffff);
    stage(words, 16, 0x0000_ffff_0000_ffff);
    stage(words, 8, 0x00ff_00ff_00ff_00ff);
    stage(words, 4, 0x0f0f_0f0f_0f0f_0f0f);
    stage(words, 2, 0x3333_3333_3333_3333);
    stage(words, 1, 0x5555_5555_5555_5555);
}
