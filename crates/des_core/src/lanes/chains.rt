//! Cipher block chaining (FIPS 81): 128 blocks of a text deciphered in place, side by side.
ghost use Rattle.std.specs.Prelude.{List, ℕ, ◌≡◌, ◌+◌, ◌-◌, ◌%◌, ◌≤◌, ◌++◌};
ghost use Rattle.std.specs.Prelude.{drop, length, replicate, slice_index, take};
ghost use Rattle.std.specs.Int.{to_be_bytes, w64};
ghost use Rattle.key_cells.specs.Lease.{bench_of};
ghost use Rattle.des_blocks.specs.Bits.{xor};
ghost use Rattle.des_blocks.specs.Texts.{put_at, schedules_in, text_in};
ghost use Rattle.des_blocks.specs.Texts.{uncbc_from, uncbc_text, with_text_in};
ghost use Rattle.des_core.specs.Chains.{Hold, part_at, with_part};
ghost use Rattle.des_core.specs.Ciphers.{undone_bytes};
ghost use Rattle.des_core.specs.Lanes.{AreVectors};

use super::ciphers::decipher_words;
use crate::ciphers::Cipher;
use crate::words::put_word;
use des_blocks::word_at;
use key_cells::{Lease, put_front};
use std::simd::prelude::*;

/// The 128 blocks of 1,024 bytes, as words.
fn words_of(part: &[u8]) -> [u64x2; 64]
    requires { length part.now ≡ 1024 }
    ensures vectors { AreVectors result }
    ensures words { Hold (λ block. block) result part.now }
{
    let mut words = [u64x2::splat(0); 64];
    for pair in 0..64 {
        let first = word_at(part, 16 * pair);
        let second = word_at(part, 16 * pair + 8);
        words[pair] = u64x2::from_array([first, second]);
    }
    words
}

/// Puts two deciphered blocks in place of the enciphered ones, each combined with the enciphered
/// block before it, and answers the second as it was.
#[inline]
fn put_pair(part: &mut [u8], at: usize, pair: u64x2, chain: u64) -> u64
    requires { at + 16 ≤ length part.now }
    ensures block { to_be_bytes w64 result ≡ take 8 (drop (at + 8) part.old) }
    ensures bytes { part.new ≡ put_at
        (put_at part.old at (xor (to_be_bytes w64 (slice_index pair 0)) (to_be_bytes w64 chain)))
        (at + 8)
        (xor (to_be_bytes w64 (slice_index pair 1)) (take 8 (drop at part.old))) }
{
    let first = word_at(part, at);
    let second = word_at(part, at + 8);
    let words = pair.to_array();
    put_word(part, at, words[0] ^ chain);
    put_word(part, at + 8, words[1] ^ first);
    second
}

/// Puts 128 deciphered blocks in place of the enciphered ones, in a chain, and answers the last one
/// as it was.
fn put_chained(part: &mut [u8], words: &[u64x2; 64], start: u64) -> u64
    requires size { length part.now ≡ 1024 }
    requires vectors { AreVectors words.now }
    ensures block { to_be_bytes w64 result ≡ take 8 (drop 1016 part.old) }
    ensures bytes { (d : List ℕ → List ℕ) → Hold d words.now part.old
        → part.new ≡ uncbc_text d (to_be_bytes w64 start) part.old }
{
    let mut chain = start;
    for pair in 0..64 {
        chain = put_pair(part, 16 * pair, words[pair], chain);
    }
    chain
}

/// Deciphers 128 blocks of the text from a place on, in a chain from a block, in place, and answers
/// the last one as it was: the chain goes on from it. All other places and the text's length stay.
pub(crate) fn decipher_part(lease: &mut Lease, at: usize, chain: u64, cipher: Cipher) -> u64
    requires { at + 1024 ≤ (bench_of lease.now).text.size }
    ensures block { to_be_bytes w64 result ≡ take 8 (drop (at + 1016) (text_in lease.old)) }
    ensures text { text_in lease.new ≡ with_part (text_in lease.old) at
        (uncbc_text (undone_bytes cipher (schedules_in lease.old)) (to_be_bytes w64 chain)
        (part_at (text_in lease.old) at)) }
    ensures stays { lease.new ≡ with_text_in lease.old (text_in lease.new) }
{
    let mut words = words_of(&lease.text()[at..at + 1024]);
    decipher_words(cipher, lease.schedules(), &mut words);
    let text = lease.text_mut();
    put_chained(&mut text[at..at + 1024], &words, chain)
}

/// The last blocks of a text, 128 at most, filled to 128 with zeros.
fn filled(end: &[u8]) -> [u8; 1024]
    requires { length end.now ≤ 1024 }
    ensures { result ≡ end.now ++ replicate (1024 - length end.now) 0 }
{
    let mut part = [0; 1024];
    put_front(&mut part, end);
    part
}

/// Deciphers the last blocks of the text, 128 at most, from a place on, in a chain from a block, in
/// place. All other places and the text's length stay.
pub(crate) fn decipher_end(lease: &mut Lease, at: usize, chain: u64, cipher: Cipher)
    requires place { at ≤ (bench_of lease.now).text.size }
    requires most { (bench_of lease.now).text.size ≤ at + 1024 }
    requires whole { ((bench_of lease.now).text.size - at) % 8 ≡ 0 }
    ensures text { text_in lease.new ≡ uncbc_from (undone_bytes cipher (schedules_in lease.old))
        (to_be_bytes w64 chain) at (text_in lease.old) }
    ensures stays { lease.new ≡ with_text_in lease.old (text_in lease.new) }
{
    let mut part = filled(&lease.text()[at..]);
    let mut words = words_of(&part);
    decipher_words(cipher, lease.schedules(), &mut words);
    put_chained(&mut part, &words, chain);
    let text = lease.text_mut();
    let size = text.len() - at;
    text[at..].copy_from_slice(&part[..size]);
}
