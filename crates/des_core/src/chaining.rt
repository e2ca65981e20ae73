//! Cipher block chaining (FIPS 81) by DES and by triple DES, in place.
ghost use Rattle.std.specs.Prelude.{List, ℕ, ◌≡◌, ◌+◌, ◌%◌, ◌≤◌, drop, take};
ghost use Rattle.std.specs.Int.{to_be_bytes, w64};
ghost use Rattle.key_cells.specs.Lease.{bench_of};
ghost use Rattle.des_blocks.specs.Bits.{AreBytes, byte_bits, xor};
ghost use Rattle.des_blocks.specs.Des.{places};
ghost use Rattle.des_blocks.specs.Halves.{AreHalves};
ghost use Rattle.des_blocks.specs.Schedules.{AreOf, IsOf, ded_bytes, ede_bytes};
ghost use Rattle.des_blocks.specs.Schedules.{deciphered_under, enciphered_under, schedule_at};
ghost use Rattle.des_blocks.specs.Tables.{initial_permutation};
ghost use Rattle.des_blocks.specs.Texts.{cbc_text, put_at, schedules_in, text_in};
ghost use Rattle.des_blocks.specs.Texts.{uncbc_from, uncbc_text, with_text_in};
ghost use Rattle.des_blocks.specs.TripleDes.{deciphered, enciphered};
ghost use Rattle.des_blocks.specs.TripleDes as triple;
ghost use Rattle.des_core.specs.Chains.{Chained};
ghost use Rattle.des_core.specs.Ciphers.{undone_bytes};

use crate::ciphers::{Cipher, decipher_word, decipher_words};
use crate::lanes::{decipher_end, decipher_part};
use crate::words::put_word;
use des_blocks::{Halves, ede_word, encipher_next, final_block, initial_halves, word_at};
use key_cells::Lease;

/// Enciphers the block at a place of the text, combined with the one before it, and answers it.
#[inline]
fn encipher_one(lease: &mut Lease, at: usize, chain: u64) -> u64
    requires { at + 8 ≤ (bench_of lease.now).text.size }
    ensures block { to_be_bytes w64 result ≡ ede_bytes (schedules_in lease.old)
        (xor (take 8 (drop at (text_in lease.old))) (to_be_bytes w64 chain)) }
    ensures lease { lease.new ≡ with_text_in lease.old
        (put_at (text_in lease.old) at (to_be_bytes w64 result)) }
{
    let word = ede_word(lease.schedules(), word_at(lease.text(), at) ^ chain);
    put_word(lease.text_mut(), at, word);
    word
}

/// Enciphers the text in a chain from an initial value, in place, by triple DES under the three schedules.
/// Under three equal schedules that is DES. All other places and the text's length stay.
pub fn cbc_encipher(lease: &mut Lease, start: &[u8; 8])
    requires { (bench_of lease.now).text.size % 8 ≡ 0 }
    ensures text { text_in lease.new
        ≡ cbc_text (ede_bytes (schedules_in lease.old)) start.now (text_in lease.old) }
    ensures keys { (a b c : List ℕ) → AreOf (schedules_in lease.old) a b c
        → text_in lease.new ≡ cbc_text (triple.ede a b c) start.now (text_in lease.old) }
    ensures stays { lease.new ≡ with_text_in lease.old (text_in lease.new) }
{
    let count = lease.text().len() / 8;
    let mut chain = u64::from_be_bytes(*start);
    for i in 0..count {
        chain = encipher_one(lease, 8 * i, chain);
    }
}

/// Enciphers the block at a place of the text by DES under the first schedule, joined by XOR with the one before it,
/// of which the halves between IP and its inverse are given, and answers its own halves.
#[inline]
fn encipher_halves(lease: &mut Lease, at: usize, chain: Halves) -> Halves
    requires { at + 8 ≤ (bench_of lease.now).text.size }
    ensures { (before : List ℕ) → AreBytes 8 before
        → AreHalves chain.left chain.right (places initial_permutation (byte_bits before))
        → Chained lease.old lease.new at before result.left result.right }
{
    let next = encipher_next(&lease.schedules()[0], chain, word_at(lease.text(), at));
    put_word(lease.text_mut(), at, final_block(next));
    next
}

/// Enciphers the text in a chain from an initial value, in place, by DES under the first schedule. All other places
/// and the text's length stay.
pub fn cbc_encipher_single(lease: &mut Lease, start: &[u8; 8])
    requires { (bench_of lease.now).text.size % 8 ≡ 0 }
    ensures text { text_in lease.new
        ≡ cbc_text (enciphered_under (schedule_at (schedules_in lease.old) 0)) start.now (text_in lease.old) }
    ensures key { (key : List ℕ) → IsOf (schedule_at (schedules_in lease.old) 0) key
        → text_in lease.new ≡ cbc_text (enciphered key) start.now (text_in lease.old) }
    ensures stays { lease.new ≡ with_text_in lease.old (text_in lease.new) }
{
    let count = lease.text().len() / 8;
    let mut chain = initial_halves(u64::from_be_bytes(*start));
    for i in 0..count {
        chain = encipher_halves(lease, 8 * i, chain);
    }
}

/// Deciphers the block at a place of the text, combined with the one before it, and answers it as it was.
#[inline]
fn decipher_one(lease: &mut Lease, at: usize, chain: u64, cipher: Cipher) -> u64
    requires { at + 8 ≤ (bench_of lease.now).text.size }
    ensures block { to_be_bytes w64 result ≡ take 8 (drop at (text_in lease.old)) }
    ensures lease { lease.new ≡ with_text_in lease.old (put_at (text_in lease.old) at
        (xor (undone_bytes cipher (schedules_in lease.old) (take 8 (drop at (text_in lease.old))))
        (to_be_bytes w64 chain))) }
{
    let sealed = word_at(lease.text(), at);
    let word = decipher_word(cipher, lease.schedules(), sealed) ^ chain;
    put_word(lease.text_mut(), at, word);
    sealed
}

/// Deciphers two blocks from a place of the text on, side by side, and answers the second as it was.
#[inline]
fn decipher_two(lease: &mut Lease, at: usize, chain: u64, cipher: Cipher) -> u64
    requires { at + 16 ≤ (bench_of lease.now).text.size }
    ensures block { to_be_bytes w64 result ≡ take 8 (drop (at + 8) (text_in lease.old)) }
    ensures lease { lease.new ≡ with_text_in lease.old (put_at
        (put_at (text_in lease.old) at
        (xor (undone_bytes cipher (schedules_in lease.old) (take 8 (drop at (text_in lease.old))))
        (to_be_bytes w64 chain)))
        (at + 8)
        (xor (undone_bytes cipher (schedules_in lease.old) (take 8 (drop (at + 8) (text_in lease.old))))
        (take 8 (drop at (text_in lease.old))))) }
{
    let first = word_at(lease.text(), at);
    let second = word_at(lease.text(), at + 8);
    let (one, two) = decipher_words(cipher, lease.schedules(), first, second);
    put_word(lease.text_mut(), at, one ^ chain);
    put_word(lease.text_mut(), at + 8, two ^ first);
    second
}

/// Deciphers the text from a place on, in a chain from a block, in place, two blocks side by side.
fn decipher_pairs(lease: &mut Lease, at: usize, start: u64, cipher: Cipher)
    requires place { at ≤ (bench_of lease.now).text.size }
    requires pairs { at % 16 ≡ 0 }
    requires whole { (bench_of lease.now).text.size % 8 ≡ 0 }
    ensures text { text_in lease.new ≡ uncbc_from (undone_bytes cipher (schedules_in lease.old))
        (to_be_bytes w64 start) at (text_in lease.old) }
    ensures stays { lease.new ≡ with_text_in lease.old (text_in lease.new) }
{
    let count = lease.text().len() / 8;
    let mut chain = start;
    for i in at / 16..count / 2 {
        chain = decipher_two(lease, 16 * i, chain, cipher);
    }
    if count % 2 == 1 {
        decipher_one(lease, 8 * (count - 1), chain, cipher);
    }
}

/// The fewest bytes, 37 blocks, that are deciphered faster by the lanes than pair by pair.
const FEWEST: usize = 296;

/// Deciphers the text in a chain from an initial value, in place. All other places and the text's length stay.
fn decipher_text(lease: &mut Lease, start: &[u8; 8], cipher: Cipher)
    requires { (bench_of lease.now).text.size % 8 ≡ 0 }
    ensures text { text_in lease.new
        ≡ uncbc_text (undone_bytes cipher (schedules_in lease.old)) start.now (text_in lease.old) }
    ensures stays { lease.new ≡ with_text_in lease.old (text_in lease.new) }
{
    let size = lease.text().len();
    let parts = size / 1024;
    let mut chain = u64::from_be_bytes(*start);
    for part in 0..parts {
        chain = decipher_part(lease, 1024 * part, chain, cipher);
    }
    if size % 1024 < FEWEST {
        decipher_pairs(lease, 1024 * parts, chain, cipher);
    } else {
        decipher_end(lease, 1024 * parts, chain, cipher);
    }
}

/// Deciphers the text in a chain from an initial value, in place, by triple DES under the three schedules:
/// the inverse of [`cbc_encipher`]. All other places and the text's length stay.
pub fn cbc_decipher(lease: &mut Lease, start: &[u8; 8])
    requires { (bench_of lease.now).text.size % 8 ≡ 0 }
    ensures text { text_in lease.new
        ≡ uncbc_text (ded_bytes (schedules_in lease.old)) start.now (text_in lease.old) }
    ensures keys { (a b c : List ℕ) → AreOf (schedules_in lease.old) a b c
        → text_in lease.new ≡ uncbc_text (triple.ded a b c) start.now (text_in lease.old) }
    ensures stays { lease.new ≡ with_text_in lease.old (text_in lease.new) }
{
    decipher_text(lease, start, Cipher::TripleDes);
}

/// Deciphers the text in a chain from an initial value, in place, by DES under the first schedule: the inverse of
/// [`cbc_encipher_single`]. All other places and the text's length stay.
pub fn cbc_decipher_single(lease: &mut Lease, start: &[u8; 8])
    requires { (bench_of lease.now).text.size % 8 ≡ 0 }
    ensures text { text_in lease.new
        ≡ uncbc_text (deciphered_under (schedule_at (schedules_in lease.old) 0)) start.now (text_in lease.old) }
    ensures key { (key : List ℕ) → IsOf (schedule_at (schedules_in lease.old) 0) key
        → text_in lease.new ≡ uncbc_text (deciphered key) start.now (text_in lease.old) }
    ensures stays { lease.new ≡ with_text_in lease.old (text_in lease.new) }
{
    decipher_text(lease, start, Cipher::Des);
}
