//! The sixteen round keys of a key.
ghost use Rattle.std.specs.Prelude.{List, ℕ, ◌≡◌, ◌*◌, ◌<◌, length};
ghost use Rattle.std.specs.Int.{to_le_bytes, w64};
ghost use Rattle.key_cells.specs.Secret.{bytes_of};
ghost use Rattle.des_blocks.specs.Bits.{bits, byte_bits, xor};
ghost use Rattle.des_blocks.specs.Des.{round_keys};
ghost use Rattle.des_blocks.specs.Schedules.{AreKeysOf, IsOf, each_xor, keys_of};
ghost use Rattle.des_blocks.specs.Texts.{put_at};

use crate::gathering::gathered_each;
use crate::key_tables::PIECES;
use key_cells::{Schedule, Secret, xor};

/// The eight bytes of a key as a word.
#[inline]
fn key_word(key: &Secret<'_, 8>) -> u64
    ensures { bits 64 result ≡ byte_bits (bytes_of key.now) }
{
    let mut word: u64 = 0;
    for at in 0..8 {
        word = word << 8 | key.byte(at) as u64;
    }
    word
}

/// The sixteen round keys of a key of 64 bits, in a word each.
#[inline]
fn key_words(key: u64) -> [u64; 16]
    ensures { AreKeysOf result (bits 64 key) }
{
    gathered_each(key, &PIECES)
}

/// Puts the round key of a round, from 0.
#[inline]
fn put_key(groups: &mut [u8; 128], round: usize, word: u64)
    requires { round < 16 }
    ensures { groups.new ≡ put_at groups.old (8 * round) (to_le_bytes w64 word) }
{
    groups[8 * round..8 * round + 8].copy_from_slice(&word.to_le_bytes());
}

/// Puts the sixteen round keys that stand in words.
#[inline]
fn put_keys(out: &mut Schedule, words: &[u64; 16])
    ensures { (key : List ℕ) → AreKeysOf words.now key → keys_of out.new ≡ round_keys key }
{
    for round in 0..16 {
        put_key(&mut out.groups, round, words[round]);
    }
}

/// Puts the sixteen round keys of a key (FIPS 46-3). The low-order bit of each key byte isn't used.
pub fn schedule(key: &Secret<'_, 8>, out: &mut Schedule)
    ensures { IsOf out.new (bytes_of key.now) }
{
    put_keys(out, &key_words(key_word(key)));
}

/// XORs the round keys of a schedule with those of another one. Of two keys it makes the schedule of their XOR.
pub fn xor_schedule(into: &mut Schedule, other: &Schedule)
    ensures keys { keys_of into.new ≡ each_xor (keys_of into.old) (keys_of other.now) }
    ensures key { (a b : List ℕ) → length a ≡ length b
        → IsOf into.old a → IsOf other.now b → IsOf into.new (xor a b) }
{
    xor(&mut into.groups, &other.groups);
}
