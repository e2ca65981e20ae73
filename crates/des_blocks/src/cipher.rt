//! The cipher function f and a round of FIPS 46-3, over halves that words hold as E spreads them.
//!
//! A round reads its round key with one load, and each S-box, with P and E, with one more.
ghost use Rattle.std.specs.Prelude.{List, ℕ, ◌≡◌, ◌+◌, ◌*◌, ◌<◌, [], drop, slice_index_or, take};
ghost use Rattle.std.specs.Int.{to_be_bytes, w64};
ghost use Rattle.des_blocks.specs.Bits.{xor};
ghost use Rattle.des_blocks.specs.BoxTables.{IsTableOf};
ghost use Rattle.des_blocks.specs.Des.{f, look_up, places};
ghost use Rattle.des_blocks.specs.Halves.{IsHalf, in_place, spread};
ghost use Rattle.des_blocks.specs.Schedules.{keys_of, ordered};
ghost use Rattle.des_blocks.specs.Tables.{boxes, expansion, permutation};

use crate::box_tables::{S1, S2, S3, S4, S5, S6, S7, S8};
use crate::words::word_at;
use key_cells::Schedule;

/// What P and E make of the four bits that S-box j, from 0, has for group j of a word. The whole
/// byte of the group is taken, which wants no mask: the table has an entry for each.
#[inline(always)]
fn entry(table: &[u64; 256], j: usize, groups: u64) -> u64
    requires place { j < 8 }
    requires table { IsTableOf j table.now }
    ensures { spread result
        ≡ places expansion (places permutation (in_place j
        (look_up (slice_index_or boxes j []) (take 6 (drop (6 * j) (spread groups)))))) }
{
    table[(groups >> (56 - 8 * j) & 255) as usize]
}

/// The cipher function f of a right half and a round key: of the groups of the half combined with
/// the key. The lowest group comes first: it is at hand before the others, so that their loads
/// overlap.
#[inline(always)]
fn cipher_function(groups: u64) -> u64
    ensures { (half key : List ℕ) → spread groups ≡ xor (places expansion half) key
        → IsHalf result (f half key) }
{
    entry(&S8, 7, groups)
        ^ entry(&S7, 6, groups)
        ^ entry(&S6, 5, groups)
        ^ entry(&S5, 4, groups)
        ^ entry(&S4, 3, groups)
        ^ entry(&S3, 2, groups)
        ^ entry(&S2, 1, groups)
        ^ entry(&S1, 0, groups)
}

/// The eight groups of the round key at a place, from 0.
#[inline(always)]
fn key_word(groups: &[u8; 128], at: usize) -> u64
    requires { at < 16 }
    ensures { to_be_bytes w64 result ≡ take 8 (drop (8 * at) groups.now) }
{
    word_at(groups, 8 * at)
}

/// The round key of a round, from 0, where the round keys go forward or in reverse.
#[inline(always)]
pub(crate) fn round_key(keys: &Schedule, reversed: bool, round: usize) -> u64
    requires { round < 16 }
    ensures { spread result ≡ slice_index_or (ordered reversed (keys_of keys.now)) round [] }
{
    let at = if reversed { 15 - round } else { round };
    key_word(&keys.groups, at)
}

/// A right half, and its groups combined with the round key of its round.
#[derive(Clone, Copy)]
pub(crate) struct Joined {
    pub(crate) half: u64,
    pub(crate) groups: u64,
}

/// The next right half, of the left one and of the groups of the right one, which are combined with
/// the round key of a round, from 0. The round keys go forward or in reverse. The next groups are
/// the left half combined with the next round key and then with f, so that no round waits for its
/// key.
#[inline(always)]
pub(crate) fn next_half(
    keys: &Schedule,
    reversed: bool,
    round: usize,
    left: u64,
    groups: u64,
) -> Joined
    requires { round < 16 }
    ensures half { (l r key : List ℕ) → IsHalf left l → spread groups ≡ xor (places expansion r) key
        → IsHalf result.half (xor l (f r key)) }
    ensures groups { round + 1 < 16 → spread result.groups ≡ xor (spread result.half)
        (slice_index_or (ordered reversed (keys_of keys.now)) (round + 1) []) }
{
    let key = round_key(keys, reversed, (round + 1) % 16);
    let out = cipher_function(groups);
    Joined {
        half: left ^ out,
        groups: left ^ key ^ out,
    }
}
