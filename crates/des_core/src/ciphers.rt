//! The ciphers by which blocks of a chain are deciphered.
ghost use Rattle.std.specs.Prelude.{◌≡◌};
ghost use Rattle.des_blocks.specs.Bits.{bits};
ghost use Rattle.des_core.specs.Ciphers.{undone};

use des_blocks::{ded_two, ded_word};
use key_cells::Schedule;

/// A cipher under three schedules.
#[derive(Clone, Copy)]
pub(crate) enum Cipher {
    /// DES under the first schedule alone.
    Des,
    /// Triple DES under all three.
    TripleDes,
}

/// A word of 64 bits deciphered.
#[inline]
pub(crate) fn decipher_word(cipher: Cipher, keys: &[Schedule; 3], block: u64) -> u64
    ensures { bits 64 result ≡ undone cipher keys.now (bits 64 block) }
{
    match cipher {
        Cipher::Des => des_blocks::decipher_word(&keys[0], block),
        Cipher::TripleDes => ded_word(keys, block),
    }
}

/// Two words of 64 bits deciphered side by side.
#[inline]
pub(crate) fn decipher_words(
    cipher: Cipher,
    keys: &[Schedule; 3],
    block: u64,
    other: u64,
) -> (u64, u64)
    ensures first { bits 64 result.0 ≡ undone cipher keys.now (bits 64 block) }
    ensures second { bits 64 result.1 ≡ undone cipher keys.now (bits 64 other) }
{
    match cipher {
        Cipher::Des => des_blocks::decipher_two(&keys[0], block, other),
        Cipher::TripleDes => ded_two(keys, block, other),
    }
}
