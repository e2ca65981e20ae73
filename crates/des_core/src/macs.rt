//! The message authentication codes of FIPS 113 and ANSI X9.9, and of ANSI X9.19, over a text of any length
//! that is filled with zero bytes to whole blocks.
ghost use Rattle.std.specs.Prelude.{List, ℕ, ◌≡◌, ◌+◌, ◌*◌, ◌<◌, ◌≤◌, ◌++◌, drop, length, take};
ghost use Rattle.std.specs.Int.{to_be_bytes, w64};
ghost use Rattle.des_blocks.specs.Modes.{cbc_mac, mac_x919, mac_x99};
ghost use Rattle.des_blocks.specs.Schedules.{IsOf, deciphered_under, enciphered_under};
ghost use Rattle.des_blocks.specs.Texts.{fill_block};

use des_blocks::{
    decipher_block, encipher_block, encipher_next, final_block, initial_halves, word_at,
};
use key_cells::{Schedule, put_front};

/// The bytes of the last block of a text, fewer than eight, and zeros, as a word.
fn filled_word(bytes: &[u8]) -> u64
    requires { length bytes.now < 8 }
    ensures { to_be_bytes w64 result ≡ fill_block bytes.now }
{
    let mut block = [0; 8];
    put_front(&mut block, bytes);
    u64::from_be_bytes(block)
}

/// The block at a place of the text that is filled with zeros, as a word.
#[inline]
fn filled_word_at(text: &[u8], at: usize) -> u64
    requires { at < length text.now }
    ensures { to_be_bytes w64 result ≡ fill_block (take 8 (drop at text.now)) }
{
    if text.len() - at >= 8 {
        word_at(text, at)
    } else {
        filled_word(&text[at..])
    }
}

/// The last block of the chain from a zero start over the filled text, by DES under the schedule: the code
/// X9.9-1 (FIPS 113, ANSI X9.9).
pub fn cbc_mac(keys: &Schedule, text: &[u8]) -> [u8; 8]
    requires { 0 < length text.now }
    ensures schedule { result ≡ cbc_mac (enciphered_under keys.now) text.now }
    ensures key { (key : List ℕ) → IsOf keys.now key → result ≡ mac_x99 key text.now }
{
    let mut chain = initial_halves(0);
    for i in 0..text.len().div_ceil(8) {
        chain = encipher_next(keys, chain, filled_word_at(text, 8 * i));
    }
    final_block(chain).to_be_bytes()
}

/// The code X9.19OPT (ANSI X9.19): X9.9-1 under the left schedule, deciphered under the right one and
/// enciphered under the left one.
pub fn x919_mac(left: &Schedule, right: &Schedule, text: &[u8]) -> [u8; 8]
    requires { 0 < length text.now }
    ensures schedules { result ≡ enciphered_under left.now
        (deciphered_under right.now (cbc_mac (enciphered_under left.now) text.now)) }
    ensures key { (key : List ℕ) → IsOf left.now (take 8 key) → IsOf right.now (drop 8 key)
        → result ≡ mac_x919 key text.now }
{
    encipher_block(left, &decipher_block(right, &cbc_mac(left, text)))
}
