ghost use Rattle.std.specs.Prelude.{◌≡◌, ◌+◌, ◌≤◌};
ghost use Rattle.key_tokens.specs.Tvv.{word_at, tvv_of};

use byteorder::{BigEndian, ByteOrder};

/// The word of four bytes from a place on, most significant byte first.
#[tactic(auto, using(crate::proofs::BigEndianWords::word_is))]
pub(crate) fn word_at(bytes: &[u8; 64], place: usize) -> u32
    requires { place + 4 ≤ 64 }
    ensures { result ≡ word_at bytes.now place }
{
    BigEndian::read_u32(&bytes[place..place + 4])
}

/// The token validation value of bytes 0 to 59: the sum of their fifteen big-endian words modulo 2^32.
pub fn tvv(bytes: &[u8; 64]) -> u32
    ensures { result ≡ tvv_of bytes.now }
{
    let mut total: u32 = 0;
    for i in 0..15 {
        total = total.wrapping_add(word_at(bytes, 4 * i));
    }
    total
}
