//! The parity of key bytes, by the low-order bit of each byte (FIPS 46-3).
ghost use Rattle.std.specs.Prelude.{◌≡◌, ◌%◌, ◌/◌, count_ones, map};
ghost use Rattle.cca_vectors.specs.Bits.{even_byte};
ghost use Rattle.verb_rules.specs.Parity.{odd_byte, IsOdd};

/// The byte with its low-order bit chosen so that its number of ones is odd.
fn odd(byte: u8) -> u8
    ensures value { result ≡ odd_byte byte }
    ensures odd { IsOdd result }
    ensures others { result / 2 ≡ byte / 2 }
{
    let seven = byte / 2;
    seven * 2 + ((seven.count_ones() + 1) % 2) as u8
}

/// The byte with its low-order bit chosen so that its number of ones is even.
fn even(byte: u8) -> u8
    ensures value { result ≡ even_byte byte }
    ensures even { count_ones result % 2 ≡ 0 }
    ensures others { result / 2 ≡ byte / 2 }
{
    let seven = byte / 2;
    seven * 2 + (seven.count_ones() % 2) as u8
}

/// Gives each byte odd parity.
pub fn set_odd_parity(bytes: &mut [u8])
    ensures { bytes.new ≡ map odd_byte bytes.old }
{
    for byte in bytes.iter_mut() {
        *byte = odd(*byte);
    }
}

/// Gives each byte even parity.
pub fn set_even_parity(bytes: &mut [u8])
    ensures { bytes.new ≡ map even_byte bytes.old }
{
    for byte in bytes.iter_mut() {
        *byte = even(*byte);
    }
}
