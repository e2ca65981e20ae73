//! The bits of a control vector that say whether a key is a part.
ghost use Rattle.std.specs.Prelude.{◌≡◌, ◌≢◌, ◌<◌, ◌-◌, not, false, length, ℕ, List};
ghost use Rattle.key_cells.specs.Bytes.{is_zero as is_zero_bytes};
ghost use Rattle.cca_vectors.specs.Bits.{bit as bit_of};
ghost use Rattle.cca_vectors.specs.PartVectors.{as_part, part_half, with_bit_changed};
ghost use Rattle.cca_vectors.specs.Vectors.{IsValid, is_part_of, left_of, length_of, right_of};

use key_cells::is_zero;

/// The bit that says that a key is a part.
const KEY_PART: usize = 44;

/// The last bit of its byte, which keeps the byte's parity.
const PARITY: usize = 47;

/// Changes a bit of a half. Bit 0 is the most significant bit of byte 0.
fn change_bit(half: &mut [u8; 8], bit: usize)
    requires { bit < 64 }
    ensures { half.new ≡ with_bit_changed half.old bit }
{
    half[bit / 8] ^= 1 << (7 - bit % 8);
}

/// A half with bits 44 and 47 changed, where it isn't all zero.
pub(crate) fn part_half(half: &[u8; 8]) -> [u8; 8]
    ensures { result ≡ part_half half.now }
{
    let mut changed = *half;
    if !is_zero(half) {
        change_bit(&mut changed, KEY_PART);
        change_bit(&mut changed, PARITY);
    }
    changed
}

/// Of a valid vector the vector as a part is valid, and that of a key of the same length; made so twice it is as it was.
/// The one is that of a part where the other isn't, unless the vector is all zero, and they differ in no bit but 44 and 47
/// of each half.
pub fn a_part_and_its_key()
    ensures valid { (vector : List ℕ) → IsValid vector → IsValid (as_part vector) }
    ensures twice { (vector : List ℕ) → IsValid vector → as_part (as_part vector) ≡ vector }
    ensures length { (vector : List ℕ) → IsValid vector
        → length_of (as_part vector) ≡ length_of vector }
    ensures part { (vector : List ℕ) → IsValid vector → is_zero_bytes vector ≡ false
        → is_part_of (as_part vector) ≡ not (is_part_of vector) }
    ensures left { (vector : List ℕ) (n : ℕ) → IsValid vector → n < 64 → n ≢ 44 → n ≢ 47
        → bit_of (left_of (as_part vector)) n ≡ bit_of (left_of vector) n }
    ensures right { (vector : List ℕ) (n : ℕ) → IsValid vector → n < 64 → n ≢ 44 → n ≢ 47
        → bit_of (right_of (as_part vector)) n ≡ bit_of (right_of vector) n }
{}
