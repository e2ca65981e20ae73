//! The exclusive or (XOR) of bytes, in place.
ghost use Rattle.std.specs.Prelude.{◌≡◌, length};
ghost use Rattle.key_cells.specs.Bytes.{AreBytes};
ghost use Rattle.key_cells.specs.Bytes as lists;

/// XORs bytes into as many others.
pub fn xor(into: &mut [u8], other: &[u8])
    requires { length other.now ≡ length into.old }
    ensures combined { into.new ≡ lists.xor into.old other.now }
    ensures bytes { AreBytes (length into.old) into.new }
{
    for at in 0..into.len() {
        into[at] ^= other[at];
    }
}
