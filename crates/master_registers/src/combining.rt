//! The exclusive or (XOR) of bytes with a guarded array, in place.
ghost use Rattle.std.specs.Prelude.{◌≡◌, length};
ghost use Rattle.key_cells.specs.Secret.{bytes_of};
ghost use Rattle.key_cells.specs.Bytes.{AreBytes};
ghost use Rattle.key_cells.specs.Bytes as lists;

use key_cells::Secret;

/// XORs the bytes of a guarded array into as many others.
pub fn xor_secret<const N: usize>(into: &mut [u8], secret: &Secret<'_, N>)
    requires { length into.old ≡ N }
    ensures combined { into.new ≡ lists.xor into.old (bytes_of secret.now) }
    ensures bytes { AreBytes N into.new }
{
    for at in 0..N {
        into[at] ^= secret.byte(at);
    }
}
