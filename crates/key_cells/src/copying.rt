//! Bytes copied to the front of others, and a guarded array to a place in bytes.
ghost use Rattle.std.specs.Prelude.{◌≡◌, ◌+◌, ◌≤◌, ◌++◌, length, take, drop};
ghost use Rattle.key_cells.specs.Secret.{bytes_of};

use crate::secrets::Secret;

/// Copies bytes to the front of others.
pub fn put_front(room: &mut [u8], bytes: &[u8])
    requires { length bytes.now ≤ length room.old }
    ensures { room.new ≡ bytes.now ++ drop (length bytes.now) room.old }
{
    room[..bytes.len()].copy_from_slice(bytes);
}

/// Copies a guarded array into bytes, from a place on.
pub fn put_secret<const N: usize>(into: &mut [u8], at: usize, secret: &Secret<'_, N>)
    requires { at + N ≤ length into.old }
    ensures size { length into.new ≡ length into.old }
    ensures put { into.new ≡ take at into.old ++ bytes_of secret.now ++ drop (at + N) into.old }
{
    for byte in 0..N {
        into[at + byte] = secret.byte(byte);
    }
}
