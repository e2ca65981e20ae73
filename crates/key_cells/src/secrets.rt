//! An array of key bytes that is lent under guard.
ghost use Rattle.std.specs.Prelude.{◌≡◌, ◌<◌, ◌^◌, length, replicate, slice_index};

use crate::arrays::wipe;

/// An array of key bytes, lent by its owner. It can't be copied, cloned or printed, no call lends the
/// array, and its drop zeroes the array.
pub struct Secret<'a, const N: usize> {
    bytes: &'a mut [u8; N],
    ghost whole: { length bytes.now ≡ N },
    ghost sized: { N < 2 ^ 63 },
}

impl<'a, const N: usize> Secret<'a, N> {
    ghost use Rattle.key_cells.specs.Secret.{array_of, bytes_of};

    /// Guards the array, and changes no byte of it.
    pub fn guard(bytes: &'a mut [u8; N]) -> Secret<'a, N>
        ensures same_array { array_of result ≡ bytes.entry.ghost_name }
        ensures bytes { bytes_of result ≡ bytes.old }
    {
        Secret { bytes }
    }

    /// The byte at an index.
    pub fn byte(&self, at: usize) -> u8
        requires { at < N }
        ensures value { result ≡ slice_index (bytes_of self.now) at }
        ensures size { length (bytes_of self.now) ≡ N }
    {
        let bytes = &*self.bytes;
        bytes[at]
    }
}

impl<'a, const N: usize> Drop for Secret<'a, N> {
    fn drop(self)
        ensures { self.exit.0.now ≡ replicate N 0 }
    {
        let Secret { bytes } = self;
        wipe(bytes);
    }
}
