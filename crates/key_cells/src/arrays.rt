//! Arrays of bytes of any length: zeroed, and lent in part.
ghost use Rattle.std.specs.Prelude.{◌≡◌, ℕ, ◌++◌, ◌≤◌, length, replicate, take, drop};
ghost use Rattle.std.specs.Borrow.{sem};
ghost use Rattle.key_cells.specs.Front.{LendsFront};

/// An array of zeros.
pub(crate) fn zeros<const N: usize>() -> [u8; N]
    ensures { result ≡ replicate N 0 }
{
    [0; N]
}

/// Zeroes each byte.
pub(crate) fn wipe<const N: usize>(bytes: &mut [u8; N])
    ensures { bytes.new ≡ replicate N 0 }
{
    let blank = zeros();
    *bytes = blank;
}

/// The first `len` bytes.
pub(crate) fn front<const N: usize>(bytes: &[u8; N], len: usize) -> &[u8]
    requires { len ≤ N }
    ensures { result.now ≡ take len bytes.now }
{
    &bytes[..len]
}

/// The first `len` bytes, for writing.
pub(crate) fn front_mut<const N: usize>(bytes: &mut [u8; N], len: usize) -> &mut [u8]
    requires { len ≤ N }
    ensures* writes_back { sem 𝓛 (LendsFront N bytes.entry len result) }
    ensures value { result.now ≡ take len bytes.old }
{
    &mut bytes[..len]
}
