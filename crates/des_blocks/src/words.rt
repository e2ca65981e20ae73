//! Eight bytes of a text as a word.
ghost use Rattle.std.specs.Prelude.{◌≡◌, ◌+◌, ◌≤◌, drop, length, take};
ghost use Rattle.std.specs.Int.{to_be_bytes, w64};

/// The eight bytes of a text at a place, as a word, the first byte highest.
#[inline]
pub fn word_at(text: &[u8], at: usize) -> u64
    requires { at + 8 ≤ length text.now }
    ensures { to_be_bytes w64 result ≡ take 8 (drop at text.now) }
{
    let mut bytes = [0; 8];
    bytes.copy_from_slice(&text[at..at + 8]);
    u64::from_be_bytes(bytes)
}
