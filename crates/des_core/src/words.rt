//! A word as eight bytes of a text.
ghost use Rattle.std.specs.Prelude.{◌≡◌, ◌+◌, ◌≤◌, length};
ghost use Rattle.std.specs.Int.{to_be_bytes, w64};
ghost use Rattle.des_blocks.specs.Texts.{put_at};

/// Puts the eight bytes of a word at a place of a text.
#[inline]
pub(crate) fn put_word(text: &mut [u8], at: usize, word: u64)
    requires { at + 8 ≤ length text.now }
    ensures { text.new ≡ put_at text.old at (to_be_bytes w64 word) }
{
    text[at..at + 8].copy_from_slice(&word.to_be_bytes());
}
