//! The lengths that keys are generated with.
ghost use Rattle.std.specs.Prelude.{◌≡◌};
ghost use Rattle.cca_vectors.specs.DefaultVectors.{length_of_name, size_of};

/// The length of a key that is generated.
#[derive(Clone, Copy, Debug, PartialEq, Eq)]
pub enum Length {
    /// 8 bytes.
    Eight,
    /// 16 bytes, left half and right half.
    Sixteen,
    /// 16 bytes whose halves differ when the low-order bit of each byte is left out.
    Unique,
}

impl Length {
    /// The length with this name: 8, 16 or DOUBLE-O; none where the text is none of these.
    pub fn read(text: &[u8]) -> Option<Length>
        ensures { result ≡ length_of_name text.now }
    {
        if text == b"8".as_slice() {
            Some(Length::Eight)
        } else if text == b"16".as_slice() {
            Some(Length::Sixteen)
        } else if text == b"DOUBLE-O".as_slice() {
            Some(Length::Unique)
        } else {
            None
        }
    }

    /// In bytes.
    pub fn size(self) -> usize
        ensures { result ≡ size_of self }
    {
        match self {
            Length::Eight => 8,
            Length::Sixteen | Length::Unique => 16,
        }
    }
}
