//! What a key may be used for, by the permission bits of its control vector.
ghost use Rattle.std.specs.Prelude.{◌≡◌, ◌<◌};
ghost use Rattle.cca_vectors.specs.Permissions.{usage_bit, is_data_bit};

/// A use that a control vector permits or forbids. Some uses of transport keys have the bits of uses of other
/// keys: the class of the key tells them apart.
#[derive(Clone, Copy, Debug, PartialEq, Eq)]
pub enum Usage {
    /// A text is enciphered.
    Encipher,
    /// A text is deciphered.
    Decipher,
    /// A message authentication code is made.
    MacGenerate,
    /// A message authentication code is verified.
    MacVerify,
    /// Keys are exported or imported under this transport key.
    Transport,
    /// Keys are translated from or to this transport key.
    Translate,
    /// A pair is made of which one key is operational.
    PairOperational,
    /// A pair is made of which one key is to be imported and the other is exported.
    PairImportExport,
    /// A pair is made of which both keys are exported, or both are to be imported.
    PairSame,
}

impl Usage {
    /// The permission bit of the use in the left half of a control vector, counted from 0, the most significant
    /// bit of byte 0.
    pub(crate) fn bit(self) -> usize
        ensures bit { result ≡ usage_bit self }
        ensures within { result < 64 }
    {
        match self {
            Usage::Encipher | Usage::PairOperational => 18,
            Usage::Decipher | Usage::PairImportExport => 19,
            Usage::MacGenerate | Usage::PairSame => 20,
            Usage::MacVerify | Usage::Transport => 21,
            Usage::Translate => 22,
        }
    }
}

/// Whether the all-zero vector permits the uses of a permission bit.
pub(crate) fn is_data_bit(bit: usize) -> bool
    ensures { result ≡ is_data_bit bit }
{
    18 <= bit && bit <= 21
}
