//! What the segments of a text are given for.
ghost use Rattle.std.specs.Prelude.{◌≡◌};
ghost use Rattle.text_segments.specs.Segments.{last_use};

use cipher_verbs::Pad;
use verb_rules::{MacRule, TextUse};

/// What a text that goes in segments is given for.
#[derive(Clone, Copy, Debug, PartialEq, Eq)]
pub enum Mode {
    /// To be enciphered.
    Encipher,
    /// To be deciphered.
    Decipher,
    /// To have its message authentication code made or verified.
    Mac(MacRule),
}

impl Mode {
    /// What the last segment is given for, where so many bytes are carried. A padding is that of a text that is
    /// enciphered or deciphered.
    pub fn use_of_last(self, padding: Pad, carried: usize) -> TextUse
        ensures { result ≡ last_use self padding carried }
    {
        match (self, padding) {
            (Mode::Encipher, Pad::None) => TextUse::LastPlain { carried },
            (Mode::Encipher, Pad::X923) => TextUse::LastPadded,
            (Mode::Decipher, _) => TextUse::LastDecipher { carried },
            (Mode::Mac(_), _) => TextUse::LastMac { carried },
        }
    }
}
