//! The rules on lengths: of a text, by its use, and of the key of a message authentication code.
ghost use Rattle.std.specs.Prelude.{◌≡◌, ◌+◌};
ghost use Rattle.verb_rules.specs.LengthChecks.{are_blocks, has_length, is_segment, mac_key_length, mac_checks, rule_of_name, text_checks};
ghost use Rattle.verb_rules.specs.Rules.{Judges};

use crate::rules::Rule;

/// The greatest length of a text in bytes.
const TEXT_ROOM: usize = 4096;

/// The greatest length of a segment of a text in bytes.
const SEGMENT_ROOM: usize = 4088;

const BLOCK: usize = 8;

/// What a text is given for.
#[derive(Clone, Copy, Debug, PartialEq, Eq)]
pub enum TextUse {
    /// To be enciphered as it is.
    EncipherPlain,
    /// To be enciphered with padding of ANSI X9.23.
    EncipherPadded,
    /// To be deciphered.
    Decipher,
    /// To have its message authentication code made or verified.
    Mac,
    /// As a segment of a text, but the last one.
    Segment,
    /// As the last segment of a text that is enciphered as it is, after `carried` bytes of the segments before.
    LastPlain { carried: usize },
    /// As the last segment of a text that is enciphered with padding of ANSI X9.23.
    LastPadded,
    /// As the last segment of a text that is deciphered, after `carried` bytes of the segments before.
    LastDecipher { carried: usize },
    /// As the last segment of a text whose message authentication code is made or verified, after `carried` bytes of the
    /// segments before.
    LastMac { carried: usize },
}

/// How a message authentication code is made.
#[derive(Clone, Copy, Debug, PartialEq, Eq)]
pub enum MacRule {
    /// X9.9-1: by DES, under a single-length key.
    X99,
    /// X9.19OPT: under a double-length key.
    X919,
}

impl MacRule {
    /// The rule with this name: X9.9-1 or X9.19OPT; none where the text is neither.
    pub fn read(text: &[u8]) -> Option<MacRule>
        ensures { result ≡ rule_of_name text.now }
    {
        if text == b"X9.9-1".as_slice() {
            Some(MacRule::X99)
        } else if text == b"X9.19OPT".as_slice() {
            Some(MacRule::X919)
        } else {
            None
        }
    }
}

/// Whether two lengths together are those of whole blocks, one at least.
fn are_blocks(length: usize, carried: usize) -> bool
    ensures { result ≡ are_blocks (length + carried) }
{
    (length % BLOCK + carried % BLOCK) % BLOCK == 0
        && (BLOCK <= length || BLOCK <= carried || BLOCK <= length + carried)
}

fn is_segment(length: usize) -> bool
    ensures { result ≡ is_segment length }
{
    length <= SEGMENT_ROOM
}

impl TextUse {
    /// Whether a text of so many bytes may be given.
    fn has_length(self, length: usize) -> bool
        ensures { result ≡ has_length self length }
    {
        match self {
            TextUse::EncipherPlain | TextUse::Decipher => {
                length % BLOCK == 0 && BLOCK <= length && length <= TEXT_ROOM
            }
            TextUse::EncipherPadded => length < TEXT_ROOM,
            TextUse::Mac => 1 <= length && length <= TEXT_ROOM,
            TextUse::Segment | TextUse::LastPadded => is_segment(length),
            TextUse::LastPlain { carried } | TextUse::LastDecipher { carried } => {
                is_segment(length) && are_blocks(length, carried)
            }
            TextUse::LastMac { carried } => is_segment(length) && (1 <= length || 1 <= carried),
        }
    }
}

impl MacRule {
    /// How many bytes the key has.
    fn key_length(self) -> usize
        ensures { result ≡ mac_key_length self }
    {
        match self {
            MacRule::X99 => 8,
            MacRule::X919 => 16,
        }
    }
}

/// Rule 23: whether a text of this length in bytes may be given for this use.
pub fn judge_text(use_of: TextUse, length: usize) -> Result<(), Rule>
    ensures { Judges (text_checks use_of length) result }
{
    if use_of.has_length(length) {
        Ok(())
    } else {
        Err(Rule::TextLength)
    }
}

/// Rule 32: whether a key of this length in bytes makes codes by this rule.
pub fn judge_mac(rule: MacRule, length: usize) -> Result<(), Rule>
    ensures { Judges (mac_checks rule length) result }
{
    if length == rule.key_length() {
        Ok(())
    } else {
        Err(Rule::KeyLength)
    }
}
