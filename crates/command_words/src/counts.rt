//! Counting reply lines as their bytes come.
ghost use Rattle.std.specs.Prelude.{◌≡◌};
ghost use Rattle.command_words.specs.Counting.{begun_after_lem, matched_after_lem, line_ended_lem, one_more_where_lem, count_byte, blank_counts};

/// What ends the reply to a request with a key under the old master key.
const OLD: [u8; 9] = *b" warn=old";

/// How a reply line begins.
#[derive(Clone, Copy, PartialEq, Eq)]
pub(crate) enum Begun {
    /// It has no byte yet.
    Empty,
    /// It is `O`.
    FirstO,
    /// It is `N`.
    FirstN,
    /// It begins with `OK`.
    Done,
    /// It begins with `NO`.
    Refused,
    /// It begins otherwise.
    Other,
}

/// How many reply lines of each kind came to their end, and what is known of the one that has not. The counts stop at
/// `u32::MAX`.
#[derive(Clone, Copy, PartialEq, Eq)]
pub(crate) struct Counts {
    pub(crate) ok: u32,
    pub(crate) refused: u32,
    pub(crate) old: u32,
    begun: Begun,
    matched: usize,
}

impl Counts {
    /// No byte came.
    pub(crate) fn new() -> Counts
        ensures { result ≡ blank_counts }
    {
        Counts {
            ok: 0,
            refused: 0,
            old: 0,
            begun: Begun::Empty,
            matched: 0,
        }
    }

    /// One byte more.
    pub(crate) fn take(self, byte: u8) -> Counts
        ensures { result ≡ count_byte self byte }
    {
        if byte == b'\n' {
            self.line_ended()
        } else {
            Counts {
                begun: begun_after(self.begun, byte),
                matched: matched_after(self.matched, byte),
                ..self
            }
        }
    }

    fn line_ended(self) -> Counts
        ensures { result ≡ line_ended_lem self }
    {
        Counts {
            ok: one_more_where(self.begun == Begun::Done, self.ok),
            refused: one_more_where(self.begun == Begun::Refused, self.refused),
            old: one_more_where(self.matched == OLD.len(), self.old),
            begun: Begun::Empty,
            matched: 0,
        }
    }
}

fn one_more_where(test: bool, count: u32) -> u32
    ensures { result ≡ one_more_where_lem test count }
{
    if test { count.saturating_add(1) } else { count }
}

fn begun_after(begun: Begun, byte: u8) -> Begun
    ensures { result ≡ begun_after_lem begun byte }
{
    match (begun, byte) {
        (Begun::Empty, b'O') => Begun::FirstO,
        (Begun::Empty, b'N') => Begun::FirstN,
        (Begun::FirstO, b'K') => Begun::Done,
        (Begun::FirstN, b'O') => Begun::Refused,
        (Begun::Done, _) => Begun::Done,
        (Begun::Refused, _) => Begun::Refused,
        _ => Begun::Other,
    }
}

fn matched_after(matched: usize, byte: u8) -> usize
    ensures { result ≡ matched_after_lem matched byte }
{
    if byte == b' ' {
        1
    } else if matched < OLD.len() && OLD[matched] == byte {
        matched + 1
    } else {
        0
    }
}
