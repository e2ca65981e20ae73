//! What may be asked of an operand.

use verb_rules::Need;

/// What is asked of an operand that a field of a request names.
#[derive(Clone, Copy, Debug, PartialEq, Eq)]
pub enum Ask {
    /// A key token of either kind, by its own rules alone.
    AnyToken,
    /// An internal key, as a token or by the label of its record, by the rules of a key that is needed.
    Key(Need),
    /// A key as a token alone, by the same rules.
    Token(Need),
    /// An external key token, by the rules of a key that is needed.
    External(Need),
    /// A label that is held with a key.
    Record,
    /// A label that is held.
    Held,
    /// A label, held or not.
    NewLabel,
    /// Where a key goes: the reply, or the record of a label that is held.
    Target,
    /// Nothing.
    Nothing,
}
