//! The rules, by their numbers.
ghost use Rattle.std.specs.Prelude.{◌≡◌, ◌<◌};
ghost use Rattle.verb_rules.specs.Rules.{rule_number};

/// A rule that a request may break, in the order in which the rules are judged; but the last, `Chain`, is judged before
/// `TextLength`.
#[derive(Clone, Copy, Debug, PartialEq, Eq)]
pub enum Rule {
    /// 01: The line is no request.
    Form,
    /// 02: The line is too long.
    LineLength,
    /// 03: The role isn't held.
    Role,
    /// 04: The role lacks an access control point.
    Point,
    /// 05: The current master key register is empty.
    MasterKey,
    /// 06: The text isn't a label.
    LabelForm,
    /// 07: No record has the label.
    LabelUnknown,
    /// 08: The label's record is null.
    Null,
    /// 09: The token is of another kind.
    Kind,
    /// 10: The token validation value is wrong.
    Tvv,
    /// 11: The token's version is wrong.
    Version,
    /// 12: The token's flag is wrong.
    Flag,
    /// 13: A reserved byte of the token isn't zero.
    Reserved,
    /// 14: A byte of the control vector has an odd number of ones.
    Parity,
    /// 15: An anti-variant bit of the control vector is wrong.
    AntiVariant,
    /// 16: The key form of the control vector is wrong.
    KeyForm,
    /// 17: The key is a key part.
    KeyPart,
    /// 18: The token's master key pattern is neither the current nor the old one.
    Pattern,
    /// 19: The key's class isn't among those of the operand.
    Class,
    /// 20: The control vector doesn't permit the use.
    Usage,
    /// 21: The control vector forbids export.
    Export,
    /// 22: The transport key is single length.
    TransportLength,
    /// 23: The text has a wrong length.
    TextLength,
    /// 24: The two key types aren't a pair.
    Pair,
    /// 25: The new master key register isn't in the state that the step needs.
    RegisterState,
    /// 26: The new master key has the pattern of the current one, or for AHEAD of the old one.
    SamePattern,
    /// 27: A label is under the old master key.
    OldLabels,
    /// 28: The store holds as many labels as it can.
    StoreFull,
    /// 29: The label is held.
    LabelExists,
    /// 30: The role table is full, or the role isn't held.
    RoleTable,
    /// 31: The last clear byte is no count of padding.
    PadCount,
    /// 32: The key, or its type, doesn't have this length.
    KeyLength,
    /// 33: A label is ahead.
    Ahead,
    /// 34: Each right half that was drawn is the same as the left half, the low-order bit of each byte aside.
    UniqueHalves,
    /// 35: The key is whole, where a key part is combined with another.
    WholeKey,
    /// 36: The chain isn't one that a segment gives.
    Chain,
}

impl Rule {
    /// The rule's number, 1 to 36.
    pub fn number(self) -> u8
        ensures number { result ≡ rule_number self }
        ensures two_digits { result < 100 }
    {
        match self {
            Rule::Form => 1,
            Rule::LineLength => 2,
            Rule::Role => 3,
            Rule::Point => 4,
            Rule::MasterKey => 5,
            Rule::LabelForm => 6,
            Rule::LabelUnknown => 7,
            Rule::Null => 8,
            Rule::Kind => 9,
            Rule::Tvv => 10,
            Rule::Version => 11,
            Rule::Flag => 12,
            Rule::Reserved => 13,
            Rule::Parity => 14,
            Rule::AntiVariant => 15,
            Rule::KeyForm => 16,
            Rule::KeyPart => 17,
            Rule::Pattern => 18,
            Rule::Class => 19,
            Rule::Usage => 20,
            Rule::Export => 21,
            Rule::TransportLength => 22,
            Rule::TextLength => 23,
            Rule::Pair => 24,
            Rule::RegisterState => 25,
            Rule::SamePattern => 26,
            Rule::OldLabels => 27,
            Rule::StoreFull => 28,
            Rule::LabelExists => 29,
            Rule::RoleTable => 30,
            Rule::PadCount => 31,
            Rule::KeyLength => 32,
            Rule::Ahead => 33,
            Rule::UniqueHalves => 34,
            Rule::WholeKey => 35,
            Rule::Chain => 36,
        }
    }
}
