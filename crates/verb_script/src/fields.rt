//! The fields of request lines: of each its name, and the texts that it accepts.
ghost use Rattle.std.specs.Prelude.{◌≡◌, ◌++◌, codes};
ghost use Rattle.verb_script.specs.Grammar.{accepts};
ghost use Rattle.verb_script.specs.Rows.{field_seen};

use crate::values::{
    are_points, is_hex_of, is_hex_text, is_key, is_label_text, is_mac, is_one_of, is_other_role,
    is_part, is_prefix, is_to, is_type,
};
use cca_roles::is_role_name;

/// A field of the grammar. Two fields of one name accept different texts.
#[derive(Clone, Copy)]
pub(crate) enum Field {
    Role,
    Key,
    Iv,
    Pad,
    Text,
    SegmentFirst,
    SegmentMiddle,
    Chain,
    SegmentLast,
    Rule,
    MacLength,
    Mac,
    Token,
    ClearKey,
    To,
    NumberForm,
    OpForm,
    Length,
    Type1,
    PairForm,
    Type2,
    Transport2,
    OutForm,
    Transport1,
    Transport,
    ChangeRule,
    FirstPart,
    Type,
    KeyPart,
    FurtherPart,
    Label,
    Prefix,
    PartAction,
    Part,
    ActionClear,
    ActionSet,
    ActionDefine,
    Name,
    Points,
    ActionRemove,
    OtherName,
    ActionAhead,
    ActionDrop,
}

impl Field {
    /// Its name and an equals sign.
    pub(crate) fn prefix(self) -> &'static [u8]
        ensures { result.now ≡ (field_seen self).name ++ codes "=" }
    {
        match self {
            Field::Role => b"role=",
            Field::Key => b"key=",
            Field::Iv => b"iv=",
            Field::Pad => b"pad=",
            Field::Text => b"text=",
            Field::SegmentFirst | Field::SegmentMiddle | Field::SegmentLast => b"segment=",
            Field::Chain => b"chain=",
            Field::Rule | Field::ChangeRule | Field::FirstPart | Field::FurtherPart => b"rule=",
            Field::MacLength | Field::Length => b"length=",
            Field::Mac => b"mac=",
            Field::Token => b"token=",
            Field::ClearKey => b"clear=",
            Field::To => b"to=",
            Field::NumberForm | Field::OpForm | Field::PairForm | Field::OutForm => b"form=",
            Field::Type1 => b"type1=",
            Field::Type2 => b"type2=",
            Field::Transport2 => b"transport2=",
            Field::Transport1 => b"transport1=",
            Field::Transport => b"transport=",
            Field::Type => b"type=",
            Field::KeyPart | Field::Part => b"part=",
            Field::Label => b"label=",
            Field::Prefix => b"prefix=",
            Field::PartAction
            | Field::ActionClear
            | Field::ActionSet
            | Field::ActionDefine
            | Field::ActionRemove
            | Field::ActionAhead
            | Field::ActionDrop => b"action=",
            Field::Name | Field::OtherName => b"name=",
            Field::Points => b"points=",
        }
    }

    /// Whether the text is one of its values.
    pub(crate) fn accepts(self, text: &[u8]) -> bool
        ensures { result ≡ accepts (field_seen self).values text.now }
    {
        match self {
            Field::Role | Field::Name => is_role_name(text),
            Field::Key | Field::Transport2 | Field::Transport1 | Field::Transport => is_key(text),
            Field::Iv | Field::ClearKey => is_hex_of(text, 16),
            Field::Pad => is_one_of(text, &[b"NONE", b"X9.23"]),
            Field::Text => is_hex_text(text),
            Field::SegmentFirst | Field::FirstPart => is_one_of(text, &[b"FIRST"]),
            Field::SegmentMiddle => is_one_of(text, &[b"MIDDLE"]),
            Field::Chain => is_hex_of(text, 32),
            Field::SegmentLast => is_one_of(text, &[b"LAST"]),
            Field::Rule => is_one_of(text, &[b"X9.9-1", b"X9.19OPT"]),
            Field::MacLength => is_one_of(text, &[b"4", b"6", b"8"]),
            Field::Mac => is_mac(text),
            Field::Token => is_hex_of(text, 128),
            Field::To => is_to(text),
            Field::NumberForm => is_one_of(text, &[b"RANDOM", b"ODD", b"EVEN"]),
            Field::OpForm => is_one_of(text, &[b"OP"]),
            Field::Length => is_one_of(text, &[b"8", b"16", b"DOUBLE-O"]),
            Field::Type1 | Field::Type2 | Field::Type => is_type(text),
            Field::PairForm => is_one_of(text, &[b"OPEX", b"OPIM"]),
            Field::OutForm => is_one_of(text, &[b"IMEX", b"EXEX", b"IMIM"]),
            Field::ChangeRule => is_one_of(text, &[b"RTCMK", b"RTNMK"]),
            Field::KeyPart => is_part(text),
            Field::FurtherPart => is_one_of(text, &[b"MIDDLE", b"LAST"]),
            Field::Label => is_label_text(text),
            Field::Prefix => is_prefix(text),
            Field::PartAction => is_one_of(text, &[b"FIRST", b"MIDDLE", b"LAST"]),
            Field::Part => is_hex_of(text, 48),
            Field::ActionClear => is_one_of(text, &[b"CLEAR"]),
            Field::ActionSet => is_one_of(text, &[b"SET"]),
            Field::ActionDefine => is_one_of(text, &[b"DEFINE"]),
            Field::Points => are_points(text),
            Field::ActionRemove => is_one_of(text, &[b"REMOVE"]),
            Field::OtherName => is_other_role(text),
            Field::ActionAhead => is_one_of(text, &[b"AHEAD"]),
            Field::ActionDrop => is_one_of(text, &[b"DROP"]),
        }
    }
}
