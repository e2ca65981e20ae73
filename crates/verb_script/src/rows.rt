//! The rows of the grammar: of each its verb, and its fields in their order.
ghost use Rattle.std.specs.Prelude.{◌≡◌, filter, map};
ghost use Rattle.verb_script.specs.Grammar.{all_requests};
ghost use Rattle.verb_script.specs.Rows.{form_seen, has_seventh, named_row};

use crate::fields::Field;

/// The names of requests: one for each row of the grammar.
#[derive(Clone, Copy)]
pub enum RequestName {
    Csnbenc,
    CsnbencFirst,
    CsnbencMiddle,
    CsnbencLast,
    Csnbdec,
    CsnbdecFirst,
    CsnbdecMiddle,
    CsnbdecLast,
    Csnbmgn,
    CsnbmgnFirst,
    CsnbmgnMiddle,
    CsnbmgnLast,
    Csnbmvr,
    CsnbmvrFirst,
    CsnbmvrMiddle,
    CsnbmvrLast,
    Csnbktp,
    Csnbkyt,
    Csnbcki,
    Csnbrng,
    CsnbkgnOp,
    CsnbkgnPair,
    CsnbkgnOut,
    Csnbkim,
    Csnbkex,
    Csnbpex,
    Csnbktc,
    CsnbkpiFirst,
    CsnbkpiMiddle,
    Csnbktr,
    Csnbkrc,
    Csnbkrw,
    Csnbkrr,
    Csnbkrd,
    Csnbkrl,
    CsnbmkpPart,
    CsnbmkpClear,
    CsnbmkpSet,
    CsuaaciDefine,
    CsuaaciRemove,
    Reencipher,
    ReencipherAhead,
    ReencipherDrop,
}

/// A row with its verb, and its fields in their order.
#[derive(Clone, Copy)]
pub(crate) struct RowForm {
    pub(crate) name: RequestName,
    pub(crate) verb: &'static [u8],
    pub(crate) fields: &'static [Field],
}

/// The rows whose verbs have this seventh letter, in their order. Most verbs differ in it.
pub(crate) fn rows_with(letter: u8) -> &'static [RowForm]
    ensures { map form_seen result.now ≡ map named_row (filter (has_seventh letter) all_requests) }
{
    match letter {
        b'C' => &[
            RowForm {
                name: RequestName::Csnbenc,
                verb: b"CSNBENC",
                fields: &[Field::Role, Field::Key, Field::Iv, Field::Pad, Field::Text],
            },
            RowForm {
                name: RequestName::CsnbencFirst,
                verb: b"CSNBENC",
                fields: &[
                    Field::Role,
                    Field::Key,
                    Field::SegmentFirst,
                    Field::Iv,
                    Field::Text,
                ],
            },
            RowForm {
                name: RequestName::CsnbencMiddle,
                verb: b"CSNBENC",
                fields: &[
                    Field::Role,
                    Field::Key,
                    Field::SegmentMiddle,
                    Field::Chain,
                    Field::Text,
                ],
            },
            RowForm {
                name: RequestName::CsnbencLast,
                verb: b"CSNBENC",
                fields: &[
                    Field::Role,
                    Field::Key,
                    Field::SegmentLast,
                    Field::Chain,
                    Field::Pad,
                    Field::Text,
                ],
            },
            RowForm {
                name: RequestName::Csnbdec,
                verb: b"CSNBDEC",
                fields: &[Field::Role, Field::Key, Field::Iv, Field::Pad, Field::Text],
            },
            RowForm {
                name: RequestName::CsnbdecFirst,
                verb: b"CSNBDEC",
                fields: &[
                    Field::Role,
                    Field::Key,
                    Field::SegmentFirst,
                    Field::Iv,
                    Field::Text,
                ],
            },
            RowForm {
                name: RequestName::CsnbdecMiddle,
                verb: b"CSNBDEC",
                fields: &[
                    Field::Role,
                    Field::Key,
                    Field::SegmentMiddle,
                    Field::Chain,
                    Field::Text,
                ],
            },
            RowForm {
                name: RequestName::CsnbdecLast,
                verb: b"CSNBDEC",
                fields: &[
                    Field::Role,
                    Field::Key,
                    Field::SegmentLast,
                    Field::Chain,
                    Field::Pad,
                    Field::Text,
                ],
            },
            RowForm {
                name: RequestName::Csnbktc,
                verb: b"CSNBKTC",
                fields: &[Field::Role, Field::ChangeRule, Field::Token],
            },
            RowForm {
                name: RequestName::Csnbkrc,
                verb: b"CSNBKRC",
                fields: &[Field::Role, Field::Label],
            },
        ],
        b'N' => &[
            RowForm {
                name: RequestName::Csnbmgn,
                verb: b"CSNBMGN",
                fields: &[
                    Field::Role,
                    Field::Key,
                    Field::Rule,
                    Field::MacLength,
                    Field::Text,
                ],
            },
            RowForm {
                name: RequestName::CsnbmgnFirst,
                verb: b"CSNBMGN",
                fields: &[
                    Field::Role,
                    Field::Key,
                    Field::Rule,
                    Field::SegmentFirst,
                    Field::Text,
                ],
            },
            RowForm {
                name: RequestName::CsnbmgnMiddle,
                verb: b"CSNBMGN",
                fields: &[
                    Field::Role,
                    Field::Key,
                    Field::Rule,
                    Field::SegmentMiddle,
                    Field::Chain,
                    Field::Text,
                ],
            },
            RowForm {
                name: RequestName::CsnbmgnLast,
                verb: b"CSNBMGN",
                fields: &[
                    Field::Role,
                    Field::Key,
                    Field::Rule,
                    Field::SegmentLast,
                    Field::MacLength,
                    Field::Chain,
                    Field::Text,
                ],
            },
            RowForm {
                name: RequestName::CsnbkgnOp,
                verb: b"CSNBKGN",
                fields: &[
                    Field::Role,
                    Field::OpForm,
                    Field::Length,
                    Field::Type1,
                    Field::To,
                ],
            },
            RowForm {
                name: RequestName::CsnbkgnPair,
                verb: b"CSNBKGN",
                fields: &[
                    Field::Role,
                    Field::PairForm,
                    Field::Length,
                    Field::Type1,
                    Field::Type2,
                    Field::Transport2,
                    Field::To,
                ],
            },
            RowForm {
                name: RequestName::CsnbkgnOut,
                verb: b"CSNBKGN",
                fields: &[
                    Field::Role,
                    Field::OutForm,
                    Field::Length,
                    Field::Type1,
                    Field::Type2,
                    Field::Transport1,
                    Field::Transport2,
                ],
            },
        ],
        b'R' => &[
            RowForm {
                name: RequestName::Csnbmvr,
                verb: b"CSNBMVR",
                fields: &[
                    Field::Role,
                    Field::Key,
                    Field::Rule,
                    Field::Mac,
                    Field::Text,
                ],
            },
            RowForm {
                name: RequestName::CsnbmvrFirst,
                verb: b"CSNBMVR",
                fields: &[
                    Field::Role,
                    Field::Key,
                    Field::Rule,
                    Field::SegmentFirst,
                    Field::Text,
                ],
            },
            RowForm {
                name: RequestName::CsnbmvrMiddle,
                verb: b"CSNBMVR",
                fields: &[
                    Field::Role,
                    Field::Key,
                    Field::Rule,
                    Field::SegmentMiddle,
                    Field::Chain,
                    Field::Text,
                ],
            },
            RowForm {
                name: RequestName::CsnbmvrLast,
                verb: b"CSNBMVR",
                fields: &[
                    Field::Role,
                    Field::Key,
                    Field::Rule,
                    Field::SegmentLast,
                    Field::Mac,
                    Field::Chain,
                    Field::Text,
                ],
            },
            RowForm {
                name: RequestName::Csnbktr,
                verb: b"CSNBKTR",
                fields: &[
                    Field::Role,
                    Field::Token,
                    Field::Transport1,
                    Field::Transport2,
                ],
            },
            RowForm {
                name: RequestName::Csnbkrr,
                verb: b"CSNBKRR",
                fields: &[Field::Role, Field::Label],
            },
        ],
        b'P' => &[
            RowForm {
                name: RequestName::Csnbktp,
                verb: b"CSNBKTP",
                fields: &[Field::Role, Field::Token],
            },
            RowForm {
                name: RequestName::CsnbmkpPart,
                verb: b"CSNBMKP",
                fields: &[Field::Role, Field::PartAction, Field::Part],
            },
            RowForm {
                name: RequestName::CsnbmkpClear,
                verb: b"CSNBMKP",
                fields: &[Field::Role, Field::ActionClear],
            },
            RowForm {
                name: RequestName::CsnbmkpSet,
                verb: b"CSNBMKP",
                fields: &[Field::Role, Field::ActionSet],
            },
            RowForm {
                name: RequestName::Reencipher,
                verb: b"REENCIPHER",
                fields: &[Field::Role],
            },
            RowForm {
                name: RequestName::ReencipherAhead,
                verb: b"REENCIPHER",
                fields: &[Field::Role, Field::ActionAhead],
            },
            RowForm {
                name: RequestName::ReencipherDrop,
                verb: b"REENCIPHER",
                fields: &[Field::Role, Field::ActionDrop],
            },
        ],
        b'I' => &[
            RowForm {
                name: RequestName::Csnbcki,
                verb: b"CSNBCKI",
                fields: &[Field::Role, Field::ClearKey, Field::To],
            },
            RowForm {
                name: RequestName::CsnbkpiFirst,
                verb: b"CSNBKPI",
                fields: &[
                    Field::Role,
                    Field::FirstPart,
                    Field::Type,
                    Field::KeyPart,
                    Field::To,
                ],
            },
            RowForm {
                name: RequestName::CsnbkpiMiddle,
                verb: b"CSNBKPI",
                fields: &[
                    Field::Role,
                    Field::FurtherPart,
                    Field::Key,
                    Field::KeyPart,
                    Field::To,
                ],
            },
            RowForm {
                name: RequestName::CsuaaciDefine,
                verb: b"CSUAACI",
                fields: &[Field::Role, Field::ActionDefine, Field::Name, Field::Points],
            },
            RowForm {
                name: RequestName::CsuaaciRemove,
                verb: b"CSUAACI",
                fields: &[Field::Role, Field::ActionRemove, Field::OtherName],
            },
        ],
        b'X' => &[
            RowForm {
                name: RequestName::Csnbkex,
                verb: b"CSNBKEX",
                fields: &[Field::Role, Field::Key, Field::Transport],
            },
            RowForm {
                name: RequestName::Csnbpex,
                verb: b"CSNBPEX",
                fields: &[Field::Role, Field::Key, Field::To],
            },
        ],
        b'T' => &[RowForm {
            name: RequestName::Csnbkyt,
            verb: b"CSNBKYT",
            fields: &[Field::Role, Field::Key],
        }],
        b'G' => &[RowForm {
            name: RequestName::Csnbrng,
            verb: b"CSNBRNG",
            fields: &[Field::Role, Field::NumberForm],
        }],
        b'M' => &[RowForm {
            name: RequestName::Csnbkim,
            verb: b"CSNBKIM",
            fields: &[Field::Role, Field::Token, Field::Transport, Field::To],
        }],
        b'W' => &[RowForm {
            name: RequestName::Csnbkrw,
            verb: b"CSNBKRW",
            fields: &[Field::Role, Field::Label, Field::Token],
        }],
        b'D' => &[RowForm {
            name: RequestName::Csnbkrd,
            verb: b"CSNBKRD",
            fields: &[Field::Role, Field::Label],
        }],
        b'L' => &[RowForm {
            name: RequestName::Csnbkrl,
            verb: b"CSNBKRL",
            fields: &[Field::Role, Field::Prefix],
        }],
        _ => &[],
    }
}
