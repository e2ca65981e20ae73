//! The request that a line spells: of the first row whose verb and fields the words of the line are.
ghost use Rattle.std.specs.Prelude.{◌≡◌, ◌∷◌, Some, None, IfOk, IsTrue, get_or, is_some, length, map};
ghost use Rattle.std.specs.Int.{to_be_bytes, w32};
ghost use Rattle.cca_roles.specs.RoleNames.{is_role_name};
ghost use Rattle.cca_vectors.specs.KeyTypes.{type_name, type_named};
ghost use Rattle.verb_script.specs.Grammar.{Request as Spelled, Spells, IsOfParts, AreAccepted, accepts, points as points_text, meanings, row_of};
ghost use Rattle.verb_script.specs.Parsed.{answered, seen, seen_option};
ghost use Rattle.verb_script.specs.Requests.{request_of, request_in, first_request};
ghost use Rattle.verb_script.specs.Rows.{AreRows, IsRow, row_name, text_at, texts_at};
ghost use Rattle.verb_script.specs.Values.{hex_value};
ghost use Rattle.verb_script.specs.Words.{unread};

use crate::request::{FormFault, Request};
use crate::rows::{RequestName, RowForm, rows_with};
use crate::values::points_of;
use crate::words::{Texts, Words};
use cca_roles::{AccessPoints, RoleName};
use cca_vectors::KeyType;

/// The role of this name.
fn role_of(text: &[u8]) -> RoleName
    requires { IsTrue (is_role_name text.now) }
    ensures { result ≡ text.now }
{
    RoleName::of(text)
}

/// The key type of this name.
fn type_of(text: &[u8]) -> KeyType
    requires { IsTrue (is_some (type_named text.now)) }
    ensures { type_name result ≡ text.now }
{
    KeyType::read(text).unwrap()
}

/// The points of this text.
fn points_in(text: &[u8]) -> AccessPoints
    requires { IsTrue (accepts points_text text.now) }
    ensures { to_be_bytes w32 result ≡ hex_value text.now }
{
    points_of(text).unwrap()
}

/// The request of a row whose fields have these texts.
fn request_with<'a>(name: RequestName, texts: Texts<'a>) -> Request<'a>
    requires role { IsTrue (is_role_name (text_at 0 texts.texts)) }
    requires accepted { AreAccepted (row_of name).fields
        (texts_at (row_of name).fields 0 texts.texts) }
    ensures { seen result ≡ record {
      name = name;
      values = meanings (row_of name).fields (texts_at (row_of name).fields 0 texts.entry.texts);
    } }
{
    let [role, first, second, third, fourth, fifth, sixth] = texts.texts;
    let role = role_of(role);
    match name {
        RequestName::Csnbenc => Request::Csnbenc {
            role,
            key: first,
            iv: second,
            pad: third,
            text: fourth,
        },
        RequestName::CsnbencFirst => Request::CsnbencFirst {
            role,
            key: first,
            segment: second,
            iv: third,
            text: fourth,
        },
        RequestName::CsnbencMiddle => Request::CsnbencMiddle {
            role,
            key: first,
            segment: second,
            chain: third,
            text: fourth,
        },
        RequestName::CsnbencLast => Request::CsnbencLast {
            role,
            key: first,
            segment: second,
            chain: third,
            pad: fourth,
            text: fifth,
        },
        RequestName::Csnbdec => Request::Csnbdec {
            role,
            key: first,
            iv: second,
            pad: third,
            text: fourth,
        },
        RequestName::CsnbdecFirst => Request::CsnbdecFirst {
            role,
            key: first,
            segment: second,
            iv: third,
            text: fourth,
        },
        RequestName::CsnbdecMiddle => Request::CsnbdecMiddle {
            role,
            key: first,
            segment: second,
            chain: third,
            text: fourth,
        },
        RequestName::CsnbdecLast => Request::CsnbdecLast {
            role,
            key: first,
            segment: second,
            chain: third,
            pad: fourth,
            text: fifth,
        },
        RequestName::Csnbmgn => Request::Csnbmgn {
            role,
            key: first,
            rule: second,
            length: third,
            text: fourth,
        },
        RequestName::CsnbmgnFirst => Request::CsnbmgnFirst {
            role,
            key: first,
            rule: second,
            segment: third,
            text: fourth,
        },
        RequestName::CsnbmgnMiddle => Request::CsnbmgnMiddle {
            role,
            key: first,
            rule: second,
            segment: third,
            chain: fourth,
            text: fifth,
        },
        RequestName::CsnbmgnLast => Request::CsnbmgnLast {
            role,
            key: first,
            rule: second,
            segment: third,
            length: fourth,
            chain: fifth,
            text: sixth,
        },
        RequestName::Csnbmvr => Request::Csnbmvr {
            role,
            key: first,
            rule: second,
            mac: third,
            text: fourth,
        },
        RequestName::CsnbmvrFirst => Request::CsnbmvrFirst {
            role,
            key: first,
            rule: second,
            segment: third,
            text: fourth,
        },
        RequestName::CsnbmvrMiddle => Request::CsnbmvrMiddle {
            role,
            key: first,
            rule: second,
            segment: third,
            chain: fourth,
            text: fifth,
        },
        RequestName::CsnbmvrLast => Request::CsnbmvrLast {
            role,
            key: first,
            rule: second,
            segment: third,
            mac: fourth,
            chain: fifth,
            text: sixth,
        },
        RequestName::Csnbktp => Request::Csnbktp { role, token: first },
        RequestName::Csnbkyt => Request::Csnbkyt { role, key: first },
        RequestName::Csnbcki => Request::Csnbcki {
            role,
            clear: first,
            to: second,
        },
        RequestName::Csnbrng => Request::Csnbrng { role, form: first },
        RequestName::CsnbkgnOp => Request::CsnbkgnOp {
            role,
            form: first,
            length: second,
            type1: type_of(third),
            to: fourth,
        },
        RequestName::CsnbkgnPair => Request::CsnbkgnPair {
            role,
            form: first,
            length: second,
            type1: type_of(third),
            type2: type_of(fourth),
            transport2: fifth,
            to: sixth,
        },
        RequestName::CsnbkgnOut => Request::CsnbkgnOut {
            role,
            form: first,
            length: second,
            type1: type_of(third),
            type2: type_of(fourth),
            transport1: fifth,
            transport2: sixth,
        },
        RequestName::Csnbkim => Request::Csnbkim {
            role,
            token: first,
            transport: second,
            to: third,
        },
        RequestName::Csnbkex => Request::Csnbkex {
            role,
            key: first,
            transport: second,
        },
        RequestName::Csnbpex => Request::Csnbpex {
            role,
            key: first,
            to: second,
        },
        RequestName::Csnbktc => Request::Csnbktc {
            role,
            rule: first,
            token: second,
        },
        RequestName::CsnbkpiFirst => Request::CsnbkpiFirst {
            role,
            rule: first,
            kind: type_of(second),
            part: third,
            to: fourth,
        },
        RequestName::CsnbkpiMiddle => Request::CsnbkpiMiddle {
            role,
            rule: first,
            key: second,
            part: third,
            to: fourth,
        },
        RequestName::Csnbktr => Request::Csnbktr {
            role,
            token: first,
            transport1: second,
            transport2: third,
        },
        RequestName::Csnbkrc => Request::Csnbkrc { role, label: first },
        RequestName::Csnbkrw => Request::Csnbkrw {
            role,
            label: first,
            token: second,
        },
        RequestName::Csnbkrr => Request::Csnbkrr { role, label: first },
        RequestName::Csnbkrd => Request::Csnbkrd { role, label: first },
        RequestName::Csnbkrl => Request::Csnbkrl {
            role,
            prefix: first,
        },
        RequestName::CsnbmkpPart => Request::CsnbmkpPart {
            role,
            action: first,
            part: second,
        },
        RequestName::CsnbmkpClear => Request::CsnbmkpClear {
            role,
            action: first,
        },
        RequestName::CsnbmkpSet => Request::CsnbmkpSet {
            role,
            action: first,
        },
        RequestName::CsuaaciDefine => Request::CsuaaciDefine {
            role,
            action: first,
            name: role_of(second),
            points: points_in(third),
        },
        RequestName::CsuaaciRemove => Request::CsuaaciRemove {
            role,
            action: first,
            name: role_of(second),
        },
        RequestName::Reencipher => Request::Reencipher { role },
        RequestName::ReencipherAhead => Request::ReencipherAhead {
            role,
            action: first,
        },
        RequestName::ReencipherDrop => Request::ReencipherDrop {
            role,
            action: first,
        },
    }
}

/// The request of the row, whose verb and fields these are.
fn request_of_row<'a>(form: &RowForm, verb: &[u8], words: Words<'a>) -> Option<Request<'a>>
    requires { IsRow form.now }
    ensures { seen_option result ≡ request_in (row_name form.now) (verb.now ∷ unread words.entry) }
{
    if verb == form.verb {
        Some(request_with(form.name, words.texts(form.fields)?))
    } else {
        None
    }
}

/// The request of the first of the rows whose verb and fields these are.
fn first_of<'a>(rows: &[RowForm], verb: &[u8], words: Words<'a>) -> Option<Request<'a>>
    requires { AreRows rows.now }
    ensures { seen_option result
        ≡ first_request (map row_name rows.now) (verb.now ∷ unread words.entry) }
{
    for form in rows {
        if let Some(request) = request_of_row(form, verb, words) {
            return Some(request);
        }
    }
    None
}

/// The seventh letter of a verb, or zero.
fn seventh_letter(verb: &[u8]) -> u8
    ensures { result ≡ get_or verb.now 6 0 }
{
    verb.get(6).copied().unwrap_or(0)
}

/// The request that the line spells.
#[tactic(auto, unfolding(crate::specs::Requests::request_of))]
fn request_in_line(line: &[u8]) -> Option<Request<'_>>
    ensures { seen_option result ≡ request_of line.now }
{
    let mut words = Words::of(line);
    let verb = words.next()?;
    first_of(rows_with(seventh_letter(verb)), verb, words)
}

/// The request that the line spells, or that it spells none.
fn parsed(line: &[u8]) -> Result<Request<'_>, FormFault>
    ensures { answered result ≡ request_of line.now }
{
    match request_in_line(line) {
        Some(request) => Ok(request),
        None => Err(FormFault),
    }
}

/// Parses a request line, of which the newline is not a part: a request where the line spells one, and else FormFault.
/// The bytes of each field of the request are those of the part of the line that holds its value.
pub fn parse_request(line: &[u8]) -> Result<Request<'_>, FormFault>
    ensures exact { answered result ≡ request_of line.now }
    ensures found { IfOk result (λ request. Spells (seen request) line.now) }
    ensures parts { IfOk result (λ request. IsOfParts (seen request) line.now) }
    ensures only { (request : Spelled) → Spells request line.now → answered result ≡ Some request }
{
    parsed(line)
}
