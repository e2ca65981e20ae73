//! What a request says of itself: its verb, its role, and the first label that it names. Printed it shows its verb.
ghost use Rattle.std.specs.Prelude.{◌≡◌, ◌⊎◌, None, Some, IfSome, true, codes, length, option_copied};
ghost use Rattle.std.specs.Option.{option_or};
ghost use Rattle.std.specs.List.{list_all};
ghost use Rattle.cca_roles.specs.Characters.{is_letter};
ghost use Rattle.cca_roles.specs.Names.{IsLabel, IsRoleName};
ghost use Rattle.verb_script.specs.Grammar.{row_of, value_of};
ghost use Rattle.verb_script.specs.Named.{label_named};
ghost use Rattle.verb_script.specs.Parsed.{seen};
ghost use Rattle.verb_script.specs.Parts.{Says, as_label, first_label};

use crate::labels::named_label;
use crate::request::Request;
use cca_roles::{RoleName, is_label};
use std::fmt;

/// What may name the first label of a request.
#[derive(Clone, Copy)]
enum Named<'a> {
    /// What stands where a label is wanted.
    Label(&'a [u8]),
    /// Two fields that may name a key by its label, of which those that the request doesn't have are empty.
    Keys(&'a [u8], &'a [u8]),
}

/// What a request says of itself.
#[derive(Clone, Copy)]
struct Parts<'a> {
    verb: &'static str,
    role: &'a RoleName,
    named: Named<'a>,
}

/// It names no label.
fn plain<'a>(verb: &'static str, role: &'a RoleName) -> Parts<'a>
    ensures { Says verb.now role.now None result }
{
    Parts {
        verb,
        role,
        named: Named::Keys(b"", b""),
    }
}

/// It names a label.
fn of_label<'a>(verb: &'static str, role: &'a RoleName, label: &'a [u8]) -> Parts<'a>
    ensures { Says verb.now role.now (option_or (as_label (Some label.now)) None) result }
{
    Parts {
        verb,
        role,
        named: Named::Label(label),
    }
}

/// One of its fields may name a key by its label.
fn of_key<'a>(verb: &'static str, role: &'a RoleName, key: &'a [u8]) -> Parts<'a>
    ensures { Says verb.now role.now (option_or (as_label (label_named key.now)) None) result }
{
    Parts {
        verb,
        role,
        named: Named::Keys(key, b""),
    }
}

/// Two of its fields may.
fn of_keys<'a>(
    verb: &'static str,
    role: &'a RoleName,
    first: &'a [u8],
    second: &'a [u8],
) -> Parts<'a>
    ensures { Says verb.now role.now (option_or (as_label (label_named first.now))
        (option_or (as_label (label_named second.now)) None)) result }
{
    Parts {
        verb,
        role,
        named: Named::Keys(first, second),
    }
}

impl<'a> Request<'a> {
    /// The table.
    fn parts(&self) -> Parts<'_>
        ensures { Says (row_of (seen self.now).name).verb (value_of (seen self.now) (codes "role"))
            (first_label (seen self.now)) result }
    {
        match self {
            Request::Csnbktp { role, .. } => plain("CSNBKTP", role),
            Request::Csnbenc { role, key, .. }
            | Request::CsnbencFirst { role, key, .. }
            | Request::CsnbencMiddle { role, key, .. }
            | Request::CsnbencLast { role, key, .. } => of_key("CSNBENC", role, key),
            Request::Csnbdec { role, key, .. }
            | Request::CsnbdecFirst { role, key, .. }
            | Request::CsnbdecMiddle { role, key, .. }
            | Request::CsnbdecLast { role, key, .. } => of_key("CSNBDEC", role, key),
            Request::Csnbmgn { role, key, .. }
            | Request::CsnbmgnFirst { role, key, .. }
            | Request::CsnbmgnMiddle { role, key, .. }
            | Request::CsnbmgnLast { role, key, .. } => of_key("CSNBMGN", role, key),
            Request::Csnbmvr { role, key, .. }
            | Request::CsnbmvrFirst { role, key, .. }
            | Request::CsnbmvrMiddle { role, key, .. }
            | Request::CsnbmvrLast { role, key, .. } => of_key("CSNBMVR", role, key),
            Request::Csnbkyt { role, key } => of_key("CSNBKYT", role, key),
            Request::Csnbcki { role, to, .. } => of_key("CSNBCKI", role, to),
            Request::Csnbrng { role, .. } => plain("CSNBRNG", role),
            Request::CsnbkgnOp { role, to, .. } => of_key("CSNBKGN", role, to),
            Request::CsnbkgnPair {
                role,
                transport2,
                to,
                ..
            } => of_keys("CSNBKGN", role, transport2, to),
            Request::CsnbkgnOut {
                role,
                transport1,
                transport2,
                ..
            } => of_keys("CSNBKGN", role, transport1, transport2),
            Request::Csnbkim {
                role,
                transport,
                to,
                ..
            } => of_keys("CSNBKIM", role, transport, to),
            Request::Csnbkex {
                role,
                key,
                transport,
            } => of_keys("CSNBKEX", role, key, transport),
            Request::Csnbpex { role, key, to } => of_keys("CSNBPEX", role, key, to),
            Request::Csnbktc { role, .. } => plain("CSNBKTC", role),
            Request::CsnbkpiFirst { role, to, .. } => of_key("CSNBKPI", role, to),
            Request::CsnbkpiMiddle { role, key, to, .. } => of_keys("CSNBKPI", role, key, to),
            Request::Csnbktr {
                role,
                transport1,
                transport2,
                ..
            } => of_keys("CSNBKTR", role, transport1, transport2),
            Request::Csnbkrc { role, label } => of_label("CSNBKRC", role, label),
            Request::Csnbkrw { role, label, .. } => of_label("CSNBKRW", role, label),
            Request::Csnbkrr { role, label } => of_label("CSNBKRR", role, label),
            Request::Csnbkrd { role, label } => of_label("CSNBKRD", role, label),
            Request::Csnbkrl { role, .. } => plain("CSNBKRL", role),
            Request::CsnbmkpPart { role, .. }
            | Request::CsnbmkpClear { role, .. }
            | Request::CsnbmkpSet { role, .. } => plain("CSNBMKP", role),
            Request::CsuaaciDefine { role, .. } | Request::CsuaaciRemove { role, .. } => plain(
                "CSUAACI", role,
            ),
            Request::Reencipher { role }
            | Request::ReencipherAhead { role, .. }
            | Request::ReencipherDrop { role, .. } => plain("REENCIPHER", role),
        }
    }

    /// Its verb, 7 or 10 letters.
    pub fn verb(&self) -> &str
        ensures verb { result.now ≡ (row_of (seen self.now).name).verb }
        ensures letters { list_all is_letter result.now ≡ true }
        ensures size { (length result.now ≡ 7) ⊎ (length result.now ≡ 10) }
    {
        self.parts().verb
    }

    /// The name of its role, 1 to 8 characters.
    pub fn role(&self) -> &[u8]
        ensures role { result.now ≡ value_of (seen self.now) (codes "role") }
        ensures name { IsRoleName result.now }
    {
        self.role_name().text()
    }

    /// Its role.
    pub fn role_name(&self) -> &RoleName
        ensures { result.now ≡ value_of (seen self.now) (codes "role") }
    {
        self.parts().role
    }

    /// The first label that it names, in the order of its fields. What stands where a label is wanted and isn't one
    /// names none, and neither does the prefix of a list.
    pub fn first_label(&self) -> Option<&[u8]>
        ensures first { option_copied result ≡ first_label (seen self.now) }
        ensures label { IfSome result (λ text. IsLabel text.now) }
    {
        match self.parts().named {
            Named::Label(label) => if_label(label),
            Named::Keys(first, second) => first_in(first, second),
        }
    }
}

/// The verb alone: a field may be a clear key.
impl fmt::Debug for Request<'_> {
    ghost debug_output = { λ request. Some (row_of (seen request).name).verb };

    fn fmt<W: fmt::Write>(&self, f: &mut fmt::Formatter<W>) -> fmt::Result {
        f.write_str(self.verb())
    }
}

/// The text, where it is a label.
fn if_label(text: &[u8]) -> Option<&[u8]>
    ensures text { option_copied result ≡ as_label (Some text.now) }
    ensures label { IfSome result (λ found. IsLabel found.now) }
{
    if is_label(text) { Some(text) } else { None }
}

/// The label that a field names, which may be a key or where a key goes.
fn label_in(text: &[u8]) -> Option<&[u8]>
    ensures text { option_copied result ≡ as_label (label_named text.now) }
    ensures label { IfSome result (λ found. IsLabel found.now) }
{
    match named_label(text) {
        Some(label) => if_label(label),
        None => None,
    }
}

/// The first of the labels that two fields name.
fn first_in<'a>(one: &'a [u8], other: &'a [u8]) -> Option<&'a [u8]>
    ensures text { option_copied result
        ≡ option_or (as_label (label_named one.now)) (as_label (label_named other.now)) }
    ensures label { IfSome result (λ found. IsLabel found.now) }
{
    match label_in(one) {
        Some(label) => Some(label),
        None => label_in(other),
    }
}
