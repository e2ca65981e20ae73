//! The fields of an entry: texts filled with zeros.
ghost use Rattle.std.specs.Prelude.{◌↔◌, ◌≡◌, ◌≤◌, ◌==◌, length, position, IsTrue};
ghost use Rattle.std.specs.List.{list_all, position_or_len};
ghost use Rattle.cca_roles.specs.Characters.{is_letter};
ghost use Rattle.cca_roles.specs.Names.{IsRoleName};
ghost use Rattle.audit_trail.specs.Entries.{IsVerb, HoldsText, HoldsLabel};

use cca_roles::{is_label, is_letter, is_role_name};
use key_cells::is_zero;

/// Where the first zero stands.
fn first_zero(field: &[u8]) -> Option<usize>
    ensures { result ≡ position (λ byte. byte == 0) field.now }
{
    field.iter().position(|byte| *byte == 0)
}

/// How many bytes stand before the first zero.
fn text_length(field: &[u8]) -> usize
    ensures text { result ≡ position_or_len (λ byte. byte == 0) field.now }
    ensures within { result ≤ length field.now }
{
    first_zero(field).unwrap_or(field.len())
}

fn are_letters(text: &[u8]) -> bool
    ensures { result ≡ list_all is_letter text.now }
{
    text.iter().all(|c| is_letter(*c))
}

/// Whether the text is 1 to 10 letters.
fn is_verb(text: &[u8]) -> bool
    ensures { IsTrue result ↔ IsVerb text.now }
{
    if text.is_empty() || text.len() > 10 {
        return false;
    }
    are_letters(text)
}

/// Whether the field is zeros, or the name of a role filled with zeros.
pub(crate) fn holds_role(field: &[u8; 8]) -> bool
    ensures { IsTrue result ↔ HoldsText 8 IsRoleName field.now }
{
    let at = text_length(field);
    is_zero(field) || (is_role_name(&field[..at]) && is_zero(&field[at..]))
}

/// Whether the field is zeros, or a verb of 1 to 10 letters filled with zeros.
pub(crate) fn holds_verb(field: &[u8; 10]) -> bool
    ensures { IsTrue result ↔ HoldsText 10 IsVerb field.now }
{
    let at = text_length(field);
    is_zero(field) || (is_verb(&field[..at]) && is_zero(&field[at..]))
}

/// Whether the field is zeros where the length is 0, or a label of this length filled with zeros.
pub(crate) fn holds_label(length: u8, field: &[u8; 64]) -> bool
    ensures { IsTrue result ↔ HoldsLabel length field.now }
{
    let at = length as usize;
    if at == 0 {
        return is_zero(field);
    }
    if at > 64 {
        return false;
    }
    is_label(&field[..at]) && is_zero(&field[at..])
}
