//! Labels of keys, and names of roles.
ghost use Rattle.std.specs.Prelude.{◌≡◌, length, nat_le};
ghost use Rattle.std.specs.List.{list_all};
ghost use Rattle.cca_roles.specs.Characters.{is_label_byte};
ghost use Rattle.cca_roles.specs.Names.{starts_label, is_label, is_name_byte, starts_name, is_role_name};

use crate::characters::{is_digit, is_label_byte, is_letter};

/// Whether it is a label: 1 to 64 characters of A to Z, 0 to 9, `#`, `$`, `@` and period, of which the first is no digit
/// and no period.
#[tactic(auto, unfolding(crate::specs::Names::is_label))]
pub fn is_label(text: &[u8]) -> bool
    ensures { result ≡ is_label text.now }
{
    starts_label(text) && is_at_most(text, 64) && are_label_bytes(text)
}

/// Whether it is the name of a role: 1 to 8 characters of A to Z and 0 to 9, of which the first is a letter.
#[tactic(auto, unfolding(crate::specs::Names::is_role_name))]
pub fn is_role_name(text: &[u8]) -> bool
    ensures { result ≡ is_role_name text.now }
{
    starts_name(text) && is_at_most(text, 8) && are_name_bytes(text)
}

fn is_at_most(text: &[u8], most: usize) -> bool
    ensures { result ≡ nat_le (length text.now) most }
{
    text.len() <= most
}

fn starts_label(text: &[u8]) -> bool
    ensures { result ≡ starts_label text.now }
{
    !text.is_empty() && !(is_digit(text[0]) || text[0] == b'.')
}

fn are_label_bytes(text: &[u8]) -> bool
    ensures { result ≡ list_all is_label_byte text.now }
{
    text.iter().all(|c| is_label_byte(*c))
}

fn starts_name(text: &[u8]) -> bool
    ensures { result ≡ starts_name text.now }
{
    !text.is_empty() && is_letter(text[0])
}

fn is_name_byte(c: u8) -> bool
    ensures { result ≡ is_name_byte c }
{
    is_letter(c) || is_digit(c)
}

fn are_name_bytes(text: &[u8]) -> bool
    ensures { result ≡ list_all is_name_byte text.now }
{
    text.iter().all(|c| is_name_byte(*c))
}
