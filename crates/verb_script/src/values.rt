//! The values that fields accept.
ghost use Rattle.std.specs.Prelude.{◌≡◌, ◌<◌, ℕ, Some, None, get_or, IsTrue, is_some, if◌then◌else◌};
ghost use Rattle.std.specs.Int.{to_be_bytes, from_be_bytes, w32};
ghost use Rattle.std.specs.List.{list_all, list_any};
ghost use Rattle.std.specs.Option.{option_map};
ghost use Rattle.std.specs.Str.{bytes_eq};
ghost use Rattle.cca_roles.specs.Characters.{is_label_byte};
ghost use Rattle.cca_roles.specs.Points.{are_points};
ghost use Rattle.cca_roles.specs.RoleNames.{is_role_name};
ghost use Rattle.cca_vectors.specs.KeyTypes.{type_named};
ghost use Rattle.hex.specs.Hex.{is_hex_digit};
ghost use Rattle.verb_script.specs.Grammar.{accepts, other_role, points, key_text, hex_text, mac_text, part_text, to_text, prefix_text};
ghost use Rattle.verb_script.specs.Named.{is_visible, is_label_text, is_token_text};
ghost use Rattle.verb_script.specs.Values.{is_hex, hex_value};
ghost use Rattle.verb_script.specs.Words.{texts};

use crate::digits::decode;
use crate::labels::named_label;
use cca_roles::{AccessPoints, is_label_byte, is_role_name};
use cca_vectors::KeyType;

/// Whether the text is the name of a role other than DEFAULT.
pub(crate) fn is_other_role(text: &[u8]) -> bool
    ensures { result ≡ accepts other_role text.now }
{
    is_role_name(text) && text != b"DEFAULT".as_slice()
}

/// Whether the text is the name of a key type.
pub(crate) fn is_type(text: &[u8]) -> bool
    ensures { result ≡ is_some (type_named text.now) }
{
    KeyType::read(text).is_some()
}

fn number_of(bytes: &[u8; 4]) -> u32
    ensures number { result ≡ from_be_bytes w32 bytes.now }
    ensures bytes { (i : ℕ) → get_or bytes.now i 0 < 256 }
{
    u32::from_be_bytes(*bytes)
}

/// The points that eight digits spell.
pub(crate) fn points_of(digits: &[u8]) -> Option<AccessPoints>
    requires { IsTrue (is_hex 8 digits.now) }
    ensures { option_map (to_be_bytes w32) result
        ≡ (if are_points (from_be_bytes w32 (hex_value digits.now)) then Some
        (hex_value digits.now) else None) }
{
    let mut bytes = [0; 4];
    decode(digits, &mut bytes);
    AccessPoints::from_bits(number_of(&bytes))
}

/// Whether the text is access control points.
pub(crate) fn are_points(text: &[u8]) -> bool
    ensures { result ≡ accepts points text.now }
{
    is_hex_of(text, 8) && points_of(text).is_some()
}

fn is_hex_byte(byte: u8) -> bool
    ensures { result ≡ is_hex_digit byte }
{
    matches!(byte, b'0'..=b'9' | b'a'..=b'f' | b'A'..=b'F')
}

/// Whether each byte is a digit. All are looked at, also after one that isn't, so that many are at a time.
fn are_hex_digits(text: &[u8]) -> bool
    ensures { result ≡ list_all is_hex_digit text.now }
{
    let mut all = true;
    for byte in text {
        all &= is_hex_byte(*byte);
    }
    all
}

/// Whether the text is exactly so many hexadecimal digits.
pub(crate) fn is_hex_of(text: &[u8], digits: usize) -> bool
    ensures { result ≡ is_hex digits text.now }
{
    text.len() == digits && are_hex_digits(text)
}

/// Whether the text is an even number of hexadecimal digits.
pub(crate) fn is_hex_text(text: &[u8]) -> bool
    ensures { result ≡ accepts hex_text text.now }
{
    text.len() % 2 == 0 && are_hex_digits(text)
}

/// Whether the text is a message authentication code.
pub(crate) fn is_mac(text: &[u8]) -> bool
    ensures { result ≡ accepts mac_text text.now }
{
    is_hex_of(text, 8) || is_hex_of(text, 12) || is_hex_of(text, 16)
}

/// Whether the text is a part of a key.
pub(crate) fn is_part(text: &[u8]) -> bool
    ensures { result ≡ accepts part_text text.now }
{
    is_hex_of(text, 16) || is_hex_of(text, 32)
}

fn is_visible(c: u8) -> bool
    ensures { result ≡ is_visible c }
{
    0x21 <= c && c <= 0x7e
}

fn are_visible(text: &[u8]) -> bool
    ensures { result ≡ list_all is_visible text.now }
{
    text.iter().all(|c| is_visible(*c))
}

/// Whether the text may stand where a label is wanted.
pub(crate) fn is_label_text(text: &[u8]) -> bool
    ensures { result ≡ is_label_text text.now }
{
    !text.is_empty() && are_visible(text)
}

/// Whether the text gives a key by its token.
fn is_token_text(text: &[u8]) -> bool
    ensures { result ≡ is_token_text text.now }
{
    match text {
        [b'T', b':', digits @ ..] => is_hex_of(digits, 128),
        _ => false,
    }
}

/// Whether the text is a key, by its token or by its label.
pub(crate) fn is_key(text: &[u8]) -> bool
    ensures { result ≡ accepts key_text text.now }
{
    is_token_text(text) || named_label(text).is_some()
}

/// Whether the text says where a key goes.
pub(crate) fn is_to(text: &[u8]) -> bool
    ensures { result ≡ accepts to_text text.now }
{
    text == b"-".as_slice() || named_label(text).is_some()
}

fn are_label_bytes(text: &[u8]) -> bool
    ensures { result ≡ list_all is_label_byte text.now }
{
    text.iter().all(|c| is_label_byte(*c))
}

/// Whether the text is what labels may begin with.
pub(crate) fn is_prefix(text: &[u8]) -> bool
    ensures { result ≡ accepts prefix_text text.now }
{
    text.len() <= 64 && are_label_bytes(text)
}

fn has_same(text: &[u8], choices: &[&[u8]]) -> bool
    ensures { result ≡ list_any (λ choice. bytes_eq text.now choice.now) choices.now }
{
    choices.iter().any(|choice| text == *choice)
}

/// Whether the text is one of the choices.
pub(crate) fn is_one_of(text: &[u8], choices: &[&[u8]]) -> bool
    ensures { result ≡ list_any (bytes_eq text.now) (texts choices.now) }
{
    has_same(text, choices)
}
