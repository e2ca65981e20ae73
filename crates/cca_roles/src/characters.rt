//! Characters, by their codes.
ghost use Rattle.std.specs.Prelude.{◌≡◌};
ghost use Rattle.cca_roles.specs.Characters.{is_letter, is_digit, is_label_byte};

/// Whether it is a letter, A to Z.
pub fn is_letter(c: u8) -> bool
    ensures { result ≡ is_letter c }
{
    0x41 <= c && c <= 0x5a
}

/// Whether it is a digit, 0 to 9.
pub fn is_digit(c: u8) -> bool
    ensures { result ≡ is_digit c }
{
    0x30 <= c && c <= 0x39
}

/// Whether it may stand in a label: A to Z, 0 to 9, `#`, `$`, `@` or period.
pub fn is_label_byte(c: u8) -> bool
    ensures { result ≡ is_label_byte c }
{
    is_letter(c) || is_digit(c) || c == b'#' || c == b'$' || c == b'@' || c == b'.'
}
