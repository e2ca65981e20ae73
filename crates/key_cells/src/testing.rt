//! Tests on lists of bytes.
ghost use Rattle.std.specs.Prelude.{◌≡◌, ◌↔◌, IsTrue};
ghost use Rattle.key_cells.specs.Bytes.{IsZero};
ghost use Rattle.key_cells.specs.Bytes as lists;

/// Whether each byte is zero.
pub fn is_zero(bytes: &[u8]) -> bool
    ensures value { result ≡ lists.is_zero bytes.now }
    ensures zero { IsTrue result ↔ IsZero bytes.now }
{
    bytes.iter().all(|byte| *byte == 0)
}
