//! What changes of a control vector that is made one that forbids export.
ghost use Rattle.std.specs.Prelude.{◌≡◌, ℕ, List, false};
ghost use Rattle.key_cells.specs.Bytes.{is_zero};
ghost use Rattle.cca_vectors.specs.Closing.{closed_to_export};
ghost use Rattle.cca_vectors.specs.ClosedBits.{HasClosed};
ghost use Rattle.cca_vectors.specs.Vectors.{IsValid, left_of, right_of};

/// Of each half of a vector that isn't all zero the export bit is off, the parity bit of its byte is as the parity
/// asks, and every other bit is as it was.
pub fn closing_changes_the_export_bit()
    ensures left { (vector : List ℕ) → IsValid vector → is_zero vector ≡ false
        → HasClosed (left_of vector) (left_of (closed_to_export vector)) }
    ensures right { (vector : List ℕ) → IsValid vector → is_zero vector ≡ false
        → HasClosed (right_of vector) (right_of (closed_to_export vector)) }
{}
