//! A disk of a fixed size, and what a stop may leave of it.
ghost use Rattle.std.specs.Prelude.{◌≡◌, ◌+◌, ◌≤◌, ℕ, length, slice_range, OnOk};
ghost use Rattle.device_cells.specs.Cells.{body_size};
ghost use Rattle.device_cells.specs.Faults.{HasCause};
ghost use Rattle.device_cells.specs.Medium.{Medium, Told, IsSettled, After, Becomes, EachImage, Keeps};
ghost use Rattle.device_cells.specs.Ranges.{SameOutside, HoldsPiece};

use crate::Failed;

/// A disk of a fixed size. What was written since the last sync that succeeded may be torn by a
/// stop: each range that was written may then hold any bytes, and all other bytes stay.
pub trait Disk {
    /// What the disk holds, and what a stop may leave of it.
    ghost medium: { Self → Medium };

    /// How often it has failed, as the calls that answered `Failed` count it. The count stops at
    /// `u64::MAX`: one that stands there counts as risen at each failure.
    ghost faults: { Self → ℕ };

    /// How many bytes it has.
    fn size(&self) -> u64
        ensures { result ≡ (medium self.now).size };

    /// Fills `out` with the bytes from `at` on. After `Failed` it may hold any bytes.
    fn read(&mut self, at: u64, out: &mut [u8]) -> Result<(), Failed>
        requires { at + length out.old ≤ (medium self.old).size }
        ensures bytes { OnOk result (Told (medium self.old) (λ c.
            out.new ≡ slice_range c at (at + length out.new))) }
        ensures keeps { Keeps (medium self.old) (medium self.new) }
        ensures cause { HasCause (faults self.old) (faults self.new) result }
        ensures quiet { OnOk result (faults self.new ≡ faults self.old) };

    /// Puts `piece`, which is no longer than a body, in the place from `at` on. After `Failed` that
    /// range may hold any bytes.
    fn write(&mut self, at: u64, piece: &[u8]) -> Result<(), Failed>
        requires within { at + length piece.now ≤ (medium self.old).size }
        requires short { length piece.now ≤ body_size }
        ensures bytes { OnOk result
            (Becomes (HoldsPiece at piece.now) (medium self.old) (medium self.new)) }
        ensures outside { Becomes (SameOutside at (length piece.now))
            (medium self.old) (medium self.new) }

        // A stop at any moment of the call leaves what it might have left before, but for the
        // range.
        ensures moments { EachImage (medium self.old) (medium self.new)
            (After (SameOutside at (length piece.now)) (medium self.old).images) }
        ensures cause { HasCause (faults self.old) (faults self.new) result }
        ensures quiet { OnOk result (faults self.new ≡ faults self.old) };

    /// After `Ok` a stop leaves what a read gives.
    fn sync(&mut self) -> Result<(), Failed>
        ensures settled { OnOk result (IsSettled (medium self.new)) }
        ensures content { (medium self.new).content ≡ (medium self.old).content }
        ensures moments { EachImage (medium self.old) (medium self.new) (medium self.old).images }
        ensures cause { HasCause (faults self.old) (faults self.new) result }
        ensures quiet { OnOk result (faults self.new ≡ faults self.old) };
}
