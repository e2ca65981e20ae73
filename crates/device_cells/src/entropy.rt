//! Where random bytes come from.
ghost use Rattle.std.specs.Prelude.{◌≡◌, ℕ, List, Option, OnOk};
ghost use Rattle.std.specs.Io.KnownBytes.{Consumes};
ghost use Rattle.device_cells.specs.Faults.{HasCause};

use crate::Failed;

/// A stream of random bytes, which may fail at any call.
pub trait Entropy {
    /// The bytes still to come, where the object tells them.
    ghost left: { Self → Option (List ℕ) };

    /// How often it has failed, as the calls that answered `Failed` count it. The count stops at
    /// `u64::MAX`: one that stands there counts as risen at each failure.
    ghost faults: { Self → ℕ };

    /// Fills the whole of `out` with the next bytes. After `Failed` nothing is known of `out`, nor
    /// of the bytes still to come.
    fn fill(&mut self, out: &mut [u8]) -> Result<(), Failed>
        ensures bytes { OnOk result (Consumes (left self.old) (left self.new) out.new) }
        ensures cause { HasCause (faults self.old) (faults self.new) result }
        ensures quiet { OnOk result (faults self.new ≡ faults self.old) };
}
