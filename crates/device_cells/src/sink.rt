//! Where bytes go.
ghost use Rattle.std.specs.Prelude.{◌≡◌, ℕ, ◌<◌, List, Option, length, IfOk, OnOk};
ghost use Rattle.std.specs.Io.{WritesAtMost};
ghost use Rattle.std.specs.Io.KnownBytes.{WriteAppends};
ghost use Rattle.device_cells.specs.Faults.{HasCause};

use crate::Failed;

/// A place that takes bytes one after the other, and that may fail at any call.
pub trait Sink {
    /// The bytes taken so far, where the sink tells them.
    ghost held: { Self → Option (List ℕ) };

    /// How often it has failed, as the calls that answered `Failed` count it. The count stops at
    /// `u64::MAX`: one that stands there counts as risen at each failure.
    ghost faults: { Self → ℕ };

    /// Takes bytes from the front of `piece`, and answers how many: at least one, unless `piece` is
    /// empty. After `Failed` the bytes taken are as before.
    fn write(&mut self, piece: &[u8]) -> Result<usize, Failed>
        ensures bound { WritesAtMost result piece.now }
        ensures bytes { WriteAppends (held self.old) (held self.new) result piece.now }
        ensures some { IfOk result (λ n. 0 < length piece.now → 0 < n) }
        ensures cause { HasCause (faults self.old) (faults self.new) result }
        ensures quiet { OnOk result (faults self.new ≡ faults self.old) };
}
