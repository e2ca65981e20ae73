//! Where bytes come from.
ghost use Rattle.std.specs.Prelude.{◌≡◌, ℕ, List, Option, OnOk};
ghost use Rattle.std.specs.Io.{ReadsAtMost};
ghost use Rattle.std.specs.Io.KnownBytes.{ReadConsumes};
ghost use Rattle.device_cells.specs.Faults.{HasCause};

use crate::Failed;

/// A stream of bytes that ends, and that may fail at any call.
pub trait Source {
    /// The bytes still to come, where the source tells them.
    ghost left: { Self → Option (List ℕ) };

    /// How often it has failed, as the calls that answered `Failed` count it. The count stops at
    /// `u64::MAX`: one that stands there counts as risen at each failure.
    ghost faults: { Self → ℕ };

    /// Puts the next bytes at the front of `out`, and answers how many. 0 for an `out` that isn't
    /// empty is the end of the stream. After `Failed` the bytes still to come are as before.
    fn read(&mut self, out: &mut [u8]) -> Result<usize, Failed>
        ensures bound { ReadsAtMost result out.new }
        ensures bytes { ReadConsumes (left self.old) (left self.new) result out.new }
        ensures cause { HasCause (faults self.old) (faults self.new) result }
        ensures quiet { OnOk result (faults self.new ≡ faults self.old) };
}
