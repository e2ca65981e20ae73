//! Counting faults.
ghost use Rattle.std.specs.Prelude.{◌≡◌, ◌≤◌};
ghost use Rattle.device_cells.specs.Faults.{one_more, Rose};

/// Counts one fault more. The count stops at `u64::MAX`.
pub fn count_one(faults: &mut u64)
    ensures count { faults.new ≡ one_more faults.old }
    ensures later { faults.old ≤ faults.new }
    ensures cause { Rose faults.old faults.new }
{
    *faults = faults.saturating_add(1);
}
