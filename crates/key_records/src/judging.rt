//! Whether the store may be prepared for the new master key.
ghost use Rattle.std.specs.Prelude.{◌≡◌, ◌||◌, false};
ghost use Rattle.key_cells.specs.Lease.{bench_of};
ghost use Rattle.master_registers.specs.Loaded.{IsLoaded, Loaded};
ghost use Rattle.master_registers.specs.Masters.{Masters, has_pattern_of};
ghost use Rattle.master_registers.specs.declared.registers.NewState.{NewState};
ghost use Rattle.verb_rules.specs.Ready.{IsReadyAhead};

use key_cells::{Lease, MasterPlace};
use master_registers::{Registers, has_pattern, pattern_of};

/// Whether the full new master key has the pattern of the current one or of a full old one.
pub fn is_taken(lease: &Lease, held: &Registers) -> bool
    requires full { held.now.new_state ≡ NewState.Full }
    ensures taken { (m : Masters) → Loaded m held.now (bench_of lease.now)
        → result ≡ (has_pattern_of m.coming m.current || has_pattern_of m.coming m.former) }
    ensures ready { IsLoaded held.now (bench_of lease.now) → result ≡ false
        → IsReadyAhead held.now (bench_of lease.now) }
{
    let coming = pattern_of(lease, MasterPlace::New);
    has_pattern(held.current_pattern, &coming) || has_pattern(held.old_pattern, &coming)
}
