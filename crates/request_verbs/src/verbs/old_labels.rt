//! Labels under the old master key, of which an action may lose none.
ghost use Rattle.std.specs.Prelude.{◌≡◌};
ghost use Rattle.key_cells.specs.Bench.{Bench};
ghost use Rattle.record_bodies.specs.Ages.{any_old};
ghost use Rattle.master_registers.specs.Loaded.{Loaded};
ghost use Rattle.cca_machine.specs.State.{State};
ghost use Rattle.cca_machine.specs.Deciding.{IsRecorded};

use key_records::Records;
use master_registers::Registers;

/// Whether a label is under the old master key. It goes over the labels once.
pub(super) fn any_old(held: &Registers, records: &Records) -> bool
    ensures old { (s : State) (bench : Bench) → Loaded s.registers held.now bench
        → IsRecorded s records.now → result ≡ any_old s.labels }
{
    match held.old_pattern {
        Some(pattern) => records.any_under(&pattern),
        None => false,
    }
}
