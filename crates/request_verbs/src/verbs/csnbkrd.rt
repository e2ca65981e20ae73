//! CSNBKRD: a label that is held no longer.
ghost use Rattle.std.specs.Prelude.{◌∷◌, [], ℕ, IsSome, List, Option};
ghost use Rattle.key_cells.specs.declared.leases.Lease.{Lease};
ghost use Rattle.record_bodies.specs.declared.rows.Row.{Row};
ghost use Rattle.master_registers.specs.declared.registers.Registers.{Registers};
ghost use Rattle.verb_script.specs.declared.rows.RequestName.TheVariants.{Csnbkrd as row};
ghost use Rattle.cca_machine.specs.Decided.{Settles, asked};

use cca_machine::{Effect, Granted, place_in};

/// Leaves the label to be taken away.
pub(crate) fn csnbkrd(granted: &Granted) -> Effect
    requires place { IsSome granted.now.first.place }
    ensures settles { (role label : List ℕ) (held : Registers) (rows : List (Option Row))
        (lease : Lease)
        → Settles (asked row (role ∷ label ∷ [])) granted.now held rows lease lease result [] }
{
    Effect::Delete(place_in(&granted.first))
}
