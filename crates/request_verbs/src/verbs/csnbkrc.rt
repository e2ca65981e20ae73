//! CSNBKRC: a label that is held from now on.
ghost use Rattle.std.specs.Prelude.{◌∷◌, [], ℕ, List, Option};
ghost use Rattle.key_cells.specs.declared.leases.Lease.{Lease};
ghost use Rattle.record_bodies.specs.Labels.{IsLabel};
ghost use Rattle.record_bodies.specs.declared.rows.Row.{Row};
ghost use Rattle.master_registers.specs.declared.registers.Registers.{Registers};
ghost use Rattle.verb_script.specs.declared.rows.RequestName.TheVariants.{Csnbkrc as row};
ghost use Rattle.cca_machine.specs.Decided.{Settles, asked};
ghost use Rattle.cca_machine.specs.declared.granted.Granted.{Granted};

use cca_machine::Effect;
use key_records::Label;

/// Leaves the label to be held.
pub(crate) fn csnbkrc(label: &[u8]) -> Effect
    requires label { IsLabel label.now }
    ensures settles { (role : List ℕ) (granted : Granted) (held : Registers)
        (rows : List (Option Row)) (lease : Lease)
        → Settles (asked row (role ∷ label.now ∷ [])) granted held rows lease lease result [] }
{
    Effect::Create(Label::of(label))
}
