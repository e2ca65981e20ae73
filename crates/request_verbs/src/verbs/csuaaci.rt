//! CSUAACI: roles with their access control points.
ghost use Rattle.std.specs.Prelude.{◌≢◌, ◌∷◌, [], ℕ, List, Option};
ghost use Rattle.std.specs.Int.{to_be_bytes, w32};
ghost use Rattle.cca_roles.specs.RoleNames.{default_name};
ghost use Rattle.key_cells.specs.declared.leases.Lease.{Lease};
ghost use Rattle.record_bodies.specs.declared.rows.Row.{Row};
ghost use Rattle.master_registers.specs.declared.registers.Registers.{Registers};
ghost use Rattle.verb_script.specs.declared.rows.RequestName.TheVariants.{CsuaaciDefine, CsuaaciRemove};
ghost use Rattle.cca_machine.specs.Decided.{Settles, asked};
ghost use Rattle.cca_machine.specs.declared.granted.Granted.{Granted};

use cca_machine::Effect;
use cca_roles::{AccessPoints, RoleName};

/// DEFINE: leaves the role to get these points.
pub(crate) fn define(name: &RoleName, points: &AccessPoints) -> Effect
    ensures settles { (role action : List ℕ) (granted : Granted) (held : Registers)
        (rows : List (Option Row)) (lease : Lease)
        → Settles (asked CsuaaciDefine (role ∷ action ∷ name.now ∷ to_be_bytes w32 points.now
        ∷ []))
        granted held rows lease lease result [] }
{
    let _number = points.bits();
    Effect::DefineRole(*name, *points)
}

/// REMOVE: leaves the role to be held no longer.
pub(crate) fn remove(name: &RoleName) -> Effect
    requires name { name.now ≢ default_name }
    ensures settles { (role action : List ℕ) (granted : Granted) (held : Registers)
        (rows : List (Option Row)) (lease : Lease)
        → Settles (asked CsuaaciRemove (role ∷ action ∷ name.now ∷ []))
        granted held rows lease lease result [] }
{
    Effect::RemoveRole(*name)
}
