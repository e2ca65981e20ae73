//! Roles are as they were defined.

ghost use Rattle.std.specs.Prelude.{◌≡◌, ◌≢◌, ℕ, List, Some, None, codes};
ghost use Rattle.cca_machine.specs.Act.{performed};
ghost use Rattle.cca_machine.specs.State.{State};
ghost use Rattle.cca_machine.specs.Verdict.{Refusal, verdict};
ghost use Rattle.cca_roles.specs.RoleNames.{default_name};
ghost use Rattle.cca_roles.specs.Roles.{AreRoles};
ghost use Rattle.verb_script.specs.Grammar.{Request, value_of};
ghost use Rattle.verb_script.specs.declared.rows.RequestName.TheVariants.{CsuaaciDefine, CsuaaciRemove};
ghost use Rattle.role_laws.specs.RolePoints.{ChangesRoleAlone, points_spelled};

/// CSUAACI with DEFINE gives the role that it names exactly the access control points that its digits spell, whatever the role
/// had before; with REMOVE the name is no role any more. Every other name has the points that it had, or is no role as before,
/// and the master key registers and the labels stay. No other request changes what a name has, and none that is refused. The
/// roles stay a table with DEFAULT first and each name once.
pub fn roles_are_as_defined()
    ensures defined { (s : State) (drawn : List ℕ) (r : Request) → AreRoles s.roles
        → r.name ≡ CsuaaciDefine → verdict s drawn r ≡ None
        → ChangesRoleAlone s (performed s drawn r).state (value_of r (codes "name"))
        (Some (points_spelled r)) }
    ensures removed { (s : State) (drawn : List ℕ) (r : Request) → AreRoles s.roles
        → r.name ≡ CsuaaciRemove → verdict s drawn r ≡ None
        → ChangesRoleAlone s (performed s drawn r).state (value_of r (codes "name")) None }
    ensures others { (s : State) (drawn : List ℕ) (r : Request)
        → r.name ≢ CsuaaciDefine → r.name ≢ CsuaaciRemove
        → (performed s drawn r).state.roles ≡ s.roles }
    ensures refused { (s : State) (drawn : List ℕ) (r : Request) (refusal : Refusal)
        → verdict s drawn r ≡ Some refusal → (performed s drawn r).state ≡ s }
    ensures table { (s : State) (drawn : List ℕ) (r : Request) → AreRoles s.roles
        → (r.name ≡ CsuaaciRemove → value_of r (codes "name") ≢ default_name)
        → AreRoles (performed s drawn r).state.roles }
{}
