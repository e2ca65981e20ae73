//! No point, no effect.

ghost use Rattle.std.specs.Prelude.{◌≡◌, ℕ, List, codes, None, Some, false};
ghost use Rattle.cca_machine.specs.Act.{performed, refused};
ghost use Rattle.cca_machine.specs.Lines.{taken_by};
ghost use Rattle.cca_machine.specs.Session.{state_after};
ghost use Rattle.cca_machine.specs.State.{State};
ghost use Rattle.cca_machine.specs.Verdict.{needed_points, refusal};
ghost use Rattle.cca_roles.specs.Points.{includes};
ghost use Rattle.verb_script.specs.Grammar.{Request};
ghost use Rattle.cca_laws.specs.EachLine.{EachRequest};
ghost use Rattle.cca_laws.specs.Points.{HoldsNone, NobodyHolds, ceremony_points, label_points, points_in_table, role_point};

/// A request whose role isn't in the role table, or lacks there a point that the request needs, is refused and changes
/// nothing. Over any lines the role table, the master key registers and the labels with their ages end as they began,
/// where no line's role has a point by which they change at the time of the line; so no lines give a role a point where
/// no role may define one.
pub fn no_point_no_effect()
    ensures no_role { (s : State) (drawn : List ℕ) (r : Request) → points_in_table s r ≡ None
        → performed s drawn r ≡ refused s (refusal 3 (codes "-")) }
    ensures no_point { (s : State) (drawn : List ℕ) (r : Request) (held : ℕ)
        → points_in_table s r ≡ Some held → includes held (needed_points r.name r) ≡ false
        → performed s drawn r ≡ refused s (refusal 4 (codes "-")) }
    ensures roles { (s : State) (random : List ℕ) (lines : List (List ℕ))
        → EachRequest (HoldsNone role_point) s random lines
        → (state_after s random lines).roles ≡ s.roles }
    ensures registers { (s : State) (random : List ℕ) (lines : List (List ℕ))
        → EachRequest (HoldsNone ceremony_points) s random lines
        → (state_after s random lines).registers ≡ s.registers }
    ensures labels { (s : State) (random : List ℕ) (lines : List (List ℕ))
        → EachRequest (HoldsNone label_points) s random lines
        → (state_after s random lines).labels ≡ s.labels }
    ensures nobody { (s : State) (random : List ℕ) (lines : List (List ℕ))
        → NobodyHolds role_point s.roles → (state_after s random lines).roles ≡ s.roles }
{}
