//! The rules of a role: whether it is held, the access control points that it has, and the master key.
ghost use Rattle.std.specs.Prelude.{◌≡◌, IsNone, IsSome, IsTrue};
ghost use Rattle.std.specs.Option.{option_map};
ghost use Rattle.cca_roles.specs.Roles.{points_of};
ghost use Rattle.cca_vectors.specs.Checks.{first_failing};
ghost use Rattle.key_cells.specs.Bench.{Bench};
ghost use Rattle.master_registers.specs.Loaded.{Loaded};
ghost use Rattle.verb_rules.specs.Rules.{rule_number};
ghost use Rattle.cca_machine.specs.State.{State};
ghost use Rattle.cca_machine.specs.Verdict.{checks_of_role};

use cca_roles::{AccessPoints, RoleName, Roles};
use master_registers::Registers;
use verb_rules::Rule;

/// The first of rules 03, 04 and 05 that fails: the role isn't held, lacks one of the access control points that it needs,
/// or needs the current master key where that register is empty.
pub fn role_rule(
    role: &RoleName,
    points: AccessPoints,
    needs_master: bool,
    held: &Registers,
    roles: &Roles,
) -> Option<Rule>
    ensures rule { (s : State) (bench : Bench) → roles.now ≡ s.roles
        → Loaded s.registers held.now bench
        → option_map rule_number result
        ≡ first_failing (checks_of_role s (points_of role.now s.roles) points needs_master) }
    ensures master { IsNone result → IsTrue needs_master → IsSome held.now.current_pattern }
{
    match roles.permits(role, points) {
        None => Some(Rule::Role),
        Some(false) => Some(Rule::Point),
        Some(true) if needs_master && held.current_pattern.is_none() => Some(Rule::MasterKey),
        Some(true) => None,
    }
}
