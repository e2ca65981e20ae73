//! The rules of a request as a whole: its role, the access control points that it needs, and the master key.
ghost use Rattle.std.specs.Prelude.{◌≡◌, IsSome, IsNone, IsTrue};
ghost use Rattle.std.specs.Option.{option_map};
ghost use Rattle.cca_vectors.specs.Checks.{first_failing};
ghost use Rattle.key_cells.specs.Bench.{Bench};
ghost use Rattle.master_registers.specs.Loaded.{Loaded};
ghost use Rattle.verb_rules.specs.Rules.{rule_number};
ghost use Rattle.verb_script.specs.Parsed.{seen};
ghost use Rattle.cca_machine.specs.State.{State};
ghost use Rattle.cca_machine.specs.Verdict.{needs_master, general_checks};
ghost use Rattle.cca_machine.specs.Granted.{IsAccepted};

use crate::needed::needed_by;
use crate::role::role_rule;
use cca_roles::Roles;
use master_registers::Registers;
use verb_rules::Rule;
use verb_script::Request;

/// Rules 03, 04 and 05.
pub fn general_rule(request: &Request, held: &Registers, roles: &Roles) -> Option<Rule>
    requires { IsAccepted (seen request.now) }
    ensures rule { (s : State) (bench : Bench) → roles.now ≡ s.roles
        → Loaded s.registers held.now bench
        → option_map rule_number result ≡ first_failing (general_checks s (seen request.now)) }
    ensures master { IsNone result → IsTrue (needs_master (seen request.now).name)
        → IsSome held.now.current_pattern }
{
    let needed = needed_by(request);
    role_rule(
        request.role_name(),
        needed.points,
        needed.master,
        held,
        roles,
    )
}
