//! CSNBKTC: a token changed to another master key.
ghost use Rattle.std.specs.Prelude.{◌≡◌, ◌∷◌, [], ℕ, IsSome, List, Option};
ghost use Rattle.record_bodies.specs.declared.rows.Row.{Row};
ghost use Rattle.verb_script.specs.declared.rows.RequestName.TheVariants.{Csnbktc as row};
ghost use Rattle.cca_machine.specs.Decided.{Settles, asked};
ghost use Rattle.cca_machine.specs.Granted.{HasSomeJudged};

use cca_machine::{Effect, Granted, Refusal, key_in, target_of};
use key_cells::Lease;
use key_transport::{Target, token_change};
use master_registers::{NewState, Registers};
use verb_rules::Rule;
use verb_script::ReplyBuffer;

/// Shows the token of a key under another master key, or is refused where that is the new one and
/// its register isn't full.
pub(crate) fn csnbktc(
    granted: &Granted,
    rule: &[u8],
    lease: &mut Lease,
    held: &Registers,
    reply: &mut ReplyBuffer,
) -> Effect
    requires key { HasSomeJudged granted.now.first }
    requires master { IsSome held.now.current_pattern }
    requires empty { reply.old ≡ [] }
    ensures settles { (role token : List ℕ) (rows : List (Option Row))
        → Settles (asked row (role ∷ rule.now ∷ token ∷ []))
        granted.now held.now rows lease.old lease.new result reply.new }
{
    let target = target_of(rule);
    if target == Target::New && held.new_state != NewState::Full {
        return Effect::Refused(Refusal::of_request(Rule::RegisterState));
    }
    let changed = token_change(lease, held, key_in(&granted.first), target);
    reply.ok();
    reply.hex("token", &changed);
    Effect::Shown
}
