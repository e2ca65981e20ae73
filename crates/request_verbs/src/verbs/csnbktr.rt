//! CSNBKTR: a key translated from one transport key to another.
ghost use Rattle.std.specs.Prelude.{◌≡◌, ◌∷◌, [], ℕ, List};
ghost use Rattle.verb_script.specs.declared.rows.RequestName.TheVariants.{Csnbktr as row};
ghost use Rattle.cca_machine.specs.Decided.{SettlesOver, asked};
ghost use Rattle.cca_machine.specs.Granted.{HasDoubleKey, HasJudgedExternal};

use cca_machine::{Effect, Granted, double_key_in, external_in};
use key_cells::Lease;
use key_parts::translate;
use verb_script::ReplyBuffer;

/// Shows the external token, under the second transport key, of the key of an external token under
/// the first.
pub(crate) fn csnbktr(granted: &Granted, lease: &mut Lease, reply: &mut ReplyBuffer) -> Effect
    requires source { HasJudgedExternal granted.now.first }
    requires one { HasDoubleKey granted.now.second }
    requires two { HasDoubleKey granted.now.third }
    requires empty { reply.old ≡ [] }
    ensures settles { (role token one two : List ℕ)
        → SettlesOver (asked row (role ∷ token ∷ one ∷ two ∷ []))
        granted.now lease.old lease.new result reply.new }
{
    let source = external_in(&granted.first);
    let one = double_key_in(&granted.second);
    let token = translate(lease, source, one, double_key_in(&granted.third));
    reply.ok();
    reply.hex("token", &token);
    Effect::Shown
}
