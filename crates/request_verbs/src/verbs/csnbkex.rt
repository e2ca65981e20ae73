//! CSNBKEX: a key exported under a transport key.
ghost use Rattle.std.specs.Prelude.{◌≡◌, ◌∷◌, [], ℕ, List};
ghost use Rattle.verb_script.specs.declared.rows.RequestName.TheVariants.{Csnbkex as row};
ghost use Rattle.cca_machine.specs.Decided.{SettlesOver, asked};
ghost use Rattle.cca_machine.specs.Granted.{HasDoubleKey, HasSomeJudged};

use cca_machine::{Effect, Granted, double_key_in, key_in};
use key_cells::Lease;
use key_transport::export;
use verb_script::ReplyBuffer;

/// Shows the external token of a key under a transport key.
pub(crate) fn csnbkex(granted: &Granted, lease: &mut Lease, reply: &mut ReplyBuffer) -> Effect
    requires key { HasSomeJudged granted.now.first }
    requires transport { HasDoubleKey granted.now.second }
    requires empty { reply.old ≡ [] }
    ensures settles { (role key transport : List ℕ)
        → SettlesOver (asked row (role ∷ key ∷ transport ∷ []))
        granted.now lease.old lease.new result reply.new }
{
    let key = key_in(&granted.first);
    let token = export(lease, key, double_key_in(&granted.second));
    reply.ok();
    reply.hex("token", &token);
    Effect::Shown
}
