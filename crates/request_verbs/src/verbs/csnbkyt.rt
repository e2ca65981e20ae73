//! CSNBKYT: the test value of a key.
ghost use Rattle.std.specs.Prelude.{◌≡◌, ◌∷◌, [], ℕ, List};
ghost use Rattle.verb_script.specs.declared.rows.RequestName.TheVariants.{Csnbkyt as row};
ghost use Rattle.cca_machine.specs.Decided.{SettlesOver, asked};
ghost use Rattle.cca_machine.specs.Granted.{HasSomeJudged};

use cca_machine::{Effect, Granted, key_in};
use cipher_verbs::key_test;
use key_cells::Lease;
use verb_script::ReplyBuffer;

/// Shows the first bytes of a block of zeros enciphered under the key.
pub(crate) fn csnbkyt(granted: &Granted, lease: &mut Lease, reply: &mut ReplyBuffer) -> Effect
    requires key { HasSomeJudged granted.now.first }
    requires empty { reply.old ≡ [] }
    ensures settles { (role key : List ℕ)
        → SettlesOver (asked row (role ∷ key ∷ []))
        granted.now lease.old lease.new result reply.new }
{
    let value = key_test(lease, key_in(&granted.first));
    reply.ok();
    reply.hex("value", &value);
    Effect::Shown
}
