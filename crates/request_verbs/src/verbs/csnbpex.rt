//! CSNBPEX: a key that may be exported no longer.
ghost use Rattle.std.specs.Prelude.{◌∷◌, [], ℕ, List, Option};
ghost use Rattle.key_cells.specs.Lease.{bench_of};
ghost use Rattle.record_bodies.specs.declared.rows.Row.{Row};
ghost use Rattle.verb_script.specs.declared.rows.RequestName.TheVariants.{Csnbpex as row};
ghost use Rattle.cca_machine.specs.Decided.{Settles, asked, CanDeliver};
ghost use Rattle.cca_machine.specs.Granted.{HasSomeJudged};

use crate::verbs::delivering::deliver;
use cca_machine::{Effect, Granted, key_in};
use key_cells::Lease;
use key_transport::prohibit_export;
use master_registers::Registers;
use verb_script::ReplyBuffer;

/// Delivers the key with a control vector that forbids export, under the current master key.
pub(crate) fn csnbpex(
    granted: &Granted,
    to: &[u8],
    lease: &mut Lease,
    held: &Registers,
    reply: &mut ReplyBuffer,
) -> Effect
    requires key { HasSomeJudged granted.now.first }
    requires delivers { CanDeliver held.now (bench_of lease.old) to.now
        granted.now.second.place reply.old }
    ensures settles { (role key : List ℕ) (rows : List (Option Row))
        → Settles (asked row (role ∷ key ∷ to.now ∷ []))
        granted.now held.now rows lease.old lease.new result reply.new }
{
    let token = prohibit_export(lease, held, key_in(&granted.first));
    deliver("token", &token, None, to, granted.second.place, reply)
}
