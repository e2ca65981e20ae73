//! CSNBKIM: a key imported from under a transport key.
ghost use Rattle.std.specs.Prelude.{◌∷◌, [], ℕ, List, Option};
ghost use Rattle.key_cells.specs.Lease.{bench_of};
ghost use Rattle.record_bodies.specs.declared.rows.Row.{Row};
ghost use Rattle.verb_script.specs.declared.rows.RequestName.TheVariants.{Csnbkim as row};
ghost use Rattle.cca_machine.specs.Decided.{Settles, asked, CanDeliver};
ghost use Rattle.cca_machine.specs.Granted.{HasDoubleKey, HasJudgedExternal};

use crate::verbs::delivering::deliver;
use cca_machine::{Effect, Granted, double_key_in, external_in};
use key_cells::Lease;
use key_transport::import;
use master_registers::Registers;
use verb_script::ReplyBuffer;

/// Delivers the key of an external token, under the current master key.
pub(crate) fn csnbkim(
    granted: &Granted,
    to: &[u8],
    lease: &mut Lease,
    held: &Registers,
    reply: &mut ReplyBuffer,
) -> Effect
    requires source { HasJudgedExternal granted.now.first }
    requires transport { HasDoubleKey granted.now.second }
    requires delivers { CanDeliver held.now (bench_of lease.old) to.now
        granted.now.third.place reply.old }
    ensures settles { (role token transport : List ℕ) (rows : List (Option Row))
        → Settles (asked row (role ∷ token ∷ transport ∷ to.now ∷ []))
        granted.now held.now rows lease.old lease.new result reply.new }
{
    let source = external_in(&granted.first);
    let token = import(lease, held, source, double_key_in(&granted.second));
    deliver("token", &token, None, to, granted.third.place, reply)
}
