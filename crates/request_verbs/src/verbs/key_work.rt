//! The verbs that make, change, bring over or test keys.
ghost use Rattle.std.specs.Prelude.{IsTrue};
ghost use Rattle.key_cells.specs.Lease.{bench_of};
ghost use Rattle.verb_script.specs.Parsed.{seen};
ghost use Rattle.cca_machine.specs.Decided.{CanDecide, Decision, source};
ghost use Rattle.request_verbs.specs.KeyWorks.{is_over_keys};

use crate::verbs::csnbcki::csnbcki;
use crate::verbs::csnbkex::csnbkex;
use crate::verbs::csnbkgn::{generate_one, generate_out, generate_pair};
use crate::verbs::csnbkim::csnbkim;
use crate::verbs::csnbkpi;
use crate::verbs::csnbktc::csnbktc;
use crate::verbs::csnbktr::csnbktr;
use crate::verbs::csnbkyt::csnbkyt;
use crate::verbs::csnbpex::csnbpex;
use cca_machine::{Effect, Granted};
use device_cells::Entropy;
use key_cells::Lease;
use key_records::Records;
use line_service::Stop;
use master_registers::Registers;
use verb_script::{ReplyBuffer, Request};

/// Has the verb decide.
pub(crate) fn over_keys<E: Entropy>(
    request: &Request,
    granted: &Granted,
    entropy: &mut E,
    lease: &mut Lease,
    held: &Registers,
    records: &Records,
    reply: &mut ReplyBuffer,
) -> Result<Effect, Stop>
    requires keys { IsTrue (is_over_keys (seen request.now).name) }
    requires can { CanDecide (seen request.now) granted.now held.now records.now
        (bench_of lease.old) reply.old }
    ensures decision { Decision (seen request.now) granted.now held.now records.now
        lease.old lease.new result reply.new
        (source entropy.old (E.left entropy.old) (E.faults entropy.old))
        (source entropy.new (E.left entropy.new) (E.faults entropy.new)) }
{
    match *request {
        Request::Csnbkyt { .. } => Ok(csnbkyt(granted, lease, reply)),
        Request::Csnbcki { clear, to, .. } => Ok(csnbcki(granted, clear, to, lease, held, reply)),
        Request::CsnbkgnOp {
            length,
            type1,
            to,
            ..
        } => generate_one(granted, length, type1, to, entropy, lease, held, reply),
        Request::CsnbkgnPair {
            form,
            length,
            type1,
            type2,
            to,
            ..
        } => generate_pair(
            granted, form, length, type1, type2, to, entropy, lease, held, reply,
        ),
        Request::CsnbkgnOut {
            form,
            length,
            type1,
            type2,
            ..
        } => generate_out(
            granted, form, length, type1, type2, entropy, lease, held, reply,
        ),
        Request::Csnbkim { to, .. } => Ok(csnbkim(granted, to, lease, held, reply)),
        Request::Csnbkex { .. } => Ok(csnbkex(granted, lease, reply)),
        Request::Csnbpex { to, .. } => Ok(csnbpex(granted, to, lease, held, reply)),
        Request::Csnbktc { rule, .. } => Ok(csnbktc(granted, rule, lease, held, reply)),
        Request::CsnbkpiFirst { kind, part, to, .. } => Ok(csnbkpi::first(
            granted, kind, part, to, lease, held, reply,
        )),
        Request::CsnbkpiMiddle { rule, part, to, .. } => Ok(csnbkpi::further(
            granted, rule, part, to, lease, held, reply,
        )),
        Request::Csnbktr { .. } => Ok(csnbktr(granted, lease, reply)),
        _ => unreachable!(),
    }
}
