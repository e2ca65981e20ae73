//! What the verb of a request decides, whether it is one over a text or another.
ghost use Rattle.key_cells.specs.Lease.{bench_of};
ghost use Rattle.verb_script.specs.Parsed.{seen};
ghost use Rattle.cca_machine.specs.Decided.{CanDecide, Decision, source};

use cca_machine::{Effect, Granted};
use device_cells::Entropy;
use key_cells::Lease;
use key_records::Records;
use line_service::Stop;
use master_registers::Registers;
use text_verbs::{over_text, text_work};
use verb_script::{ReplyBuffer, Request};

/// What the verb decides, over what its operands stand for.
pub(crate) fn decide<E: Entropy>(
    request: &Request,
    granted: &Granted,
    entropy: &mut E,
    lease: &mut Lease,
    held: &Registers,
    records: &Records,
    reply: &mut ReplyBuffer,
) -> Result<Effect, Stop>
    requires can { CanDecide (seen request.now) granted.now held.now records.now
        (bench_of lease.old) reply.old }
    ensures decision { Decision (seen request.now) granted.now held.now records.now
        lease.old lease.new result reply.new
        (source entropy.old (E.left entropy.old) (E.faults entropy.old))
        (source entropy.new (E.left entropy.new) (E.faults entropy.new)) }
{
    match text_work(request) {
        Some(work) => Ok(over_text(work, granted, lease, reply)),
        None => request_verbs::decide(request, granted, entropy, lease, held, records, reply),
    }
}
