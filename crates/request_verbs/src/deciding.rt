//! What each verb decides of its request, one that isn't over a text: over the operands that were granted, in every
//! state that the memory and the workbench stand for.
ghost use Rattle.std.specs.Prelude.{◌≡◌, false};
ghost use Rattle.key_cells.specs.Lease.{bench_of};
ghost use Rattle.verb_script.specs.Parsed.{seen};
ghost use Rattle.cca_machine.specs.Decided.{CanDecide, Decision, source};
ghost use Rattle.cca_machine.specs.Operands.{is_over_text};

use crate::verbs::csnbkrc::csnbkrc;
use crate::verbs::csnbkrd::csnbkrd;
use crate::verbs::csnbkrl::csnbkrl;
use crate::verbs::csnbkrr::csnbkrr;
use crate::verbs::csnbkrw::csnbkrw;
use crate::verbs::csnbktp::csnbktp;
use crate::verbs::csnbrng::csnbrng;
use crate::verbs::key_work::over_keys;
use crate::verbs::{csnbmkp, csuaaci, reenciphering};
use cca_machine::{Effect, Granted};
use device_cells::Entropy;
use key_cells::Lease;
use key_records::Records;
use line_service::Stop;
use master_registers::Registers;
use verb_script::{ReplyBuffer, Request};

/// What the verb decides, over what its operands stand for.
pub fn decide<E: Entropy>(
    request: &Request,
    granted: &Granted,
    entropy: &mut E,
    lease: &mut Lease,
    held: &Registers,
    records: &Records,
    reply: &mut ReplyBuffer,
) -> Result<Effect, Stop>
    requires other { is_over_text (seen request.now).name ≡ false }
    requires can { CanDecide (seen request.now) granted.now held.now records.now
        (bench_of lease.old) reply.old }
    ensures decision { Decision (seen request.now) granted.now held.now records.now
        lease.old lease.new result reply.new
        (source entropy.old (E.left entropy.old) (E.faults entropy.old))
        (source entropy.new (E.left entropy.new) (E.faults entropy.new)) }
{
    match *request {
        Request::Csnbenc { .. }
        | Request::CsnbencFirst { .. }
        | Request::CsnbencMiddle { .. }
        | Request::CsnbencLast { .. }
        | Request::Csnbdec { .. }
        | Request::CsnbdecFirst { .. }
        | Request::CsnbdecMiddle { .. }
        | Request::CsnbdecLast { .. }
        | Request::Csnbmgn { .. }
        | Request::CsnbmgnFirst { .. }
        | Request::CsnbmgnMiddle { .. }
        | Request::CsnbmgnLast { .. }
        | Request::Csnbmvr { .. }
        | Request::CsnbmvrFirst { .. }
        | Request::CsnbmvrMiddle { .. }
        | Request::CsnbmvrLast { .. } => unreachable!(),
        Request::Csnbkyt { .. }
        | Request::Csnbcki { .. }
        | Request::CsnbkgnOp { .. }
        | Request::CsnbkgnPair { .. }
        | Request::CsnbkgnOut { .. }
        | Request::Csnbkim { .. }
        | Request::Csnbkex { .. }
        | Request::Csnbpex { .. }
        | Request::Csnbktc { .. }
        | Request::CsnbkpiFirst { .. }
        | Request::CsnbkpiMiddle { .. }
        | Request::Csnbktr { .. } => over_keys(
            request, granted, entropy, lease, held, records, reply,
        ),
        Request::Csnbktp { .. } => Ok(csnbktp(granted, reply)),
        Request::Csnbrng { form, .. } => csnbrng(form, entropy, reply),
        Request::Csnbkrc { label, .. } => Ok(csnbkrc(label)),
        Request::Csnbkrw { token, .. } => Ok(csnbkrw(granted, token, reply)),
        Request::Csnbkrr { .. } => Ok(csnbkrr(granted, reply)),
        Request::Csnbkrd { .. } => Ok(csnbkrd(granted)),
        Request::Csnbkrl { prefix, .. } => Ok(csnbkrl(prefix, records, reply)),
        Request::CsnbmkpPart { action, part, .. } => Ok(csnbmkp::combine(action, part, lease)),
        Request::CsnbmkpClear { .. } => Ok(csnbmkp::clear(records)),
        Request::CsnbmkpSet { .. } => Ok(csnbmkp::set(lease, held, records)),
        Request::CsuaaciDefine { name, points, .. } => Ok(csuaaci::define(&name, &points)),
        Request::CsuaaciRemove { name, .. } => Ok(csuaaci::remove(&name)),
        Request::Reencipher { .. } => Ok(reenciphering::renew()),
        Request::ReencipherAhead { .. } => Ok(reenciphering::ahead(lease, held, records)),
        Request::ReencipherDrop { .. } => Ok(reenciphering::drop()),
    }
}
