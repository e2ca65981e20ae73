//! How a change of a disk is answered.
ghost use Rattle.std.specs.Prelude.{◌≡◌, []};
ghost use Rattle.cca_requests.specs.Changes.{IsAnswer, IsShortlyNamed, made_reply, made_stop};

use crate::endings::{end, refuse};
use cca_machine::Refusal;
use line_service::Stop;
use verb_script::ReplyBuffer;

/// Why a change isn't made.
#[derive(Clone, Copy)]
pub(crate) enum Unmade {
    /// A rule is broken.
    Refused(Refusal),
    /// A disk failed.
    Stopped(Stop),
}

/// Says that a change is made, or which rule is broken.
pub(crate) fn answer(made: Result<(), Unmade>, reply: &mut ReplyBuffer) -> Result<(), Stop>
    requires short { IsShortlyNamed made }
    requires empty { reply.old ≡ [] }
    ensures { IsAnswer (made_stop made) (made_reply made) result reply.new }
{
    match made {
        Ok(()) => {
            reply.ok();
            end(reply);
            Ok(())
        }
        Err(Unmade::Refused(refusal)) => {
            refuse(reply, &refusal);
            Ok(())
        }
        Err(Unmade::Stopped(stop)) => Err(stop),
    }
}
