//! What answers the lines of the coprocessor.
ghost use Rattle.std.specs.Prelude.{◌≡◌, codes};
ghost use Rattle.line_service.specs.Replies.{Refused, spelled};
ghost use Rattle.verb_rules.specs.Rules.{rule_number};
ghost use Rattle.request_rules.specs.Standing.{tables};
ghost use Rattle.cca_machine.specs.Coprocessor.{cca};
ghost use Rattle.store_unload.specs.Opening.{AreKnown, remembers};

use cca_requests::perform;
use cca_roles::Roles;
use device_cells::{Disk, Entropy};
use key_cells::{Lease, Workbench};
use key_records::Records;
use line_service::{Desk, Stop};
use store_unload::open_disks;
use verb_rules::Rule;
use verb_script::{ReplyBuffer, parse_request};

/// The coprocessor. It remembers the roles of the module and the labels of the store.
#[derive(Drop)]
pub(crate) struct Coprocessor {
    pub(crate) roles: Roles,
    pub(crate) records: Records,
}

impl Desk for Coprocessor {
    ghost machine = { cca };

    ghost knows = { λ desk s. remembers (tables desk.roles desk.records) s };

    ghost ready = { λ desk m d. AreKnown (tables desk.roles desk.records) m d };

    // The module is judged before the store is called.
    fn open<M: Disk, D: Disk>(
        &mut self,
        bench: &mut Workbench,
        module: &mut M,
        store: &mut D,
    ) -> Result<(), Stop> {
        let mut lease = Lease::open(bench);
        match open_disks(
            &mut self.roles,
            &mut self.records,
            &mut lease,
            module,
            store,
        ) {
            Ok(_) => Ok(()),
            Err(stop) => Err(stop),
        }
    }

    fn too_long(&self, reply: &mut ReplyBuffer) {
        refuse_line(reply, Rule::LineLength);
    }

    fn answer<M: Disk, D: Disk, E: Entropy>(
        &mut self,
        line: &[u8],
        reply: &mut ReplyBuffer,
        bench: &mut Workbench,
        module: &mut M,
        store: &mut D,
        entropy: &mut E,
    ) -> Result<(), Stop> {
        match parse_request(line) {
            Ok(request) => perform(
                &request,
                bench,
                module,
                store,
                entropy,
                &mut self.roles,
                &mut self.records,
                reply,
            ),
            Err(_) => {
                refuse_line(reply, Rule::Form);
                Ok(())
            }
        }
    }
}

/// Writes the reply to a line that is no request.
fn refuse_line(reply: &mut ReplyBuffer, rule: Rule)
    ensures { reply.new ≡ spelled (Refused (rule_number rule) (codes "-")) }
{
    reply.clear();
    reply.refuse(rule.number(), "-");
    reply.finish();
}
