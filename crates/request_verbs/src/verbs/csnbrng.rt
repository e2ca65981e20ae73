//! CSNBRNG: random bytes.
ghost use Rattle.std.specs.Prelude.{◌≡◌, ◌∷◌, [], ℕ, List, Option};
ghost use Rattle.key_cells.specs.declared.leases.Lease.{Lease};
ghost use Rattle.record_bodies.specs.declared.rows.Row.{Row};
ghost use Rattle.master_registers.specs.declared.registers.Registers.{Registers};
ghost use Rattle.verb_script.specs.declared.rows.RequestName.TheVariants.{Csnbrng as row};
ghost use Rattle.cca_machine.specs.Decided.{SettlesDrawing, asked, source};
ghost use Rattle.cca_machine.specs.declared.granted.Granted.{Granted};

use cca_machine::{Effect, random_form_of};
use cipher_verbs::random_number;
use device_cells::Entropy;
use line_service::Stop;
use verb_script::ReplyBuffer;

/// Shows eight random bytes.
pub(crate) fn csnbrng<E: Entropy>(
    form: &[u8],
    entropy: &mut E,
    reply: &mut ReplyBuffer,
) -> Result<Effect, Stop>
    requires empty { reply.old ≡ [] }
    ensures settles { (role : List ℕ) (granted : Granted) (held : Registers)
        (rows : List (Option Row)) (lease : Lease)
        → SettlesDrawing (asked row (role ∷ form.now ∷ []))
        granted held rows lease lease result reply.new
        (source entropy.old (E.left entropy.old) (E.faults entropy.old))
        (source entropy.new (E.left entropy.new) (E.faults entropy.new)) }
{
    match random_number(random_form_of(form), entropy) {
        Ok(bytes) => {
            reply.ok();
            reply.hex("random", &bytes);
            Ok(Effect::Shown)
        }
        Err(_) => Err(Stop::EntropyFault),
    }
}
