//! CSNBKRR: the token in a record.
ghost use Rattle.std.specs.Prelude.{◌≡◌, ◌∷◌, [], ℕ, List, Option};
ghost use Rattle.cca_vectors.specs.Bytes.{AreBytes};
ghost use Rattle.key_cells.specs.declared.leases.Lease.{Lease};
ghost use Rattle.record_bodies.specs.declared.rows.Row.{Row};
ghost use Rattle.master_registers.specs.declared.registers.Registers.{Registers};
ghost use Rattle.verb_script.specs.declared.rows.RequestName.TheVariants.{Csnbkrr as row};
ghost use Rattle.cca_machine.specs.Decided.{Settles, asked};
ghost use Rattle.cca_machine.specs.Granted.{HasSomeJudged};

use cca_machine::{Effect, Granted, key_in};
use key_tokens::{Kind, Token, write_token};
use verb_script::ReplyBuffer;

/// Eight bytes are below 256: a fact that contracts use.
fn are_bytes(bytes: &[u8; 8])
    ensures { AreBytes 8 bytes.now }
{
    let _first = bytes[0];
}

/// Shows the token of the record that was judged, as it is written for its key.
pub(crate) fn csnbkrr(granted: &Granted, reply: &mut ReplyBuffer) -> Effect
    requires key { HasSomeJudged granted.now.first }
    requires empty { reply.old ≡ [] }
    ensures settles { (role label : List ℕ) (held : Registers) (rows : List (Option Row))
        (lease : Lease)
        → Settles (asked row (role ∷ label ∷ []))
        granted.now held rows lease lease result reply.new }
{
    let key = key_in(&granted.first);
    are_bytes(&key.token.sealed.left);
    are_bytes(&key.token.sealed.right);
    let token = Token {
        kind: Kind::Internal,
        ..key.token
    };
    reply.ok();
    reply.hex("token", &write_token(&token));
    Effect::Shown
}
