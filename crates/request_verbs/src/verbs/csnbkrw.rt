//! CSNBKRW: the key of a token put into a record.
ghost use Rattle.std.specs.Prelude.{◌≡◌, ◌∷◌, [], ℕ, IsSome, IsTrue, List, Option};
ghost use Rattle.key_cells.specs.Lease.{bench_of};
ghost use Rattle.key_cells.specs.declared.leases.Lease.{Lease};
ghost use Rattle.record_bodies.specs.declared.rows.Row.{Row};
ghost use Rattle.key_tokens.specs.Denotes.{denoted};
ghost use Rattle.master_registers.specs.Loaded.{masters_in};
ghost use Rattle.master_registers.specs.declared.registers.Registers.{Registers};
ghost use Rattle.verb_rules.specs.Keys.{keys_of};
ghost use Rattle.verb_script.specs.Grammar.{is_hex};
ghost use Rattle.verb_script.specs.declared.rows.RequestName.TheVariants.{Csnbkrw as row};
ghost use Rattle.verb_script.specs.Values.{hex_value};
ghost use Rattle.cca_machine.specs.Decided.{Settles, asked};

use cca_machine::{Effect, Granted, place_in, token_bytes};
use verb_script::ReplyBuffer;

/// Leaves the token that the digits spell to be written into the record.
pub(crate) fn csnbkrw(granted: &Granted, token: &[u8], reply: &mut ReplyBuffer) -> Effect
    requires place { IsSome granted.now.first.place }
    requires token { IsTrue (is_hex 128 token.now) }
    requires empty { reply.old ≡ [] }
    ensures settles { (role label : List ℕ) (held : Registers) (rows : List (Option Row))
        (lease : Lease)
        → IsSome (denoted (keys_of (masters_in held (bench_of lease))) (hex_value token.now))
        → Settles (asked row (role ∷ label ∷ token.now ∷ []))
        granted.now held rows lease lease result reply.new }
{
    reply.ok();
    Effect::Write(place_in(&granted.first), token_bytes(token))
}
