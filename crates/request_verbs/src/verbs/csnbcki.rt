//! CSNBCKI: a clear key imported.
ghost use Rattle.std.specs.Prelude.{◌≡◌, ◌∷◌, [], ℕ, IsSome, IsTrue, List, Option, take};
ghost use Rattle.key_cells.specs.Bench.{key_of, with_key};
ghost use Rattle.key_cells.specs.Lease.{bench_of, holding};
ghost use Rattle.record_bodies.specs.declared.rows.Row.{Row};
ghost use Rattle.verb_script.specs.Grammar.{is_hex};
ghost use Rattle.verb_script.specs.declared.rows.RequestName.TheVariants.{Csnbcki as row};
ghost use Rattle.verb_script.specs.Values.{hex_value};
ghost use Rattle.cipher_verbs.specs.Imported.{imported_key};
ghost use Rattle.cca_machine.specs.Decided.{Settles, asked, CanDeliver};
ghost use Rattle.cca_machine.specs.Deciding.{MakesToken};

use crate::verbs::delivering::deliver;
use crate::verbs::key_digits::put_key;
use cca_machine::{Effect, Granted};
use cipher_verbs::clear_key_import;
use key_cells::{KeyPlace, Lease};
use master_registers::Registers;
use verb_script::ReplyBuffer;

/// Puts the clear key that the digits spell into the place of the key.
fn put_clear(digits: &[u8], lease: &mut Lease)
    requires { IsTrue (is_hex 16 digits.now) }
    ensures key { take 8 (bench_of lease.new).key ≡ take 8 (hex_value digits.now) }
    ensures stays { lease.new
        ≡ holding lease.old (with_key (bench_of lease.old) KeyPlace.Key
        (key_of (bench_of lease.new) KeyPlace.Key)) }
{
    put_key(digits, KeyPlace::Key, lease);
}

/// The token of a clear DATA key under the current master key.
fn import(clear: &[u8], lease: &mut Lease, held: &Registers) -> [u8; 64]
    requires clear { IsTrue (is_hex 16 clear.now) }
    requires master { IsSome held.now.current_pattern }
    ensures { MakesToken held.now (imported_key (hex_value clear.now))
        lease.old lease.new result }
{
    put_clear(clear, lease);
    clear_key_import(lease, held)
}

/// Delivers a clear DATA key, under the current master key.
pub(crate) fn csnbcki(
    granted: &Granted,
    clear: &[u8],
    to: &[u8],
    lease: &mut Lease,
    held: &Registers,
    reply: &mut ReplyBuffer,
) -> Effect
    requires clear { IsTrue (is_hex 16 clear.now) }
    requires delivers { CanDeliver held.now (bench_of lease.old) to.now
        granted.now.first.place reply.old }
    ensures settles { (role : List ℕ) (rows : List (Option Row))
        → Settles (asked row (role ∷ clear.now ∷ to.now ∷ []))
        granted.now held.now rows lease.old lease.new result reply.new }
{
    let token = import(clear, lease, held);
    deliver("token", &token, None, to, granted.first.place, reply)
}
