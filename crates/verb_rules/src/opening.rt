//! The clear key of a judged token, put into a place of the workbench.
ghost use Rattle.std.specs.Prelude.{◌≡◌};
ghost use Rattle.key_cells.specs.declared.places.KeyPlace.{KeyPlace};
ghost use Rattle.key_cells.specs.Bench.{Bench, key_of};
ghost use Rattle.key_cells.specs.Lease.{bench_of};
ghost use Rattle.multi_encipher.specs.Bundles.{bundle_under, ChangesKeyAt, IsElsewhere, with_zeros};
ghost use Rattle.multi_encipher.specs.Seals.{IsKey};
ghost use Rattle.verb_rules.specs.Keys.{HasHalves, master_for, opened};

use crate::judging::Judged;
use key_cells::{KeyPlace, Lease};
use key_tokens::Age;
use multi_encipher::{Under, unseal};

/// The register whose master key a token is under.
fn register_of(age: Option<Age>) -> Under
    ensures master { (bench : Bench)
        → bundle_under bench result ≡ master_for bench.current bench.former age }
    ensures elsewhere { (into : KeyPlace) → IsElsewhere result into }
{
    match age {
        Some(Age::Old) => Under::Old,
        Some(Age::Current) | None => Under::Current,
    }
}

/// Puts the clear key of a judged internal token into a place, with zeros after a single-length key. Only that
/// place and the schedules of the lease change.
pub fn open_key(lease: &mut Lease, key: &Judged, into: KeyPlace)
    requires { HasHalves key.now }
    ensures key { let clear = opened (bench_of lease.old) key.now in
        key_of (bench_of lease.new) into ≡ with_zeros clear.vector clear.key }
    ensures length { IsKey key.now.token.vector (opened (bench_of lease.old) key.now).key }
    ensures stays { ChangesKeyAt into lease.old lease.new }
{
    unseal(
        lease,
        register_of(key.age),
        &key.token.vector,
        &key.token.sealed,
        into,
    );
}
