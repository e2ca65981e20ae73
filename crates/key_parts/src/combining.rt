//! A key brought in by parts.
ghost use Rattle.std.specs.Prelude.{◌≡◌, IsSome, Some, true, slice_index, take, if◌then◌else◌};
ghost use Rattle.cca_vectors.specs.PartVectors.{as_part};
ghost use Rattle.cca_vectors.specs.Vectors.{is_part_of, length_of};
ghost use Rattle.key_cells.specs.Lease.{bench_of};
ghost use Rattle.key_tokens.specs.Denotes.{denoted};
ghost use Rattle.key_transport.specs.Generated.{HasLength};
ghost use Rattle.key_transport.specs.Tokens.{as_current, current_token};
ghost use Rattle.master_registers.specs.Loaded.{Loaded};
ghost use Rattle.master_registers.specs.Masters.{Masters};
ghost use Rattle.verb_rules.specs.Keys.{HasHalves, keys_of};
ghost use Rattle.key_parts.specs.Changes.{ClearsParts};
ghost use Rattle.key_parts.specs.Parts.{first_key, key_with_fresh};

use crate::places::{clear_key, take_part};
use cca_vectors::Vector;
use key_cells::{KeyPlace, Lease};
use key_transport::vector_for;
use master_registers::Registers;
use verb_rules::{Judged, KeyType, open_key, write_current};

/// The internal token, under the current master key, of the part in the first bytes of the place `Fresh`, with the control
/// vector of a part of a key of this type and length in bytes. The parity of the part isn't changed. The part doesn't stay
/// in the bench: the places `Key` and `Fresh` are zero after, and of the rest of the lease only the schedules change.
pub fn first_part(lease: &mut Lease, held: &Registers, kind: KeyType, length: usize) -> [u8; 64]
    requires current { IsSome held.now.current_pattern }
    requires length { HasLength kind length }
    ensures token { (m : Masters) → Loaded m held.now (bench_of lease.old)
        → result ≡ current_token m (first_key kind (take length (bench_of lease.old).fresh)) }
    ensures denoted { (m : Masters) → Loaded m held.now (bench_of lease.old)
        → denoted (keys_of m) result
        ≡ Some (as_current (first_key kind (take length (bench_of lease.old).fresh))) }
    ensures flag { slice_index result 6 ≡ 0xc0 }
    ensures stays { ClearsParts lease.old lease.new }
{
    clear_key(lease, KeyPlace::Key);
    take_part(lease);
    let token = write_current(lease, held, &vector_for(kind, length).as_part());
    clear_key(lease, KeyPlace::Key);
    token
}

/// The vector of a key part that is combined with a further one: with the last one that of the whole key.
fn vector_after(vector: &Vector, last: bool) -> Vector
    ensures vector { result ≡ (if last then as_part vector.now else vector.now) }
    ensures length { length_of result ≡ length_of vector.now }
{
    if last { vector.as_part() } else { *vector }
}

/// The internal token, under the current master key, of the clear key of a judged internal token, which is that of a key
/// part, XORed with the part in the first bytes of the place `Fresh`; with the last part its control vector becomes that of
/// the whole key. The parity of the key isn't changed. Neither the part nor the key stays in the bench: the places `Key`
/// and `Fresh` are zero after, and of the rest of the lease only the schedules change.
pub fn combine_part(lease: &mut Lease, held: &Registers, key: &Judged, last: bool) -> [u8; 64]
    requires current { IsSome held.now.current_pattern }
    requires halves { HasHalves key.now }
    requires part { is_part_of key.now.token.vector ≡ true }
    ensures token { (m : Masters) → Loaded m held.now (bench_of lease.old)
        → result ≡ current_token m (key_with_fresh (bench_of lease.old) key.now last) }
    ensures denoted { (m : Masters) → Loaded m held.now (bench_of lease.old)
        → denoted (keys_of m) result
        ≡ Some (as_current (key_with_fresh (bench_of lease.old) key.now last)) }
    ensures flag { slice_index result 6 ≡ 0xc0 }
    ensures stays { ClearsParts lease.old lease.new }
{
    open_key(lease, key, KeyPlace::Key);
    take_part(lease);
    let token = write_current(lease, held, &vector_after(&key.token.vector, last));
    clear_key(lease, KeyPlace::Key);
    token
}
