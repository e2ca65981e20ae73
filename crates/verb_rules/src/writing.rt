//! The token that is written for a key in the workbench.
ghost use Rattle.std.specs.Prelude.{◌≡◌, IsSome, Some, slice_index};
ghost use Rattle.key_cells.specs.Bytes.{AreBytes};
ghost use Rattle.key_cells.specs.Bench.{Bench};
ghost use Rattle.key_cells.specs.Lease.{bench_of};
ghost use Rattle.key_tokens.specs.Denotes.{denoted};
ghost use Rattle.master_registers.specs.Loaded.{Loaded};
ghost use Rattle.master_registers.specs.Masters.{Masters};
ghost use Rattle.multi_encipher.specs.Bundles.{ChangesSchedules};
ghost use Rattle.verb_rules.specs.Keys.{keys_of, token_for};
ghost use Rattle.verb_rules.specs.Written.{current_key};

use cca_vectors::Vector;
use key_cells::{KeyPlace, Lease};
use key_tokens::{Kind, Token, write_token};
use master_registers::Registers;
use multi_encipher::{Under, seal};

/// Sixteen bytes are below 256: a fact that contracts use.
fn are_bytes(bytes: &[u8; 16])
    ensures { AreBytes 16 bytes.now }
{
    let _first = bytes[0];
}

/// Writes the internal token of the key in the place `Key`, of the length that the vector says, under the current
/// master key. Only the schedules of the lease change.
pub fn write_current(lease: &mut Lease, held: &Registers, vector: &Vector) -> [u8; 64]
    requires { IsSome held.now.current_pattern }
    ensures token { (m : Masters) → Loaded m held.now (bench_of lease.old)
        → result ≡ token_for (keys_of m) (current_key (bench_of lease.old) vector.now) }
    ensures denoted { (m : Masters) → Loaded m held.now (bench_of lease.old)
        → denoted (keys_of m) result ≡ Some (current_key (bench_of lease.old) vector.now) }
    ensures flag { slice_index result 6 ≡ 0xc0 }
    ensures stays { ChangesSchedules lease.old lease.new }
{
    are_bytes(lease.key(KeyPlace::Key));
    let sealed = seal(lease, Under::Current, vector);
    let pattern = held.current_pattern.unwrap().bytes;
    write_token(&Token {
        kind: Kind::Internal,
        pattern,
        sealed,
        vector: *vector,
    })
}
