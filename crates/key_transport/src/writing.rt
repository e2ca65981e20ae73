//! The tokens that are written for the key in the workbench: under a transport key, and under the new master key.
ghost use Rattle.std.specs.Prelude.{◌≡◌, Some, slice_index};
ghost use Rattle.key_cells.specs.Bytes.{AreBytes};
ghost use Rattle.key_cells.specs.declared.places.KeyPlace.{KeyPlace};
ghost use Rattle.key_cells.specs.Lease.{bench_of};
ghost use Rattle.key_tokens.specs.Denotes.{denoted_under};
ghost use Rattle.master_registers.specs.Loaded.{Loaded};
ghost use Rattle.master_registers.specs.Masters.{Masters};
ghost use Rattle.multi_encipher.specs.Bundles.{ChangesKeyAt, ChangesSchedules};
ghost use Rattle.verb_rules.specs.Keys.{IsDouble, opened};
ghost use Rattle.key_transport.specs.Tokens.{external_token, key_with, new_token};

use cca_vectors::Vector;
use key_cells::{KeyPlace, Lease, MasterPlace};
use key_tokens::{Kind, Token, write_token};
use master_registers::{NewState, Registers, pattern_of};
use multi_encipher::{Under, seal};
use verb_rules::{Judged, open_key};

/// Sixteen bytes are below 256: a fact that contracts use.
fn are_bytes(bytes: &[u8; 16])
    ensures { AreBytes 16 bytes.now }
{
    let _first = bytes[0];
}

/// Writes the external token of the key in the place `Key`, of the length that the vector says, under the transport key
/// in the place `First`.
fn write_external(lease: &mut Lease, vector: &Vector) -> [u8; 64]
    ensures token { let bench = bench_of lease.old in
        result ≡ external_token bench.first (key_with bench vector.now) }
    ensures denoted { let bench = bench_of lease.old in
        denoted_under bench.first result ≡ Some (key_with bench vector.now) }
    ensures flag { slice_index result 6 ≡ 0xc0 }
    ensures stays { ChangesSchedules lease.old lease.new }
{
    are_bytes(lease.key(KeyPlace::Key));
    let sealed = seal(lease, Under::First, vector);
    write_token(&Token {
        kind: Kind::External,
        pattern: [0; 8],
        sealed,
        vector: *vector,
    })
}

/// Writes the external token of the key in the place `Key`, of the length that the vector says, under the clear key of a
/// judged transport key. Only the place `First` and the schedules of the lease change.
pub fn write_under(lease: &mut Lease, transport: &Judged, vector: &Vector) -> [u8; 64]
    requires { IsDouble transport.now }
    ensures token { let bench = bench_of lease.old in
        result ≡ external_token (opened bench transport.now).key (key_with bench vector.now) }
    ensures denoted { let bench = bench_of lease.old in
        denoted_under (opened bench transport.now).key result ≡ Some (key_with bench vector.now) }
    ensures flag { slice_index result 6 ≡ 0xc0 }
    ensures stays { ChangesKeyAt KeyPlace.First lease.old lease.new }
{
    open_key(lease, transport, KeyPlace::First);
    write_external(lease, vector)
}

/// Writes the internal token of the key in the place `Key`, of the length that the vector says, under the new master key.
/// Only the schedules of the lease change.
pub(crate) fn write_new(lease: &mut Lease, held: &Registers, vector: &Vector) -> [u8; 64]
    requires { held.now.new_state ≡ NewState.Full }
    ensures token { (m : Masters) → Loaded m held.now (bench_of lease.old)
        → result ≡ new_token m (key_with (bench_of lease.old) vector.now) }
    ensures flag { slice_index result 6 ≡ 0xc0 }
    ensures stays { ChangesSchedules lease.old lease.new }
{
    let sealed = seal(lease, Under::New, vector);
    let pattern = pattern_of(lease, MasterPlace::New).bytes;
    write_token(&Token {
        kind: Kind::Internal,
        pattern,
        sealed,
        vector: *vector,
    })
}
