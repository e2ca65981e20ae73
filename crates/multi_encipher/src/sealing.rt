//! A key in the workbench enciphered, and put back.
ghost use Rattle.std.specs.Prelude.{◌≡◌, ◌+◌, ◌≤◌, ℕ, List, ◌++◌, length, slice_range, take, drop, replicate};
ghost use Rattle.key_cells.specs.Bench.{Bench, key_of};
ghost use Rattle.key_cells.specs.Lease.{bench_of};
ghost use Rattle.cca_vectors.specs.Vectors.{length_of};
ghost use Rattle.key_cells.specs.Bytes.{AreBytes, IsZero};
ghost use Rattle.multi_encipher.specs.Bundles.{ChangesKeyAt, ChangesSchedules, bundle_under, IsElsewhere, key_in, with_zeros};
ghost use Rattle.multi_encipher.specs.Seals.{IsSealed, SealIsOneToOne, opened_half, sealed_half};
ghost use Rattle.multi_encipher.specs.Seals as seals;

use crate::halves::{Sealed, Under};
use crate::mixing::make_schedules;
use cca_vectors::Vector;
use des_blocks::{ded, ede};
use key_cells::{KeyPlace, Lease, Secret, put_secret};

/// Where a half of a key begins in 16 bytes.
const LEFT: usize = 0;

const RIGHT: usize = 8;

/// The half of a key that begins at a place of 16 bytes.
fn half_of(key: &[u8; 16], at: usize) -> &[u8; 8]
    requires { at + 8 ≤ 16 }
    ensures { result.now ≡ slice_range key.now at (at + 8) }
{
    key[at..at + 8].first_chunk::<8>().unwrap()
}

/// Makes the last 8 of 16 bytes zero.
fn put_zeros(place: &mut [u8; 16])
    ensures { place.new ≡ take 8 place.old ++ replicate 8 0 }
{
    place[RIGHT..].fill(0);
}

/// Enciphers a half of the key in the place `Key`.
fn enciphered_half(lease: &mut Lease, under: Under, vector: &[u8; 8], at: usize) -> [u8; 8]
    requires { at + 8 ≤ 16 }
    ensures value { let bench = bench_of lease.old in
        result ≡ sealed_half (bundle_under bench under) vector.now
        (slice_range bench.key at (at + 8)) }
    ensures stays { ChangesSchedules lease.old lease.new }
{
    make_schedules(lease, under, vector);
    ede(lease.schedules(), half_of(lease.key(KeyPlace::Key), at))
}

/// Deciphers a half of a key into a place.
fn put_deciphered_half(
    lease: &mut Lease,
    under: Under,
    vector: &[u8; 8],
    sealed: &[u8; 8],
    into: KeyPlace,
    at: usize,
)
    requires { at + 8 ≤ 16 }
    ensures key { let bench = bench_of lease.old in
        key_of (bench_of lease.new) into ≡ take at (key_of bench into)
        ++ opened_half (bundle_under bench under) vector.now sealed.now
        ++ drop (at + 8) (key_of bench into) }
    ensures size { length (key_of (bench_of lease.new) into) ≡ 16 }
    ensures bytes { AreBytes 8 sealed.now }
    ensures stays { ChangesKeyAt into lease.old lease.new }
{
    make_schedules(lease, under, vector);
    let mut clear = ded(lease.schedules(), sealed);
    let half = Secret::guard(&mut clear);
    put_secret(lease.key_mut(into), at, &half);
}

/// Enciphers the key in the place `Key`, of the length that the vector says, under the key in a place. Each half
/// is enciphered by itself, under the three keys of the bundle, each XORed with its vector; the right half of a single-length
/// key is zero. Only the schedules of the lease change.
pub fn seal(lease: &mut Lease, under: Under, vector: &Vector) -> Sealed
    ensures sealed { let bench = bench_of lease.old in
        result ≡ seals.seal (bundle_under bench under) vector.now (key_in vector.now bench.key) }
    ensures halves { IsSealed vector.now result }
    ensures stays { ChangesSchedules lease.old lease.new }
{
    let left_vector = vector.left();
    let right_vector = vector.right();
    let left = enciphered_half(lease, under, &left_vector, LEFT);
    let right = if vector.length() == 8 {
        [0; 8]
    } else {
        enciphered_half(lease, under, &right_vector, RIGHT)
    };
    Sealed { left, right }
}

/// Puts the key whose enciphered halves these are into another place than the one under which they are
/// enciphered. The last 8 bytes of the place are zero for a single-length key. Only that place and the schedules
/// of the lease change.
pub fn unseal(lease: &mut Lease, under: Under, vector: &Vector, sealed: &Sealed, into: KeyPlace)
    requires elsewhere { IsElsewhere under into }
    requires single { length_of vector.now ≡ 8 → IsZero sealed.now.right }
    ensures key { let bundle = bundle_under (bench_of lease.old) under in
        key_of (bench_of lease.new) into
        ≡ with_zeros vector.now (seals.unseal bundle vector.now sealed.now) }
    ensures sealed { let bundle = bundle_under (bench_of lease.old) under in
        seals.seal bundle vector.now (key_in vector.now (key_of (bench_of lease.new) into))
        ≡ sealed.now }
    ensures stays { ChangesKeyAt into lease.old lease.new }
{
    let left_vector = vector.left();
    let right_vector = vector.right();
    put_deciphered_half(lease, under, &left_vector, &sealed.left, into, LEFT);
    if vector.length() == 8 {
        put_zeros(lease.key_mut(into));
    } else {
        put_deciphered_half(lease, under, &right_vector, &sealed.right, into, RIGHT);
    }
}

/// Under a given bundle and vector, sealing is one to one from the keys of the vector's length onto the halves.
pub fn seal_is_one_to_one()
    ensures { (bundle vector : List ℕ) → SealIsOneToOne bundle vector }
{}
