//! Keys of zeros under a transport key and under a master key.
ghost use Rattle.std.specs.Prelude.{◌≡◌};
ghost use Rattle.cca_vectors.specs.Vectors.{length_of};
ghost use Rattle.key_cells.specs.Bytes.{IsZero};
ghost use Rattle.multi_encipher.specs.Bundles.{IsElsewhere};

use crate::sealed_keys::vector;
use cca_vectors::Vector;
use key_cells::{KeyPlace, Lease, MasterPlace, Workbench};
use multi_encipher::{Sealed, Under, seal, unseal};
use std::process::Abort;

/// A zero block under the DES key of zeros.
const ZERO_UNDER_ZERO: [u8; 8] = [0x8c, 0xa6, 0x4d, 0xe9, 0xc1, 0xb1, 0x23, 0xa7];

const DATA_VECTOR: u64 = 0x0000_7d00_0300_0000;

const DATA_LEFT: u64 = 0x0000_7d00_0341_0000;

const DATA_RIGHT: u64 = 0x0000_7d00_0321_0000;

/// Puts a master key of which the first two bundle are the same.
fn put_master(lease: &mut Lease, third: u64) {
    let master = lease.master_mut(MasterPlace::Current);
    for at in 0..16 {
        master[at] = at as u8 % 8 + 1;
    }
    master[16..].copy_from_slice(&third.to_be_bytes());
}

/// Puts the key back into a place that holds other bytes, and looks at it there.
fn comes_back(rt: &impl Abort, lease: &mut Lease, under: Under, vector: &Vector, sealed: &Sealed)
    requires elsewhere { IsElsewhere under KeyPlace.Second }
    requires single { length_of vector.now ≡ 8 → IsZero sealed.now.right }
{
    *lease.key_mut(KeyPlace::Second) = [0xff; 16];
    unseal(lease, under, vector, sealed, KeyPlace::Second);
    assert!(rt; *lease.key(KeyPlace::Second) == [0; 16]);
}

#[test]
fn a_zero_key_under_a_transport_key(rt: HostRuntime) {
    let mut bench = Workbench::new();
    let mut lease = Lease::open(&mut bench);
    *lease.key_mut(KeyPlace::First) = [0x01; 16];
    let vector = vector(&rt, 0, 0);
    let sealed = seal(&mut lease, Under::First, &vector);
    assert!(rt; sealed.left == ZERO_UNDER_ZERO);
    assert!(rt; sealed.right == [0; 8]);
    comes_back(&rt, &mut lease, Under::First, &vector, &sealed);
}

/// The first two bundle undo each other, and the vector makes the third part zero.
#[test]
fn a_zero_key_under_a_master_key(rt: HostRuntime) {
    let mut bench = Workbench::new();
    let mut lease = Lease::open(&mut bench);
    put_master(&mut lease, DATA_VECTOR);
    let single = vector(&rt, DATA_VECTOR, 0);
    let sealed = seal(&mut lease, Under::Current, &single);
    assert!(rt; sealed.left == ZERO_UNDER_ZERO);
    assert!(rt; sealed.right == [0; 8]);
    comes_back(&rt, &mut lease, Under::Current, &single, &sealed);

    put_master(&mut lease, DATA_RIGHT);
    let double = vector(&rt, DATA_LEFT, DATA_RIGHT);
    let sealed = seal(&mut lease, Under::Current, &double);
    assert!(rt; sealed.right == ZERO_UNDER_ZERO);
    comes_back(&rt, &mut lease, Under::Current, &double, &sealed);
}
