//! The test value of a key.
ghost use Rattle.std.specs.Prelude.{◌≡◌, take};
ghost use Rattle.key_cells.specs.Lease.{bench_of};
ghost use Rattle.multi_encipher.specs.Bundles.{ChangesKeyAt};
ghost use Rattle.verb_rules.specs.Keys.{HasHalves, opened};
ghost use Rattle.cipher_verbs.specs.CipherTexts.{test_value};

use crate::ciphering::is_single;
use des_blocks::{ede, encipher_block};
use key_cells::{KeyPlace, Lease};
use verb_rules::{Judged, schedule_key};

/// The first four bytes of a block.
fn front(block: &[u8; 8]) -> [u8; 4]
    ensures { result ≡ take 4 block.now }
{
    let mut bytes = [0; 4];
    bytes.copy_from_slice(&block[..4]);
    bytes
}

/// The first four bytes of a block of zeros enciphered under the clear key of a judged internal token. Only the
/// place `Key` and the schedules of the lease change.
pub fn key_test(lease: &mut Lease, key: &Judged) -> [u8; 4]
    requires { HasHalves key.now }
    ensures value { result ≡ test_value (opened (bench_of lease.old) key.now) }
    ensures stays { ChangesKeyAt KeyPlace.Key lease.old lease.new }
{
    schedule_key(lease, key);
    if is_single(key) {
        front(&encipher_block(&lease.schedules()[0], &[0; 8]))
    } else {
        front(&ede(lease.schedules(), &[0; 8]))
    }
}
