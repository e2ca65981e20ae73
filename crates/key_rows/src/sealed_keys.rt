//! Keys that are sealed under a master key of zeros, control vectors by their halves, and texts in the bench.
ghost use Rattle.std.specs.Prelude.{◌≡◌};
ghost use Rattle.verb_rules.specs.Keys.{HasHalves};

use cca_vectors::{Vector, vector_of};
use key_cells::{KeyPlace, Lease};
use key_tokens::{Kind, Token};
use multi_encipher::{Under, seal};
use std::process::Abort;
use verb_rules::{Age, Judged};

/// The sixteen bytes of two halves.
pub(crate) fn bytes_of(left: u64, right: u64) -> [u8; 16] {
    let mut bytes = [0; 16];
    bytes[..8].copy_from_slice(&left.to_be_bytes());
    bytes[8..].copy_from_slice(&right.to_be_bytes());
    bytes
}

pub(crate) fn vector(rt: &impl Abort, left: u64, right: u64) -> Vector {
    vector_of(&bytes_of(left, right)).expect(rt, "a control vector")
}

/// A token of the key with these halves.
pub(crate) fn judged_key(lease: &mut Lease, left: u64, right: u64, vector: &Vector) -> Judged
    ensures { HasHalves result }
{
    *lease.key_mut(KeyPlace::Key) = bytes_of(left, right);
    let sealed = seal(lease, Under::Current, vector);
    Judged {
        token: Token {
            kind: Kind::Internal,
            pattern: [0; 8],
            sealed,
            vector: *vector,
        },
        age: Some(Age::Current),
    }
}

pub(crate) fn put_text(rt: &impl Abort, lease: &mut Lease, text: &[u8]) {
    assert!(rt; text.len() <= 4096);
    lease.set_text_length(text.len());
    lease.text_mut().copy_from_slice(text);
}
