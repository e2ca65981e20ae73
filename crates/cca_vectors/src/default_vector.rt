//! The control vectors of keys that are generated.
ghost use Rattle.std.specs.Prelude.{◌≡◌, IfSome, ℕ, List};
ghost use Rattle.cca_vectors.specs.declared.key_type.KeyType.{KeyType};
ghost use Rattle.cca_vectors.specs.declared.key_length.Length.{Length};
ghost use Rattle.cca_vectors.specs.DefaultVectors.{default_for, default_vector, double_default, single_default, size_of, vector_with, with_unique_halves};
ghost use Rattle.cca_vectors.specs.Vectors.{IsValid, length_of};

use crate::control_vector::{Vector, vector_of};
use crate::key_length::Length;
use crate::key_type::KeyType;

/// A control vector by its two halves.
fn vector_with(left: u64, right: u64) -> [u8; 16]
    ensures { result ≡ vector_with left right }
{
    let mut bytes = [0; 16];
    bytes[..8].copy_from_slice(&left.to_be_bytes());
    bytes[8..].copy_from_slice(&right.to_be_bytes());
    bytes
}

/// The left half of the control vector of a single-length key of this type.
fn single_default(kind: KeyType) -> Option<u64>
    ensures { result ≡ single_default kind }
{
    match kind {
        KeyType::Data => Some(0x0000_7d00_0300_0000),
        KeyType::Cipher => Some(0x0003_7100_0300_0000),
        KeyType::Encipher => Some(0x0003_6000_0300_0000),
        KeyType::Decipher => Some(0x0003_5000_0300_0000),
        KeyType::Mac => Some(0x0005_4d00_0300_0000),
        KeyType::Macver => Some(0x0005_4400_0300_0000),
        KeyType::Datac
        | KeyType::Datam
        | KeyType::Datamv
        | KeyType::Exporter
        | KeyType::Importer
        | KeyType::Okeyxlat
        | KeyType::Ikeyxlat => None,
    }
}

/// The control vector of a double-length key of this type.
fn double_default(kind: KeyType) -> Option<[u8; 16]>
    ensures { result ≡ double_default kind }
{
    let (left, right) = match kind {
        KeyType::Data => (0x0000_7d00_0341_0000, 0x0000_7d00_0321_0000),
        KeyType::Datac => (0x0000_7100_0341_0000, 0x0000_7100_0321_0000),
        KeyType::Datam => (0x0000_4d00_0341_0000, 0x0000_4d00_0321_0000),
        KeyType::Datamv => (0x0000_4400_0341_0000, 0x0000_4400_0321_0000),
        KeyType::Mac => (0x0005_4d00_0341_0000, 0x0005_4d00_0321_0000),
        KeyType::Macver => (0x0005_4400_0341_0000, 0x0005_4400_0321_0000),
        KeyType::Exporter => (0x0041_7d00_0341_0000, 0x0041_7d00_0321_0000),
        KeyType::Importer => (0x0042_7d00_0341_0000, 0x0042_7d00_0321_0000),
        KeyType::Okeyxlat => (0x0041_4200_0341_0000, 0x0041_4200_0321_0000),
        KeyType::Ikeyxlat => (0x0042_4200_0341_0000, 0x0042_4200_0321_0000),
        KeyType::Cipher | KeyType::Encipher | KeyType::Decipher => return None,
    };
    Some(vector_with(left, right))
}

fn default_bytes(kind: KeyType, length: usize) -> Option<[u8; 16]>
    ensures { result ≡ default_vector kind length }
{
    match length {
        8 => match single_default(kind) {
            Some(left) => Some(vector_with(left, 0)),
            None => None,
        },
        16 => double_default(kind),
        _ => None,
    }
}

/// The control vector that a key of this type and of so many bytes gets; none where the type doesn't have the length.
pub fn default_of_size(kind: KeyType, size: usize) -> Option<Vector>
    ensures vector { result ≡ default_vector kind size }
    ensures length { IfSome result (λ vector. length_of vector ≡ size) }
{
    match default_bytes(kind, size) {
        Some(bytes) => vector_of(&bytes).ok(),
        None => None,
    }
}

/// The vector of a double-length key made that of one whose halves are guaranteed unique.
fn with_unique_halves(bytes: &[u8; 16]) -> [u8; 16]
    ensures { result ≡ with_unique_halves bytes.now }
{
    let mut unique = *bytes;
    unique[5] = 0xc0;
    unique[13] = 0xa0;
    unique
}

/// The bytes of the control vector of a type and a length.
fn bytes_for(kind: KeyType, length: Length) -> Option<[u8; 16]>
    ensures { result ≡ default_for kind length }
{
    match length {
        Length::Eight => default_bytes(kind, 8),
        Length::Sixteen => default_bytes(kind, 16),
        Length::Unique => match default_bytes(kind, 16) {
            Some(bytes) => Some(with_unique_halves(&bytes)),
            None => None,
        },
    }
}

/// The control vector that a generated key of this type and length gets; none where the type doesn't have the length.
pub fn default_of(kind: KeyType, length: Length) -> Option<Vector>
    ensures vector { result ≡ default_for kind length }
    ensures length { IfSome result (λ vector. length_of vector ≡ size_of length) }
{
    match bytes_for(kind, length) {
        Some(bytes) => vector_of(&bytes).ok(),
        None => None,
    }
}

/// Each of these control vectors is valid, and is that of a key of its length.
pub fn default_vectors_are_valid()
    ensures valid { (kind : KeyType) (size : ℕ) → IfSome (default_vector kind size) IsValid }
    ensures length { (kind : KeyType) (size : ℕ)
        → IfSome (default_vector kind size) (λ vector. length_of vector ≡ size) }
    ensures valid_for { (kind : KeyType) (length : Length)
        → IfSome (default_for kind length) IsValid }
    ensures length_for { (kind : KeyType) (length : Length)
        → IfSome (default_for kind length) (λ vector. length_of vector ≡ size_of length) }
{}
