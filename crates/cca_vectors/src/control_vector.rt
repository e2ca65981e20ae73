ghost use Rattle.std.specs.Prelude.{◌≡◌, ◌↔◌, ◌<◌, ◌++◌, ◌==◌, IsOk, IfOk, OnOk, IfErr, None, Some, false, ℕ, List};
ghost use Rattle.std.specs.Option.{option_map};
ghost use Rattle.cca_vectors.specs.Bits.{bit as bit_of, even_byte};
ghost use Rattle.cca_vectors.specs.Checks.{first_failing};
ghost use Rattle.cca_vectors.specs.Vectors.{IsValid, left_of, right_of, length_of, is_part_of, form_of};
ghost use Rattle.cca_vectors.specs.VectorChecks.{is_even, is_anti_variant, has_form, right_half_for, vector_checks, rule_of};
ghost use Rattle.cca_vectors.specs.Classes.{class_of};
ghost use Rattle.cca_vectors.specs.Permissions.{permits, is_exportable};
ghost use Rattle.cca_vectors.specs.Closing.{closed_byte, closed_half, closed_to_export, closed_zero};
ghost use Rattle.cca_vectors.specs.PartVectors.{as_part};

use crate::key_class::Class;
use crate::key_part::part_half;
use crate::key_usage::{Usage, is_data_bit};
use key_cells::is_zero;
use std::marker::Model;
use thiserror::Error;

/// The key form 000, of a key that has no right half.
const SINGLE_LENGTH: u8 = 0;

/// The key form 010, of the left half of a double-length key.
const LEFT_OF_DOUBLE: u8 = 2;

/// The key form 001, of its right half.
const RIGHT_OF_DOUBLE: u8 = 1;

/// The key form 110, of the left half of a double-length key whose halves are guaranteed unique.
const LEFT_OF_UNIQUE: u8 = 6;

/// The key form 101, of its right half.
const RIGHT_OF_UNIQUE: u8 = 5;

/// The bit that permits export.
const EXPORT: usize = 17;

/// The all-zero vector stands for this one, but for the export bit: that of a single-length DATA key.
const ZERO_WITHOUT_EXPORT: [u8; 16] = [0, 0, 0x3c, 0, 3, 0, 0, 0, 0, 0, 0, 0, 0, 0, 0, 0];

/// A valid control vector: 16 bytes, the first 8 for the left half of a key and the last 8 for its right
/// half, which are zero for a key of single length. A double-length key may have halves that are guaranteed unique, by a
/// key form of their own.
#[derive(Clone, Copy, Debug, PartialEq, Eq)]
pub struct Vector {
    bytes: [u8; 16],
}

impl Model for Vector {
    ghost use Rattle.std.specs.Prelude.{ℕ, List};
    ghost use Rattle.cca_vectors.specs.Vectors.{IsValid};

    ghost Value = { List ℕ };

    ghost view = { λ v. v.bytes };

    ghost invariant = { λ v. IsValid v.bytes };

    ghost inverse = { λ bytes. record { bytes = bytes } };
}

/// Why 16 bytes are no control vector.
#[derive(Clone, Copy, Debug, PartialEq, Eq, Error)]
pub enum VectorFault {
    #[error("a byte has an odd number of ones")]
    Parity,
    #[error("a half that isn't all zero has bit 30 on or bit 38 off")]
    AntiVariant,
    #[error("the key form isn't known, or the right half doesn't belong to the left one")]
    Form,
}

/// Whether a bit of a half is on. Bit 0 is the most significant bit of byte 0.
fn has_bit(half: &[u8; 8], bit: usize) -> bool
    requires { bit < 64 }
    ensures { result ≡ (bit_of half.now bit == 1) }
{
    (half[bit / 8] >> (7 - bit % 8)) % 2 == 1
}

fn is_even(bytes: &[u8; 16]) -> bool
    ensures { result ≡ is_even bytes.now }
{
    bytes.iter().all(|byte| byte.count_ones() % 2 == 0)
}

fn is_anti_variant(half: &[u8; 8]) -> bool
    ensures { result ≡ is_anti_variant half.now }
{
    is_zero(half) || (half[3] / 2 % 2 == 0 && half[4] / 2 % 2 == 1)
}

fn key_form(half: &[u8; 8]) -> u8
    ensures { result ≡ form_of half.now }
{
    half[5] / 32
}

fn even_byte(byte: u8) -> u8
    ensures { result ≡ even_byte byte }
{
    let seven = byte / 2;
    seven * 2 + (seven.count_ones() % 2) as u8
}

fn right_half_for(form: u8, left: &[u8; 8]) -> [u8; 8]
    requires { form < 8 }
    ensures { result ≡ right_half_for form left.now }
{
    let mut right = *left;
    right[5] = even_byte(32 * form + left[5] % 32);
    right
}

fn has_form(left: &[u8; 8], right: &[u8; 8]) -> bool
    ensures { result ≡ has_form left.now right.now }
{
    match key_form(left) {
        SINGLE_LENGTH => is_zero(right),
        LEFT_OF_DOUBLE => *right == right_half_for(RIGHT_OF_DOUBLE, left),
        LEFT_OF_UNIQUE => *right == right_half_for(RIGHT_OF_UNIQUE, left),
        _ => false,
    }
}

fn left_half(bytes: &[u8; 16]) -> [u8; 8]
    ensures { result ≡ left_of bytes.now }
{
    let mut half = [0; 8];
    half.copy_from_slice(&bytes[..8]);
    half
}

fn right_half(bytes: &[u8; 16]) -> [u8; 8]
    ensures { result ≡ right_of bytes.now }
{
    let mut half = [0; 8];
    half.copy_from_slice(&bytes[8..]);
    half
}

fn joined(left: &[u8; 8], right: &[u8; 8]) -> [u8; 16]
    ensures { result ≡ left.now ++ right.now }
{
    let mut bytes = [0; 16];
    bytes[..8].copy_from_slice(left);
    bytes[8..].copy_from_slice(right);
    bytes
}

/// Byte 2 of a half without the export bit, and with bit 23 as its parity asks.
fn closed_byte(byte: u8) -> u8
    ensures { result ≡ closed_byte byte }
{
    even_byte(byte - 64 * (byte / 64 % 2))
}

fn closed_half(half: &[u8; 8]) -> [u8; 8]
    ensures { result ≡ closed_half half.now }
{
    let mut closed = *half;
    if !is_zero(half) {
        closed[2] = closed_byte(half[2]);
    }
    closed
}

/// The first rule that the bytes break.
fn first_fault(bytes: &[u8; 16]) -> Option<VectorFault>
    ensures { option_map rule_of result ≡ first_failing (vector_checks bytes.now) }
{
    let left = left_half(bytes);
    let right = right_half(bytes);
    if !is_even(bytes) {
        return Some(VectorFault::Parity);
    }
    if !(is_anti_variant(&left) && is_anti_variant(&right)) {
        return Some(VectorFault::AntiVariant);
    }
    if !has_form(&left, &right) {
        return Some(VectorFault::Form);
    }
    None
}

/// The control vector of these 16 bytes, or the first rule in the order of `VectorFault` that they break.
pub fn vector_of(bytes: &[u8; 16]) -> Result<Vector, VectorFault>
    ensures vector { IfOk result (λ vector. vector ≡ bytes.now) }
    ensures accepted { OnOk result (first_failing (vector_checks bytes.now) ≡ None) }
    ensures refused { IfErr result
        (λ fault. first_failing (vector_checks bytes.now) ≡ Some (rule_of fault)) }
    ensures valid { IsOk result ↔ IsValid bytes.now }
{
    if let Some(fault) = first_fault(bytes) {
        return Err(fault);
    }
    Ok(Vector { bytes: *bytes })
}

impl Vector {
    /// The vector of the left half of the key.
    pub fn left(&self) -> [u8; 8]
        ensures left { result ≡ left_of self.now }
        ensures valid { IsValid self.now }
    {
        left_half(&self.bytes)
    }

    /// The vector of the right half of the key: zeros for a key of single length.
    pub fn right(&self) -> [u8; 8]
        ensures right { result ≡ right_of self.now }
        ensures valid { IsValid self.now }
    {
        right_half(&self.bytes)
    }

    pub fn class(&self) -> Class
        ensures { result ≡ class_of self.now }
    {
        Class::of_byte(self.bytes[1])
    }

    /// How many bytes the key has: 8 or 16.
    pub fn length(&self) -> usize
        ensures length { result ≡ length_of self.now }
        ensures valid { IsValid self.now }
    {
        if key_form(&left_half(&self.bytes)) == SINGLE_LENGTH {
            8
        } else {
            16
        }
    }

    /// Whether the key is a part, to which others are to be added.
    pub fn is_part(&self) -> bool
        ensures { result ≡ is_part_of self.now }
    {
        self.bytes[5] / 8 % 2 == 1
    }

    /// Whether the left vector's bit for this use is on. The all-zero vector, that of a single-length DATA key,
    /// permits every use of a DATA key.
    pub fn permits(&self, usage: Usage) -> bool
        ensures { result ≡ permits self.now usage }
    {
        let bit = usage.bit();
        has_bit(&left_half(&self.bytes), bit) || (is_zero(&self.bytes) && is_data_bit(bit))
    }

    /// Whether the key may be exported: the export bit is on, or the vector is all zero.
    pub fn exportable(&self) -> bool
        ensures { result ≡ is_exportable self.now }
    {
        is_zero(&self.bytes) || has_bit(&left_half(&self.bytes), EXPORT)
    }

    /// The vector with its export bit off in both halves, and bit 23 as the parity of byte 2 asks; as it is, where it
    /// forbids export. The all-zero vector becomes that of a single-length DATA key that may not be exported.
    pub fn without_export(&self) -> Vector
        ensures vector { result ≡ closed_to_export self.now }
        ensures closed { is_exportable result ≡ false }
        ensures length { length_of result ≡ length_of self.now }
        ensures valid { IsValid result }
    {
        if !self.exportable() {
            return *self;
        }
        if is_zero(&self.bytes) {
            return Vector {
                bytes: ZERO_WITHOUT_EXPORT,
            };
        }
        let left = closed_half(&left_half(&self.bytes));
        let right = closed_half(&right_half(&self.bytes));
        Vector {
            bytes: joined(&left, &right),
        }
    }

    /// The vector of a part of the key, where this is that of a key, and the vector of the whole key, where this is that
    /// of a part: bit 44, the key-part bit, and bit 47 are changed in each half that isn't all zero.
    pub fn as_part(&self) -> Vector
        ensures vector { result ≡ as_part self.now }
        ensures length { length_of result ≡ length_of self.now }
        ensures valid { IsValid result }
    {
        let left = part_half(&left_half(&self.bytes));
        let right = part_half(&right_half(&self.bytes));
        Vector {
            bytes: joined(&left, &right),
        }
    }
}

/// A valid vector that is made one that forbids export is valid, and forbids it.
pub fn a_vector_can_be_closed()
    ensures valid { (vector : List ℕ) → IsValid vector → IsValid (closed_to_export vector) }
    ensures closed { (vector : List ℕ) → IsValid vector
        → is_exportable (closed_to_export vector) ≡ false }
    ensures length { (vector : List ℕ) → IsValid vector
        → length_of (closed_to_export vector) ≡ length_of vector }
{}
