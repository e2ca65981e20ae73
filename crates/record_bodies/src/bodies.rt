//! A record as the body of a cell.
ghost use Rattle.std.specs.Prelude.{◌≡◌, ◌↔◌, ◌+◌, ◌≤◌, ◌<◌, Option, None, Some, IfSome, IsSome, IsNone, IsTrue, false};
ghost use Rattle.std.specs.Prelude.{slice_range};
ghost use Rattle.key_cells.specs.Bytes.{AreBytes};
ghost use Rattle.cca_vectors.specs.Checks.{first_failing};
ghost use Rattle.key_tokens.specs.Denotes.{MasterKeys, denoted};
ghost use Rattle.key_tokens.specs.Fields.{pattern_of_token, token_of};
ghost use Rattle.key_tokens.specs.TokenChecks.{token_checks};
ghost use Rattle.record_bodies.specs.RecordBody.{record_body, blank_body, no_token, no_second, renewed, kept, IsKept};
ghost use Rattle.record_bodies.specs.RecordBody.{label_in, second_in, second_token, IsFirst, IsSecond};
ghost use Rattle.record_bodies.specs.Labels.{IsLabel};

use crate::labels::Label;
use crate::rows::Second;
use key_cells::is_zero;
use key_tokens::{Asked, Kind, Token, read_token, write_token};
use master_registers::Pattern;
use multi_encipher::Sealed;

/// What byte 0 of a null record is.
pub const NULL: u8 = 1;

/// What byte 0 of a key is.
pub const KEY: u8 = 2;

/// What byte 0 of a key with two tokens is.
pub const BOTH: u8 = 3;

/// The flag of a token as it is kept.
pub const KEY_AND_VECTOR: u8 = 0xc0;

/// What stands in the place of a second token where there is none.
pub fn no_second() -> Second
    ensures { result ≡ no_second }
{
    Second {
        pattern: Pattern { bytes: [0; 8] },
        sealed: Sealed {
            left: [0; 8],
            right: [0; 8],
        },
    }
}

/// Writes the body of a record.
pub fn write_record(
    body: &mut [u8; 192],
    kind: u8,
    label: &Label,
    token: &[u8; 64],
    second: &Second,
)
    ensures body { body.new ≡ record_body kind label.now token.now second.now }
    ensures label { IsLabel label.now }
{
    body.fill(0);
    body[0] = kind;
    body[1] = label.length();
    body[2..66].copy_from_slice(label.filled());
    body[66..130].copy_from_slice(token);
    body[130..138].copy_from_slice(&second.pattern.bytes);
    body[138..146].copy_from_slice(&second.sealed.left);
    body[146..154].copy_from_slice(&second.sealed.right);
}

/// Writes the body of a cell that holds no record.
pub fn write_blank(body: &mut [u8; 192])
    ensures { body.new ≡ blank_body }
{
    body.fill(0);
}

/// Whether the body is that of a record.
pub fn is_record(
    body: &[u8; 192],
    kind: u8,
    label: &Label,
    token: &[u8; 64],
    second: &Second,
) -> bool
    ensures body { IsTrue result ↔ (body.now ≡ record_body kind label.now token.now second.now) }
    ensures label { IsLabel label.now }
{
    let mut spelled = [0; 192];
    write_record(&mut spelled, kind, label, token, second);
    *body == spelled
}

pub(crate) fn are_bytes(token: &[u8; 64])
    ensures { AreBytes 64 token.now }
{
    let _zero = is_zero(token);
}

fn are_eight(bytes: &[u8; 8])
    ensures { AreBytes 8 bytes.now }
{
    let _zero = is_zero(bytes);
}

/// The bytes of a second token are below 256: a fact that contracts use.
pub fn are_second(second: &Second)
    ensures pattern { AreBytes 8 second.now.pattern.bytes }
    ensures left { AreBytes 8 second.now.sealed.left }
    ensures right { AreBytes 8 second.now.sealed.right }
{
    are_eight(&second.pattern.bytes);
    are_eight(&second.sealed.left);
    are_eight(&second.sealed.right);
}

/// Whether every byte is zero.
pub fn is_blank(body: &[u8; 192]) -> bool
    ensures { IsTrue result ↔ (body.now ≡ blank_body) }
{
    is_zero(body)
}

pub(crate) fn has_no_token(token: &[u8; 64]) -> bool
    ensures { IsTrue result ↔ (token.now ≡ no_token) }
{
    is_zero(token)
}

pub fn has_no_second(second: &Second) -> bool
    ensures { IsTrue result ↔ (second.now ≡ no_second) }
{
    *second == no_second()
}

/// The token that stands in a body.
pub fn token_in(body: &[u8; 192]) -> [u8; 64]
    ensures token { result ≡ slice_range body.now 66 130 }
    ensures bytes { AreBytes 64 result }
{
    let mut token = [0; 64];
    token.copy_from_slice(&body[66..130]);
    are_bytes(&token);
    token
}

fn eight_in(body: &[u8; 192], at: usize) -> [u8; 8]
    requires { at + 8 ≤ 192 }
    ensures eight { result ≡ slice_range body.now at (at + 8) }
    ensures bytes { AreBytes 8 result }
{
    let mut bytes = [0; 8];
    bytes.copy_from_slice(&body[at..at + 8]);
    are_eight(&bytes);
    bytes
}

/// The second token that stands in a body.
pub fn second_in(body: &[u8; 192]) -> Second
    ensures second { result ≡ second_in body.now }
    ensures pattern { AreBytes 8 result.pattern.bytes }
    ensures left { AreBytes 8 result.sealed.left }
    ensures right { AreBytes 8 result.sealed.right }
{
    let bytes = eight_in(body, 130);
    let left = eight_in(body, 138);
    let right = eight_in(body, 146);
    Second {
        pattern: Pattern { bytes },
        sealed: Sealed { left, right },
    }
}

/// Whether a token is one that is kept, with this pattern.
pub(crate) fn is_kept(token: &[u8; 64], pattern: &Pattern) -> bool
    ensures kept { IsTrue result → IsKept token.now pattern.now }
    ensures other { result ≡ false → IsKept token.now pattern.now → ⊥ }
{
    are_bytes(token);
    if token[6] != KEY_AND_VECTOR {
        return false;
    }
    let read = read_token(token, Asked::Internal);
    if read.is_err() {
        return false;
    }
    pattern_in(token) == *pattern
}

/// The pattern that stands in a token.
pub fn pattern_in(token: &[u8; 64]) -> Pattern
    ensures { result.bytes ≡ slice_range token.now 8 16 }
{
    let mut bytes = [0; 8];
    bytes.copy_from_slice(&token[8..16]);
    Pattern { bytes }
}

/// The label that stands in a body.
pub fn label_in(body: &[u8; 192]) -> Option<Label>
    ensures found { IfSome result (λ label. label ≡ label_in body.now) }
    ensures label { IfSome result IsLabel }
    ensures none { IsNone result → IsLabel (label_in body.now) → ⊥ }
{
    let length = body[1] as usize;
    if length > 64 {
        return None;
    }
    Label::read(&body[2..2 + length])
}

/// The token as it is kept: with flag C0, and its validation value made anew. One with this flag is kept as it is.
pub fn kept_token(token: &[u8; 64]) -> [u8; 64]
    requires { first_failing (token_checks Asked.Internal token.now) ≡ None }
    ensures renewed { result ≡ renewed token.now }
    ensures fields { token_of result ≡ token_of token.now }
    ensures kept { (masters : MasterKeys) → kept masters result ≡ denoted masters token.now }
    ensures known { IsKept result (record { bytes = pattern_of_token token.now }) }
{
    are_bytes(token);
    if token[6] == KEY_AND_VECTOR {
        return *token;
    }
    match read_token(token, Asked::Internal) {
        Ok(token) => {
            let written = write_token(&token);
            are_bytes(&written);
            written
        }
        Err(_) => unreachable!(),
    }
}

/// The 64 bytes of a second token; none where the first isn't one that is kept, or where the second has a right half
/// that its length doesn't have.
pub fn second_token(token: &[u8; 64], second: &Second) -> Option<[u8; 64]>
    ensures none { IsNone result → IsFirst token.now → IsSecond token.now second.now → ⊥ }
    ensures found { IfSome result (λ found. found ≡ second_token token.now second.now) }
    ensures first { IsSome result → IsFirst token.now }
    ensures second { IsSome result → IsSecond token.now second.now }
    ensures sound { IfSome result (λ found. IsKept found second.now.pattern) }
{
    if token[6] != KEY_AND_VECTOR {
        return None;
    }
    are_bytes(token);
    are_second(second);
    match read_token(token, Asked::Internal) {
        Ok(first) => {
            if first.vector.length() == 8 && !is_zero(&second.sealed.right) {
                return None;
            }
            let written = write_token(&Token {
                kind: Kind::Internal,
                pattern: second.pattern.bytes,
                sealed: second.sealed,
                vector: first.vector,
            });
            are_bytes(&written);
            Some(written)
        }
        Err(_) => None,
    }
}

/// Whether the halves of two keys are the same.
pub fn are_same(one: &Sealed, other: &Sealed) -> bool
    ensures { IsTrue result ↔ (one.now ≡ other.now) }
{
    *one == *other
}
