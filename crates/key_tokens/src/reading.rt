ghost use Rattle.std.specs.Prelude.{◌≡◌, ◌<◌, ◌≤◌, ◌+◌, IfOk, OnOk, IfErr, None, Some, Ok, length, slice_range};
ghost use Rattle.std.specs.Option.{option_map};
ghost use Rattle.cca_vectors.specs.Checks.{first_failing};
ghost use Rattle.cca_vectors.specs.VectorChecks as vectors;
ghost use Rattle.key_tokens.specs.declared.key_token.Token.{Token};
ghost use Rattle.key_tokens.specs.Kinds.{is_asked, kind_at, IsAsked};
ghost use Rattle.key_tokens.specs.Fields.{token_of, sealed_of, pattern_of_token, vector_bytes_of};
ghost use Rattle.key_tokens.specs.Layout.{IsToken};
ghost use Rattle.key_tokens.specs.TokenChecks.{stored_tvv, has_flag, reserved_is_zero, header_checks, token_checks, rule_of};

use crate::key_token::{Asked, Kind, Token, TokenFault};
use crate::validation::{tvv, word_at};
use cca_vectors::{Vector, VectorFault, vector_of};
use key_cells::is_zero;
use multi_encipher::Sealed;

pub(crate) const INTERNAL: u8 = 0x01;

pub(crate) const EXTERNAL: u8 = 0x02;

pub(crate) const VERSION: u8 = 0x00;
/// A key is there, and its control vector.
pub(crate) const KEY_AND_VECTOR: u8 = 0xc0;
/// A key is there, with a control vector that is zero.
const KEY_ALONE: u8 = 0x80;

fn is_asked(asked: Asked, byte: u8) -> bool
    ensures { result ≡ is_asked asked byte }
{
    match asked {
        Asked::Internal => byte == INTERNAL,
        Asked::External => byte == EXTERNAL,
        Asked::Either => byte == INTERNAL || byte == EXTERNAL,
    }
}

fn kind_at(byte: u8) -> Kind
    ensures { result ≡ kind_at byte }
{
    if byte == INTERNAL {
        Kind::Internal
    } else {
        Kind::External
    }
}

fn has_flag(bytes: &[u8; 64]) -> bool
    ensures { result ≡ has_flag bytes.now }
{
    bytes[6] == KEY_AND_VECTOR || (bytes[6] == KEY_ALONE && is_zero(&bytes[32..48]))
}

fn reserved_is_zero(bytes: &[u8; 64]) -> bool
    ensures { result ≡ reserved_is_zero bytes.now }
{
    is_zero(&bytes[1..4])
        && is_zero(&bytes[5..6])
        && is_zero(&bytes[7..8])
        && is_zero(&bytes[48..60])
        && (bytes[0] != EXTERNAL || is_zero(&bytes[8..16]))
}

/// The first rule that the bytes around the key break.
fn header_fault(bytes: &[u8; 64], asked: Asked) -> Option<TokenFault>
    ensures { option_map rule_of result ≡ first_failing (header_checks asked bytes.now) }
{
    if !is_asked(asked, bytes[0]) {
        return Some(TokenFault::Kind);
    }
    if word_at(bytes, 60) != tvv(bytes) {
        return Some(TokenFault::Tvv);
    }
    if bytes[4] != VERSION {
        return Some(TokenFault::Version);
    }
    if !has_flag(bytes) {
        return Some(TokenFault::Flag);
    }
    if !reserved_is_zero(bytes) {
        return Some(TokenFault::Reserved);
    }
    None
}

fn eight_at(bytes: &[u8; 64], place: usize) -> [u8; 8]
    requires { place + 8 ≤ 64 }
    ensures { result ≡ slice_range bytes.now place (place + 8) }
{
    let mut eight = [0; 8];
    eight.copy_from_slice(&bytes[place..place + 8]);
    eight
}

fn vector_bytes(bytes: &[u8; 64]) -> [u8; 16]
    ensures { result ≡ vector_bytes_of bytes.now }
{
    let mut vector = [0; 16];
    vector.copy_from_slice(&bytes[32..48]);
    vector
}

fn sealed_of(bytes: &[u8; 64]) -> Sealed
    ensures { result ≡ sealed_of bytes.now }
{
    Sealed {
        left: eight_at(bytes, 16),
        right: eight_at(bytes, 24),
    }
}

fn token_fault(fault: VectorFault) -> TokenFault
    ensures { rule_of result ≡ vectors.rule_of fault }
{
    match fault {
        VectorFault::Parity => TokenFault::Parity,
        VectorFault::AntiVariant => TokenFault::AntiVariant,
        VectorFault::Form => TokenFault::Form,
    }
}

/// The control vector of a token that breaks no rule, or the first rule that the bytes break.
fn checked_vector(bytes: &[u8; 64], asked: Asked) -> Result<Vector, TokenFault>
    ensures vector { IfOk result (λ vector. vector ≡ vector_bytes_of bytes.now) }
    ensures accepted { OnOk result (first_failing (token_checks asked bytes.now) ≡ None) }
    ensures refused { IfErr result (λ fault.
        first_failing (token_checks asked bytes.now) ≡ Some (rule_of fault)) }
{
    if let Some(fault) = header_fault(bytes, asked) {
        return Err(fault);
    }
    let vector = match vector_of(&vector_bytes(bytes)) {
        Ok(vector) => vector,
        Err(fault) => return Err(token_fault(fault)),
    };
    if vector.length() == 8 && !is_zero(&bytes[24..32]) {
        return Err(TokenFault::Form);
    }
    Ok(vector)
}

/// The token that the bytes are, or the first rule in the order of `TokenFault` that they break.
pub fn read_token(bytes: &[u8; 64], asked: Asked) -> Result<Token, TokenFault>
    ensures token { IfOk result (λ token. token ≡ token_of bytes.now) }
    ensures accepted { OnOk result (first_failing (token_checks asked bytes.now) ≡ None) }
    ensures refused { IfErr result (λ fault.
        first_failing (token_checks asked bytes.now) ≡ Some (rule_of fault)) }
    ensures layout { IfOk result (λ token. IsToken bytes.now token × IsAsked asked token.kind) }
    ensures only { (token : Token) → IsToken bytes.now token → IsAsked asked token.kind
        → result ≡ Ok token }
{
    let vector = checked_vector(bytes, asked)?;
    Ok(Token {
        kind: kind_at(bytes[0]),
        pattern: eight_at(bytes, 8),
        sealed: sealed_of(bytes),
        vector,
    })
}
