//! Tokens as they are written.
ghost use Rattle.std.specs.Prelude.{◌≡◌, ◌+◌, ◌≤◌, ◌++◌, None, length, take, slice_index};
ghost use Rattle.key_cells.specs.Bytes.{IsZero};
ghost use Rattle.cca_vectors.specs.Checks.{first_failing};
ghost use Rattle.cca_vectors.specs.Vectors.{length_of, IsValid};
ghost use Rattle.key_tokens.specs.declared.key_token.Asked.{Asked};
ghost use Rattle.key_tokens.specs.Kinds.{IsAsked, kind_byte};
ghost use Rattle.key_tokens.specs.Layout.{IsPatternFor, IsToken, contents, layout, made};
ghost use Rattle.key_tokens.specs.Fields.{token_of};
ghost use Rattle.key_tokens.specs.TokenChecks.{token_checks};

use crate::key_token::{Kind, Token};
use crate::reading::{EXTERNAL, INTERNAL, KEY_AND_VECTOR, VERSION};
use crate::validation::tvv;
use byteorder::{BigEndian, ByteOrder};

fn kind_byte(kind: Kind) -> u8
    ensures { result ≡ kind_byte kind }
{
    match kind {
        Kind::Internal => INTERNAL,
        Kind::External => EXTERNAL,
    }
}

/// Puts a piece behind the first `end` bytes, and says where it ends.
fn append(bytes: &mut [u8; 64], end: usize, piece: &[u8]) -> usize
    requires { end + length piece.now ≤ 64 }
    ensures end { result ≡ end + length piece.now }
    ensures pieces { take result bytes.new ≡ take end bytes.old ++ piece.now }
{
    let next = end + piece.len();
    bytes[end..next].copy_from_slice(piece);
    next
}

/// The token with a validation value.
fn with_tvv(token: &Token, tvv: u32) -> [u8; 64]
    ensures made { result ≡ contents (layout token.now KEY_AND_VECTOR tvv) }
    ensures valid { IsValid token.now.vector }
    ensures sized { (length token.now.pattern ≡ 8)
        × (length token.now.sealed.left ≡ 8) × (length token.now.sealed.right ≡ 8) }
{
    let left_vector = token.vector.left();
    let right_vector = token.vector.right();
    let mut bytes = [0; 64];
    let end = append(
        &mut bytes,
        0,
        &[
            kind_byte(token.kind),
            0,
            0,
            0,
            VERSION,
            0,
            KEY_AND_VECTOR,
            0,
        ],
    );
    let end = append(&mut bytes, end, &token.pattern);
    let end = append(&mut bytes, end, &token.sealed.left);
    let end = append(&mut bytes, end, &token.sealed.right);
    let end = append(&mut bytes, end, &left_vector);
    let end = append(&mut bytes, end, &right_vector);
    let end = append(&mut bytes, end, &[0; 12]);
    let mut value = [0; 4];
    BigEndian::write_u32(&mut value, tvv);
    append(&mut bytes, end, &value);
    bytes
}

/// The 64 bytes of a token, with flag C0 and its validation value. An external token has no pattern, and a
/// single-length key no right half.
pub fn write_token(token: &Token) -> [u8; 64]
    requires pattern { IsPatternFor token.now.kind token.now.pattern }
    requires right { length_of token.now.vector ≡ 8 → IsZero token.now.sealed.right }
    ensures made { result ≡ made token.now }
    ensures flag { slice_index result 6 ≡ KEY_AND_VECTOR }
    ensures token { IsToken result token.now }
    ensures fields { token_of result ≡ token.now }
    ensures accepted { (asked : Asked) → IsAsked asked token.now.kind
        → first_failing (token_checks asked result) ≡ None }
{
    with_tvv(token, tvv(&with_tvv(token, 0)))
}
