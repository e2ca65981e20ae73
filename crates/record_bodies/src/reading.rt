//! The token that a label is under, by the body of its record and what the memory knows of it.
ghost use Rattle.std.specs.Prelude.{◌≡◌, ◌↔◌, Option, None, Some, IsSome, IsNone, IfSome, IsTrue, is_some};
ghost use Rattle.record_bodies.specs.Entries.{null_row};
ghost use Rattle.record_bodies.specs.RecordBody.{HoldsUnder, IsKept, IsTokenOf, ReadsRow, held_token};
ghost use Rattle.record_bodies.specs.RecordBody.{null_kind, both_kind, no_token, no_second};

use crate::bodies::{
    BOTH, KEY, NULL, has_no_second, has_no_token, is_kept, is_record, pattern_in, second_in,
    second_token, token_in,
};
use crate::labels::Label;
use crate::rows::{Row, Second};
use master_registers::Pattern;

/// The row of a null record.
pub fn null_in(label: &Label, token: &[u8; 64], second: &Second) -> Option<Row>
    ensures none { IsNone result → token.now ≡ no_token → second.now ≡ no_second → ⊥ }
    ensures token { IsSome result → token.now ≡ no_token }
    ensures second { IsSome result → second.now ≡ no_second }
    ensures row { IfSome result (λ row. row ≡ null_row label.now) }
{
    if !has_no_token(token) || !has_no_second(second) {
        return None;
    }
    Some(Row {
        label: *label,
        pattern: None,
        ahead: None,
    })
}

/// The token that a label is under, or none of a null record, by a body and the row; the outer answer is none where the
/// body doesn't read as the row.
pub fn read_as(body: &[u8; 192], row: &Row) -> Option<Option<[u8; 64]>>
    ensures none { IsNone result → ReadsRow body.now (Some row.now) → ⊥ }
    ensures null { IfSome result (λ found. is_some found ≡ is_some row.now.pattern) }
    ensures reads { IsSome result → ReadsRow body.now (Some row.now) }
    ensures token { IfSome result (λ found. IfSome found (IsTokenOf body.now row.now)) }
{
    let kind = body[0];
    let token = token_in(body);
    let second = second_in(body);
    if !is_record(body, kind, &row.label, &token, &second) {
        return None;
    }
    match row.pattern {
        Some(pattern) => match token_under(&pattern, row.ahead, kind, &token, &second) {
            Some(found) => Some(Some(found)),
            None => None,
        },
        None => {
            if is_null(row.ahead, kind, &token, &second) {
                Some(None)
            } else {
                None
            }
        }
    }
}

/// Whether a record of this kind with these tokens is a null one that isn't ahead.
fn is_null(ahead: Option<Pattern>, kind: u8, token: &[u8; 64], second: &Second) -> bool
    ensures { IsTrue result ↔ ((kind ≡ null_kind) × (token.now ≡ no_token)
        × (second.now ≡ no_second) × (ahead ≡ None)) }
{
    kind == NULL && has_no_token(token) && has_no_second(second) && ahead.is_none()
}

/// The token that a label is under, of a record of this kind with these tokens; none where that isn't one that is kept
/// with this pattern, or where what stands beside it isn't what the mark of being ahead says.
fn token_under(
    pattern: &Pattern,
    ahead: Option<Pattern>,
    kind: u8,
    token: &[u8; 64],
    second: &Second,
) -> Option<[u8; 64]>
    ensures none { IsNone result → HoldsUnder pattern.now ahead kind token.now second.now → ⊥ }
    ensures some { IsSome result → HoldsUnder pattern.now ahead kind token.now second.now }
    ensures kept { IfSome result (λ found. IsKept found pattern.now) }
    ensures found { IfSome result (λ found.
        found ≡ held_token (is_some ahead) kind token.now second.now) }
{
    if kind == BOTH {
        return token_of_two(pattern, ahead, token, second);
    }
    if kind != KEY || ahead.is_some() {
        return None;
    }
    if has_no_second(second) && is_kept(token, pattern) {
        return Some(*token);
    }
    None
}

/// The same of a record with two tokens, of which one is parsed.
fn token_of_two(
    pattern: &Pattern,
    ahead: Option<Pattern>,
    token: &[u8; 64],
    second: &Second,
) -> Option<[u8; 64]>
    ensures none { IsNone result
        → HoldsUnder pattern.now ahead both_kind token.now second.now → ⊥ }
    ensures some { IsSome result
        → HoldsUnder pattern.now ahead both_kind token.now second.now }
    ensures kept { IfSome result (λ found. IsKept found pattern.now) }
    ensures found { IfSome result (λ found.
        found ≡ held_token (is_some ahead) both_kind token.now second.now) }
{
    let turned = match second_token(token, second) {
        Some(turned) => turned,
        None => return None,
    };
    let first = pattern_in(token);
    match ahead {
        Some(ahead) => {
            if first == *pattern && second.pattern == ahead {
                Some(*token)
            } else {
                None
            }
        }
        None => {
            if second.pattern == *pattern {
                Some(turned)
            } else {
                None
            }
        }
    }
}
