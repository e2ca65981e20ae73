//! What the memory knows of the record whose body was read.
ghost use Rattle.std.specs.Prelude.{◌≡◌, ◌≢◌, ◌↔◌, Option, None, Some, IfSome, IsSome, IsNone, IsTrue, option_map};
ghost use Rattle.key_cells.specs.Lease.{bench_of};
ghost use Rattle.key_records.specs.Changes.{ChangesKeyAndBody};
ghost use Rattle.record_bodies.specs.Entries.{Entry, pattern_for, remembered};
ghost use Rattle.record_bodies.specs.Opening.{pattern_coming};
ghost use Rattle.record_bodies.specs.RecordBody.{blank_body, no_second, both_kind, kept, IsFirst};
ghost use Rattle.record_bodies.specs.RecordBody.{ReadsEntry, entry_in, IsBoth, IsPair, IsWhat, what_of, ahead_of, unused_of};
ghost use Rattle.master_registers.specs.Loaded.{Loaded, registers_of};
ghost use Rattle.master_registers.specs.Masters.{Masters};
ghost use Rattle.verb_rules.specs.Keys.{keys_of};

use key_cells::{KeyPlace, Lease, MasterPlace};
use key_tokens::{Age, Asked, read_token};
use master_registers::{NewState, Pattern, Registers, has_pattern, pattern_of};
use multi_encipher::{Under, seal};
use record_bodies::{
    BOTH, KEY, KEY_AND_VECTOR, Label, NULL, Row, Second, are_same, has_no_second, is_blank,
    is_record, label_in, null_in, pattern_in, second_in, second_token, token_in,
};
use verb_rules::{Judged, open_key};

/// The pattern of a full new register.
pub(crate) fn coming_pattern(lease: &Lease, held: &Registers) -> Option<Pattern>
    ghost m: { Masters }
    requires { Loaded m held.now (bench_of lease.now) }
    ensures { result ≡ pattern_coming (keys_of m) }
{
    match held.new_state {
        NewState::Full => Some(pattern_of(lease, MasterPlace::New)),
        NewState::Partial => None,
        NewState::Empty => None,
    }
}

/// What the memory knows of the record whose body is in the workbench. The outer answer is none where the body reads as
/// nothing.
pub(crate) fn read_row(
    lease: &mut Lease,
    held: &Registers,
    coming: Option<Pattern>,
) -> Option<Option<Row>>
    ghost m: { Masters }
    requires loaded { Loaded m held.now (bench_of lease.old) }
    requires coming { coming ≡ pattern_coming (keys_of m) }
    ensures reads { IsSome result → ReadsEntry (keys_of m) (bench_of lease.old).body
        (entry_in (keys_of m) (bench_of lease.old).body) }
    ensures row { IfSome result (λ row. row
        ≡ remembered (keys_of m) (entry_in (keys_of m) (bench_of lease.old).body)) }
    ensures none { IsNone result → (e : Option Entry)
        → ReadsEntry (keys_of m) (bench_of lease.old).body e → ⊥ }
    ensures rest { ChangesKeyAndBody lease.old lease.new }
{
    if is_blank(lease.body()) {
        return Some(None);
    }
    read_record(lease, held, coming)
}

/// The same of a body that isn't blank.
fn read_record(lease: &mut Lease, held: &Registers, coming: Option<Pattern>) -> Option<Option<Row>>
    ghost m: { Masters }
    requires loaded { Loaded m held.now (bench_of lease.old) }
    requires coming { coming ≡ pattern_coming (keys_of m) }
    requires some { (bench_of lease.old).body ≢ blank_body }
    ensures reads { IsSome result → ReadsEntry (keys_of m) (bench_of lease.old).body
        (entry_in (keys_of m) (bench_of lease.old).body) }
    ensures row { IfSome result (λ row. row
        ≡ remembered (keys_of m) (entry_in (keys_of m) (bench_of lease.old).body)) }
    ensures none { IsNone result → (e : Option Entry)
        → ReadsEntry (keys_of m) (bench_of lease.old).body e → ⊥ }
    ensures rest { ChangesKeyAndBody lease.old lease.new }
{
    let label = match label_in(lease.body()) {
        Some(label) => label,
        None => return None,
    };
    let kind = lease.body()[0];
    let token = token_in(lease.body());
    let second = second_in(lease.body());
    if !is_record(lease.body(), kind, &label, &token, &second) {
        return None;
    }
    match what_in(lease, held, coming, kind, &label, &token, &second) {
        Some(row) => Some(Some(row)),
        None => None,
    }
}

/// The row of a record of this kind with these tokens; none where there is no such record.
fn what_in(
    lease: &mut Lease,
    held: &Registers,
    coming: Option<Pattern>,
    kind: u8,
    label: &Label,
    token: &[u8; 64],
    second: &Second,
) -> Option<Row>
    ghost m: { Masters }
    requires loaded { Loaded m held.now (bench_of lease.old) }
    requires coming { coming ≡ pattern_coming (keys_of m) }
    ensures none { IsNone result → IsWhat (keys_of m) kind token.now second.now → ⊥ }
    ensures some { IsSome result → IsWhat (keys_of m) kind token.now second.now }
    ensures row { IfSome result (λ row. Some row ≡ remembered (keys_of m) (Some (record {
      label = label.now;
      what = what_of (keys_of m) kind token.now second.now;
      ahead = ahead_of (keys_of m) kind token.now second.now;
      unused = unused_of (keys_of m) kind token.now second.now;
    }))) }
    ensures rest { ChangesKeyAndBody lease.old lease.new }
{
    if kind == NULL {
        return null_in(label, token, second);
    }
    if kind == KEY {
        return key_in(held, label, token, second);
    }
    if kind != BOTH {
        return None;
    }
    both_in(lease, held, coming, label, token, second)
}

/// The row of a record with one token.
fn key_in(held: &Registers, label: &Label, token: &[u8; 64], second: &Second) -> Option<Row>
    ghost m: { Masters }
    requires { held.now ≡ registers_of m }
    ensures none { IsNone result → second.now ≡ no_second
        → IsSome (kept (keys_of m) token.now) → ⊥ }
    ensures second { IsSome result → second.now ≡ no_second }
    ensures key { IsSome result → IsSome (kept (keys_of m) token.now) }
    ensures row { IfSome result (λ row. row ≡ record {
      label = label.now;
      pattern = option_map (pattern_for (keys_of m)) (kept (keys_of m) token.now);
      ahead = None;
    }) }
{
    if !has_no_second(second) {
        return None;
    }
    match kept_pattern(token, held) {
        Some(pattern) => Some(Row {
            label: *label,
            pattern: Some(pattern),
            ahead: None,
        }),
        None => None,
    }
}

/// The row of a record with two tokens. The second is looked at first.
fn both_in(
    lease: &mut Lease,
    held: &Registers,
    coming: Option<Pattern>,
    label: &Label,
    token: &[u8; 64],
    second: &Second,
) -> Option<Row>
    ghost m: { Masters }
    requires loaded { Loaded m held.now (bench_of lease.old) }
    requires coming { coming ≡ pattern_coming (keys_of m) }
    ensures none { IsNone result → IsBoth (keys_of m) token.now second.now → ⊥ }
    ensures some { IsSome result → IsBoth (keys_of m) token.now second.now }
    ensures row { IfSome result (λ row. Some row ≡ remembered (keys_of m) (Some (record {
      label = label.now;
      what = what_of (keys_of m) both_kind token.now second.now;
      ahead = ahead_of (keys_of m) both_kind token.now second.now;
      unused = unused_of (keys_of m) both_kind token.now second.now;
    }))) }
    ensures rest { ChangesKeyAndBody lease.old lease.new }
{
    let under = match second_token(token, second) {
        Some(under) => under,
        None => return None,
    };
    match kept_pattern(&under, held) {
        Some(pattern) => Some(Row {
            label: *label,
            pattern: Some(pattern),
            ahead: None,
        }),
        None => {
            if are_pair(lease, held, coming, token, second) {
                Some(Row {
                    label: *label,
                    pattern: held.current_pattern,
                    ahead: Some(second.pattern),
                })
            } else {
                None
            }
        }
    }
}

/// Whether the first token is under the current master key, and the second one the same key under the new one. The
/// clear key stands in the place `Key` alone.
fn are_pair(
    lease: &mut Lease,
    held: &Registers,
    coming: Option<Pattern>,
    token: &[u8; 64],
    second: &Second,
) -> bool
    ghost m: { Masters }
    requires loaded { Loaded m held.now (bench_of lease.old) }
    requires coming { coming ≡ pattern_coming (keys_of m) }
    requires first { IsFirst token.now }
    ensures pair { IsTrue result ↔ IsPair (keys_of m) token.now second.now }
    ensures rest { ChangesKeyAndBody lease.old lease.new }
{
    let first = match read_token(token, Asked::Internal) {
        Ok(first) => first,
        Err(_) => return false,
    };
    let bytes = first.pattern;
    let pattern = Pattern { bytes };
    if !has_pattern(held.current_pattern, &pattern) {
        return false;
    }
    if !has_pattern(coming, &second.pattern) {
        return false;
    }
    let key = Judged {
        token: first,
        age: Some(Age::Current),
    };
    open_key(lease, &key, KeyPlace::Key);
    let sealed = seal(lease, Under::New, &key.token.vector);
    are_same(&sealed, &second.sealed)
}

/// The pattern of a token that is kept for a key.
fn kept_pattern(token: &[u8; 64], held: &Registers) -> Option<Pattern>
    ghost m: { Masters }
    requires { held.now ≡ registers_of m }
    ensures { result ≡ option_map (pattern_for (keys_of m)) (kept (keys_of m) token.now) }
{
    if token[6] != KEY_AND_VECTOR {
        return None;
    }
    if read_token(token, Asked::Internal).is_err() {
        return None;
    }
    let pattern = pattern_in(token);
    if has_pattern(held.current_pattern, &pattern) {
        return Some(pattern);
    }
    if has_pattern(held.old_pattern, &pattern) {
        return Some(pattern);
    }
    None
}
