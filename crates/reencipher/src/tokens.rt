//! The tokens that an action makes of a token.
ghost use Rattle.std.specs.Prelude.{◌≡◌, IfSome, IsSome, Some, is_some};
ghost use Rattle.key_cells.specs.Bytes.{AreBytes};
ghost use Rattle.key_cells.specs.declared.places.KeyPlace.{KeyPlace};
ghost use Rattle.key_cells.specs.Bench.{Bench};
ghost use Rattle.key_cells.specs.Lease.{bench_of};
ghost use Rattle.record_bodies.specs.Ages.{has_old_key};
ghost use Rattle.key_tokens.specs.Denotes.{denoted};
ghost use Rattle.key_tokens.specs.declared.key_token.Age.{Age};
ghost use Rattle.master_registers.specs.Loaded.{IsLoaded, Loaded};
ghost use Rattle.master_registers.specs.Masters.{Masters};
ghost use Rattle.multi_encipher.specs.Bundles.{ChangesKeyAt};
ghost use Rattle.record_bodies.specs.Further.{under_current, has_current_key};
ghost use Rattle.reencipher.specs.Tokens.{AreMade, AreSecond, IsComing, changes_key};
ghost use Rattle.key_records.specs.Ready.{IsReadyFor};
ghost use Rattle.verb_rules.specs.Ready.{IsReadyAhead};
ghost use Rattle.verb_rules.specs.Keys.{HasHalves, keys_of, opened_key};

use crate::writing::Tokens;
use key_cells::{KeyPlace, Lease, is_zero};
use key_records::Second;
use key_tokens::{Age, Asked, read_token};
use master_registers::{Pattern, Registers, has_pattern};
use multi_encipher::{Under, seal};
use record_bodies::StoreAction;
use verb_rules::{Judged, open_key, write_current};

/// 64 bytes are below 256: a fact that contracts use.
fn are_bytes(token: &[u8; 64])
    ensures { AreBytes 64 token.now }
{
    let _zero = is_zero(token);
}

/// The parts of a token that is under the old master key. The current register is asked first.
fn old_key(token: &[u8; 64], held: &Registers) -> Option<Judged>
    ensures halves { IfSome result HasHalves }
    ensures age { IfSome result (λ key. key.age ≡ Some Age.Old) }
    ensures key { (m : Masters) (bench : Bench) → Loaded m held.now bench
        → IfSome result (λ key. denoted (keys_of m) token.now ≡ opened_key bench key) }
    ensures old { (m : Masters) (bench : Bench) → Loaded m held.now bench
        → is_some result ≡ has_old_key (denoted (keys_of m) token.now) }
{
    let token = match read_token(token, Asked::Internal) {
        Ok(token) => token,
        Err(_) => return None,
    };
    let bytes = token.pattern;
    let pattern = Pattern { bytes };
    if has_pattern(held.current_pattern, &pattern) {
        return None;
    }
    if !has_pattern(held.old_pattern, &pattern) {
        return None;
    }
    let age = Some(Age::Old);
    Some(Judged { token, age })
}

/// The parts of a token that is under the current master key.
fn current_key(token: &[u8; 64], held: &Registers) -> Option<Judged>
    ensures halves { IfSome result HasHalves }
    ensures age { IfSome result (λ key. key.age ≡ Some Age.Current) }
    ensures key { (m : Masters) (bench : Bench) → Loaded m held.now bench
        → IfSome result (λ key. denoted (keys_of m) token.now ≡ opened_key bench key) }
    ensures current { (m : Masters) (bench : Bench) → Loaded m held.now bench
        → is_some result ≡ has_current_key (denoted (keys_of m) token.now) }
{
    let token = match read_token(token, Asked::Internal) {
        Ok(token) => token,
        Err(_) => return None,
    };
    let bytes = token.pattern;
    let pattern = Pattern { bytes };
    if !has_pattern(held.current_pattern, &pattern) {
        return None;
    }
    let age = Some(Age::Current);
    Some(Judged { token, age })
}

/// The token of the same key under the current master key, where the token is under the old one. The clear key
/// stands in the place `Key` alone.
fn renewed_token(lease: &mut Lease, held: &Registers, token: &[u8; 64]) -> Option<[u8; 64]>
    requires { IsSome held.now.current_pattern }
    ensures key { (m : Masters) → Loaded m held.now (bench_of lease.old)
        → IfSome result (λ new.
        denoted (keys_of m) new ≡ under_current (denoted (keys_of m) token.now)) }
    ensures old { (m : Masters) → Loaded m held.now (bench_of lease.old)
        → is_some result ≡ has_old_key (denoted (keys_of m) token.now) }
    ensures stays { ChangesKeyAt KeyPlace.Key lease.old lease.new }
{
    let key = match old_key(token, held) {
        Some(key) => key,
        None => return None,
    };
    open_key(lease, &key, KeyPlace::Key);
    Some(write_current(lease, held, &key.token.vector))
}

/// The second token of the same key under the new master key, where the token is under the current one. The clear key
/// stands in the place `Key` alone.
fn second_token(
    lease: &mut Lease,
    held: &Registers,
    coming: Pattern,
    token: &[u8; 64],
) -> Option<Second>
    requires coming { IsComing coming (bench_of lease.old) }
    requires ready { IsReadyAhead held.now (bench_of lease.old) }
    ensures second { (m : Masters) → Loaded m held.now (bench_of lease.old)
        → IfSome result (λ second. AreSecond (keys_of m) token.now second) }
    ensures current { (m : Masters) → Loaded m held.now (bench_of lease.old)
        → is_some result ≡ has_current_key (denoted (keys_of m) token.now) }
    ensures stays { ChangesKeyAt KeyPlace.Key lease.old lease.new }
{
    let first = match current_key(token, held) {
        Some(key) => key,
        None => return None,
    };
    open_key(lease, &first, KeyPlace::Key);
    let sealed = seal(lease, Under::New, &first.token.vector);
    Some(Second {
        pattern: coming,
        sealed,
    })
}

/// The tokens that an action makes of the token of a label; none where it doesn't change a label with this key.
pub(crate) fn made_tokens(
    action: StoreAction,
    lease: &mut Lease,
    held: &Registers,
    coming: Pattern,
    token: &[u8; 64],
) -> Option<Tokens>
    requires current { IsSome held.now.current_pattern }
    requires coming { IsComing coming (bench_of lease.old) }
    requires ready { IsReadyFor action held.now (bench_of lease.old) }
    ensures made { (m : Masters) → Loaded m held.now (bench_of lease.old)
        → IfSome result (λ tokens. AreMade action (keys_of m) token.now tokens) }
    ensures some { (m : Masters) → Loaded m held.now (bench_of lease.old)
        → is_some result ≡ changes_key action (denoted (keys_of m) token.now) }
    ensures stays { ChangesKeyAt KeyPlace.Key lease.old lease.new }
{
    match action {
        StoreAction::Renew => renewed(lease, held, token),
        StoreAction::Ahead => ahead(lease, held, coming, token),
        StoreAction::Drop => dropped(held, token),
    }
}

fn renewed(lease: &mut Lease, held: &Registers, token: &[u8; 64]) -> Option<Tokens>
    requires { IsSome held.now.current_pattern }
    ensures made { (m : Masters) → Loaded m held.now (bench_of lease.old)
        → IfSome result (λ tokens. AreMade StoreAction.Renew (keys_of m) token.now tokens) }
    ensures some { (m : Masters) → Loaded m held.now (bench_of lease.old)
        → is_some result ≡ has_old_key (denoted (keys_of m) token.now) }
    ensures stays { ChangesKeyAt KeyPlace.Key lease.old lease.new }
{
    let new = match renewed_token(lease, held, token) {
        Some(new) => new,
        None => return None,
    };
    are_bytes(&new);
    Some(Tokens::One(new))
}

fn ahead(lease: &mut Lease, held: &Registers, coming: Pattern, token: &[u8; 64]) -> Option<Tokens>
    requires coming { IsComing coming (bench_of lease.old) }
    requires ready { IsReadyAhead held.now (bench_of lease.old) }
    ensures made { (m : Masters) → Loaded m held.now (bench_of lease.old)
        → IfSome result (λ tokens. AreMade StoreAction.Ahead (keys_of m) token.now tokens) }
    ensures some { (m : Masters) → Loaded m held.now (bench_of lease.old)
        → is_some result ≡ has_current_key (denoted (keys_of m) token.now) }
    ensures stays { ChangesKeyAt KeyPlace.Key lease.old lease.new }
{
    let second = match second_token(lease, held, coming, token) {
        Some(second) => second,
        None => return None,
    };
    are_bytes(token);
    Some(Tokens::Two(*token, second))
}

fn dropped(held: &Registers, token: &[u8; 64]) -> Option<Tokens>
    ensures made { (m : Masters) (bench : Bench) → Loaded m held.now bench
        → IfSome result (λ tokens. AreMade StoreAction.Drop (keys_of m) token.now tokens) }
    ensures some { (m : Masters) (bench : Bench) → Loaded m held.now bench
        → is_some result ≡ has_current_key (denoted (keys_of m) token.now) }
{
    let _key = match current_key(token, held) {
        Some(key) => key,
        None => return None,
    };
    are_bytes(token);
    Some(Tokens::One(*token))
}
