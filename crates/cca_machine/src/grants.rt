//! What the operands of a request stand for, by their shapes.
ghost use Rattle.std.specs.Prelude.{◌≡◌, Some, IsSome};
ghost use Rattle.verb_rules.specs.Keys.{HasHalves, IsDouble};
ghost use Rattle.cca_machine.specs.Granted.{HasDoubleKey, HasJudgedExternal, HasSomeJudged, IsGrantedKey, is_old_key, any_old_key};

use crate::granted::{Grant, Granted};
use key_tokens::{Age, Token};
use record_bodies::Place;
use verb_rules::Judged;

/// The key that was judged.
pub fn key_in(grant: &Grant) -> &Judged
    requires { HasSomeJudged grant.now }
    ensures { IsGrantedKey grant.now result.now }
{
    grant.key.as_ref().unwrap()
}

/// The key that was judged, where it has two halves.
pub fn double_key_in(grant: &Grant) -> &Judged
    requires { HasDoubleKey grant.now }
    ensures key { IsGrantedKey grant.now result.now }
    ensures double { IsDouble result.now }
{
    grant.key.as_ref().unwrap()
}

/// The external token that was judged.
pub fn external_in(grant: &Grant) -> &Judged
    requires { HasJudgedExternal grant.now }
    ensures key { grant.now.key ≡ Some result.now }
    ensures halves { HasHalves result.now }
{
    grant.key.as_ref().unwrap()
}

/// The place of the label.
pub fn place_in(grant: &Grant) -> Place
    requires { IsSome grant.now.place }
    ensures { grant.now.place ≡ Some result }
{
    grant.place.unwrap()
}

/// Whether a key, where there is one, is under the old master key.
fn is_old_key(key: &Option<Judged>) -> bool
    ensures { result ≡ is_old_key key.now }
{
    match key {
        Some(judged) => judged.age == Some(Age::Old),
        None => false,
    }
}

/// Whether a key among them is under the old master key.
pub fn is_old(granted: &Granted) -> bool
    ensures { result ≡ any_old_key granted.now }
{
    is_old_key(&granted.first.key)
        || is_old_key(&granted.second.key)
        || is_old_key(&granted.third.key)
}

/// The token that was read.
pub fn token_in(grant: &Grant) -> &Token
    requires { IsSome grant.now.token }
    ensures { grant.now.token ≡ Some result.now }
{
    grant.token.as_ref().unwrap()
}
