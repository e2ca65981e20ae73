//! CSNBKPI: a key brought in by parts.
ghost use Rattle.std.specs.Prelude.{◌≡◌, ◌==◌, ◌<◌, ◌/◌, ◌∷◌, [], ℕ, List, None, Option, IsSome, IsTrue, codes, length, take, if◌then◌else◌};
ghost use Rattle.cca_vectors.specs.KeyTypes.{type_name};
ghost use Rattle.cca_vectors.specs.Vectors.{length_of};
ghost use Rattle.key_cells.specs.Bench.{key_of, with_key};
ghost use Rattle.key_cells.specs.Lease.{bench_of, holding};
ghost use Rattle.key_parts.specs.Parts.{combined_key, first_key};
ghost use Rattle.record_bodies.specs.declared.rows.Row.{Row};
ghost use Rattle.key_transport.specs.Generated.{HasLength};
ghost use Rattle.key_transport.specs.Tokens.{as_current};
ghost use Rattle.verb_rules.specs.Keys.{HasHalves, opened};
ghost use Rattle.verb_script.specs.Grammar.{accepts, part_text};
ghost use Rattle.verb_script.specs.declared.rows.RequestName.TheVariants.{CsnbkpiFirst, CsnbkpiMiddle};
ghost use Rattle.verb_script.specs.Values.{hex_value};
ghost use Rattle.cca_machine.specs.Verdict.{first_refusal, further_part_questions};
ghost use Rattle.cca_machine.specs.Decided.{Settles, asked, CanDeliver};
ghost use Rattle.cca_machine.specs.Deciding.{MakesToken};
ghost use Rattle.cca_machine.specs.Granted.{HasSomeJudged};
ghost use Rattle.cca_machine.specs.Refusals.{HasRefused};

use crate::verbs::delivering::deliver;
use crate::verbs::key_digits::put_key;
use cca_machine::{Effect, Granted, Refusal, is_last_part, key_in};
use cca_vectors::KeyType;
use key_cells::{KeyPlace, Lease};
use key_parts::{combine_part, first_part};
use master_registers::Registers;
use verb_rules::{Judged, judge_part, judge_size};
use verb_script::ReplyBuffer;

/// Puts the part of a key that the digits spell into the workbench.
fn put_part(digits: &[u8], lease: &mut Lease)
    requires { IsTrue (accepts part_text digits.now) }
    ensures part { take (length digits.now / 2) (bench_of lease.new).fresh
        ≡ hex_value digits.now }
    ensures stays { lease.new
        ≡ holding lease.old (with_key (bench_of lease.old) KeyPlace.Fresh
        (key_of (bench_of lease.new) KeyPlace.Fresh)) }
{
    put_key(digits, KeyPlace::Fresh, lease);
}

/// The token of the first part of a key of this type, as a key part.
fn first_token(kind: KeyType, part: &[u8], lease: &mut Lease, held: &Registers) -> [u8; 64]
    requires part { IsTrue (accepts part_text part.now) }
    requires length { HasLength kind (length part.now / 2) }
    requires master { IsSome held.now.current_pattern }
    ensures { MakesToken held.now (as_current (first_key kind (hex_value part.now)))
        lease.old lease.new result }
{
    put_part(part, lease);
    first_part(lease, held, kind, part.len() / 2)
}

/// FIRST: delivers the first part of a key of this type, as a key part. A part of a length that the
/// type hasn't is refused.
pub(crate) fn first(
    granted: &Granted,
    kind: KeyType,
    part: &[u8],
    to: &[u8],
    lease: &mut Lease,
    held: &Registers,
    reply: &mut ReplyBuffer,
) -> Effect
    requires part { IsTrue (accepts part_text part.now) }
    requires delivers { CanDeliver held.now (bench_of lease.old) to.now
        granted.now.first.place reply.old }
    ensures settles { (role rule : List ℕ) (rows : List (Option Row))
        → Settles (asked CsnbkpiFirst (role ∷ rule ∷ type_name kind ∷ part.now ∷ to.now ∷ []))
        granted.now held.now rows lease.old lease.new result reply.new }
{
    if let Err(rule) = judge_size(kind, part.len() / 2) {
        return Effect::Refused(Refusal {
            rule,
            operand: "part",
        });
    }
    let token = first_token(kind, part, lease, held);
    deliver("token", &token, None, to, granted.first.place, reply)
}

/// The operand that breaks a rule of a further part: the part where it hasn't the key's length, and
/// else the key.
fn broken_by(key: &Judged, size: usize) -> &'static str
    ensures operand { result.now ≡ (if size == length_of key.now.token.vector then codes "key"
        else codes "part") }
    ensures short { length result.now < 100 }
{
    if size == key.token.vector.length() {
        "key"
    } else {
        "part"
    }
}

/// Rule 32 of the part, and rule 35 of the key.
fn judge(key: &Judged, size: usize) -> Option<Refusal>
    ensures { HasRefused (first_refusal (further_part_questions key.now.token.vector size))
        result }
{
    match judge_part(key, size) {
        Ok(()) => None,
        Err(rule) => Some(Refusal {
            rule,
            operand: broken_by(key, size),
        }),
    }
}

/// The token of a key part combined with a further part: with the last one of the whole key.
fn combined_token(
    key: &Judged,
    last: bool,
    part: &[u8],
    lease: &mut Lease,
    held: &Registers,
) -> [u8; 64]
    requires halves { HasHalves key.now }
    requires part { IsTrue (accepts part_text part.now) }
    requires permitted { first_refusal
        (further_part_questions key.now.token.vector (length part.now / 2)) ≡ None }
    requires master { IsSome held.now.current_pattern }
    ensures { let clear = opened (bench_of lease.old) key.now in
        MakesToken held.now (as_current (combined_key last clear (hex_value part.now)))
        lease.old lease.new result }
{
    put_part(part, lease);
    combine_part(lease, held, key, last)
}

/// MIDDLE and LAST: delivers a key part combined with a further part: with the last one as the
/// whole key. A part that hasn't the key's length is refused, and a key that is no part.
pub(crate) fn further(
    granted: &Granted,
    rule: &[u8],
    part: &[u8],
    to: &[u8],
    lease: &mut Lease,
    held: &Registers,
    reply: &mut ReplyBuffer,
) -> Effect
    requires key { HasSomeJudged granted.now.first }
    requires part { IsTrue (accepts part_text part.now) }
    requires delivers { CanDeliver held.now (bench_of lease.old) to.now
        granted.now.second.place reply.old }
    ensures settles { (role key : List ℕ) (rows : List (Option Row))
        → Settles (asked CsnbkpiMiddle (role ∷ rule.now ∷ key ∷ part.now ∷ to.now ∷ []))
        granted.now held.now rows lease.old lease.new result reply.new }
{
    let key = key_in(&granted.first);
    if let Some(refusal) = judge(key, part.len() / 2) {
        return Effect::Refused(refusal);
    }
    let token = combined_token(key, is_last_part(rule), part, lease, held);
    deliver("token", &token, None, to, granted.second.place, reply)
}
