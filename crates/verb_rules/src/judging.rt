//! Key operands, judged by the rules on tokens, registers and control vectors.
ghost use Rattle.std.specs.Prelude.{◌≡◌, ◌≢◌, ℕ, List, None, Some, IfOk, IsSome, IsTrue};
ghost use Rattle.std.specs.Option.{option_map};
ghost use Rattle.cca_vectors.specs.Checks.{first_failing};
ghost use Rattle.key_cells.specs.Bench.{Bench};
ghost use Rattle.key_tokens.specs.Denotes.{denoted, denoted_under};
ghost use Rattle.key_tokens.specs.Fields.{token_of};
ghost use Rattle.key_tokens.specs.TokenChecks.{rule_of};
ghost use Rattle.master_registers.specs.Loaded.{Loaded};
ghost use Rattle.master_registers.specs.Masters.{Masters};
ghost use Rattle.verb_rules.specs.KeyChecks.{age_of, is_forbidden, key_checks, part_check, read_checks, register_with, use_checks, vector_use_checks};
ghost use Rattle.verb_rules.specs.Keys.{HasHalves, IsDouble, keys_of, opened_key, opened_under};
ghost use Rattle.verb_rules.specs.Rules.{Judges, rule_number};
ghost use Rattle.verb_rules.specs.StoredKeys.{IfAnswered, IsRead, IsStoredUse};

use crate::needs::Need;
use crate::rules::Rule;
use cca_vectors::{Usage, Vector};
use key_tokens::{Age, Asked, Kind, Token, TokenFault, read_token};
use master_registers::{Pattern, Registers, has_pattern};

/// A key token that passed the rules of an operand.
#[derive(Clone, Copy, Debug, PartialEq, Eq)]
pub struct Judged {
    pub token: Token,
    /// The register that an internal token is under; none for an external token.
    pub age: Option<Age>,
}

/// The rule that a fault of a token is.
pub fn token_rule(fault: TokenFault) -> Rule
    ensures { rule_number result ≡ rule_of fault }
{
    match fault {
        TokenFault::Kind => Rule::Kind,
        TokenFault::Tvv => Rule::Tvv,
        TokenFault::Version => Rule::Version,
        TokenFault::Flag => Rule::Flag,
        TokenFault::Reserved => Rule::Reserved,
        TokenFault::Parity => Rule::Parity,
        TokenFault::AntiVariant => Rule::AntiVariant,
        TokenFault::Form => Rule::KeyForm,
    }
}

/// The register that has this pattern.
fn register_with(held: &Registers, pattern: &Pattern) -> Option<Age>
    ensures { result ≡ register_with held.now pattern.now.bytes }
{
    if has_pattern(held.current_pattern, pattern) {
        return Some(Age::Current);
    }
    if has_pattern(held.old_pattern, pattern) {
        return Some(Age::Old);
    }
    None
}

/// Whether the key is a part, and parts aren't taken.
fn is_refused_part(need: &Need, vector: &Vector) -> bool
    ensures { result ≡ (part_check need.now vector.now).fails }
{
    !need.parts && vector.is_part()
}

fn is_forbidden(usage: Option<Usage>, vector: &Vector) -> bool
    ensures { result ≡ is_forbidden usage vector.now }
{
    match usage {
        Some(usage) => !vector.permits(usage),
        None => false,
    }
}

/// The first of rules 19 to 22 that the control vector breaks.
fn vector_fault(need: &Need, vector: &Vector) -> Option<Rule>
    ensures { option_map rule_number result
        ≡ first_failing (vector_use_checks need.now vector.now) }
{
    if !need.classes.has(vector.class()) {
        return Some(Rule::Class);
    }
    if is_forbidden(need.usage, vector) {
        return Some(Rule::Usage);
    }
    if need.export && !vector.exportable() {
        return Some(Rule::Export);
    }
    if need.double && vector.length() == 8 {
        return Some(Rule::TransportLength);
    }
    None
}

/// Judges a key whose token was read before, and that is under this register, by rules 17 and 19 to 22: the first
/// that it breaks.
pub(crate) fn judge_use(token: &Token, age: Option<Age>, need: &Need) -> Result<Judged, Rule>
    ensures judges { Judges (use_checks need.now token.now.vector) result }
    ensures judged { IfOk result (λ judged. judged ≡ record { token = token.now; age = age }) }
    ensures double { IsTrue need.now.double → IfOk result IsDouble }
{
    if is_refused_part(need, &token.vector) {
        return Err(Rule::KeyPart);
    }
    match vector_fault(need, &token.vector) {
        Some(rule) => Err(rule),
        None => Ok(Judged { token: *token, age }),
    }
}

/// Judges a token that was read by rules 17 to 22.
fn judge_read(token: &Token, need: &Need, held: &Registers) -> Result<Judged, Rule>
    ensures judges { Judges (read_checks need.now held.now token.now) result }
    ensures judged { IfOk result (λ judged.
        judged ≡ record { token = token.now; age = age_of held.now token.now }) }
    ensures internal { token.now.kind ≡ Kind.Internal → IfOk result (λ judged. IsSome judged.age) }
    ensures double { IsTrue need.now.double → IfOk result IsDouble }
{
    if is_refused_part(need, &token.vector) {
        return Err(Rule::KeyPart);
    }
    let age = match token.kind {
        Kind::Internal => register_with(
            held,
            &Pattern {
                bytes: token.pattern,
            },
        ),
        Kind::External => None,
    };
    if token.kind == Kind::Internal && age.is_none() {
        return Err(Rule::Pattern);
    }
    match vector_fault(need, &token.vector) {
        Some(rule) => Err(rule),
        None => Ok(Judged { token: *token, age }),
    }
}

/// Judges the 64 bytes that are stored as the token of a key by rules 17 and 19 to 22: the first that they break, or
/// else the token and the register that it is under. None where the bytes are no internal token under one of the
/// registers.
pub fn judge_stored(token: &[u8; 64], need: &Need, held: &Registers) -> Option<Result<Judged, Rule>>
    ensures stored { (m : Masters) (bench : Bench) → Loaded m held.now bench
        → IsStoredUse bench need.now (denoted (keys_of m) token.now) result }
    ensures read { IfAnswered result (IsRead held.now token.now) }
    ensures double { IsTrue need.now.double → IfAnswered result IsDouble }
{
    let read = match read_token(token, Asked::Internal) {
        Ok(read) => read,
        Err(_) => return None,
    };
    let pattern = Pattern {
        bytes: read.pattern,
    };
    match register_with(held, &pattern) {
        Some(age) => Some(judge_use(&read, Some(age), need)),
        None => None,
    }
}

/// Judges the 64 bytes that are given as the token of a key operand by rules 09 to 22: the first that they break,
/// or else the token, and the register that an internal one is under.
pub fn judge_key(token: &[u8; 64], need: &Need, held: &Registers) -> Result<Judged, Rule>
    requires asked { need.now.asked ≢ Asked.Either }
    ensures judges { Judges (key_checks need.now held.now token.now) result }
    ensures token { IfOk result (λ judged. judged.token ≡ token_of token.now) }
    ensures age { IfOk result (λ judged. judged.age ≡ age_of held.now (token_of token.now)) }
    ensures halves { IfOk result HasHalves }
    ensures internal { need.now.asked ≡ Asked.Internal → IfOk result (λ judged. IsSome judged.age) }
    ensures double { IsTrue need.now.double → IfOk result IsDouble }
    ensures denoted { (m : Masters) (bench : Bench) → Loaded m held.now bench
        → need.now.asked ≡ Asked.Internal
        → IfOk result (λ judged. denoted (keys_of m) token.now ≡ opened_key bench judged) }
    ensures denoted_under { (transport : List ℕ) → need.now.asked ≡ Asked.External
        → IfOk result (λ judged.
        denoted_under transport token.now ≡ Some (opened_under transport judged)) }
{
    match read_token(token, need.asked) {
        Ok(read) => judge_read(&read, need, held),
        Err(fault) => Err(token_rule(fault)),
    }
}
