//! CSNBKGN: keys generated, in six forms.
ghost use Rattle.std.specs.Prelude.{◌≡◌, ◌∷◌, [], ℕ, List, Option, Err, OnErr, IfErr, IfOk, IsNone, IsSome, codes};
ghost use Rattle.std.specs.Option.{option_copied};
ghost use Rattle.cca_vectors.specs.KeyTypes.{type_name};
ghost use Rattle.key_cells.specs.Lease.{bench_of};
ghost use Rattle.record_bodies.specs.declared.rows.Row.{Row};
ghost use Rattle.key_transport.specs.Changes.{ChangesKeys};
ghost use Rattle.key_transport.specs.Generated.{AreGiven, HaveLength};
ghost use Rattle.line_service.specs.Devices.{TellsFault};
ghost use Rattle.master_registers.specs.Loaded.{IsLoaded};
ghost use Rattle.line_service.specs.Replies.{Hex};
ghost use Rattle.verb_script.specs.declared.rows.RequestName.TheVariants.{CsnbkgnOp, CsnbkgnOut, CsnbkgnPair};
ghost use Rattle.cca_machine.specs.Verdict.{Refusal as Refused, first_refusal, generate_questions, pair_questions};
ghost use Rattle.cca_machine.specs.Decided.{SettlesDrawing, asked, source, CanDeliver};
ghost use Rattle.cca_machine.specs.Deciding.{token2_fields, Shows};
ghost use Rattle.request_verbs.specs.Drawing.{MakesKeys};
ghost use Rattle.cca_machine.specs.FieldWords.{IsOutForm, IsPairForm};
ghost use Rattle.cca_machine.specs.Granted.{HasDoubleKey};
ghost use Rattle.cca_machine.specs.Refusals.{HasRefused};

use crate::verbs::delivering::{deliver, show_second};
use cca_machine::{
    Effect, Granted, Refusal, double_key_in, key_length_of, out_form_of, pair_form_of,
};
use cca_vectors::{KeyType, Length};
use device_cells::Entropy;
use key_cells::Lease;
use key_transport::{Form, GenerateFault, Generated, generate};
use line_service::Stop;
use master_registers::Registers;
use verb_rules::{Judged, Rule, judge_length, judge_pair};
use verb_script::ReplyBuffer;

/// What comes of the random bytes of a key.
#[derive(Clone, Copy)]
pub(crate) enum Drawn {
    /// The tokens of the key.
    Keys(Generated),
    /// A rule refuses the request: before any is drawn, or by the bytes themselves.
    Refused(Refusal),
}

/// Rule 32 of one key.
fn judge_one(kind: KeyType, length: Length) -> Option<Refusal>
    ensures { HasRefused (first_refusal (generate_questions kind length)) result }
{
    match judge_length(kind, length) {
        Ok(()) => None,
        Err(rule) => Some(Refusal {
            rule,
            operand: "length",
        }),
    }
}

/// Rule 24 of two keys, and then rule 32 of each.
fn judge_two(first: KeyType, second: KeyType, length: Length) -> Option<Refusal>
    ensures { HasRefused (first_refusal (pair_questions first second length)) result }
{
    if let Err(rule) = judge_pair(first, second) {
        return Some(Refusal {
            rule,
            operand: "type2",
        });
    }
    if let Some(refusal) = judge_one(first, length) {
        return Some(refusal);
    }
    judge_one(second, length)
}

/// Draws a key and makes its tokens, where no rule refuses the request before a byte is drawn. A
/// key whose halves are repeated is refused after.
fn draw<E: Entropy>(
    broken: Option<Refusal>,
    form: Form,
    length: Length,
    first: KeyType,
    second: KeyType,
    one: Option<&Judged>,
    two: Option<&Judged>,
    entropy: &mut E,
    lease: &mut Lease,
    held: &Registers,
) -> Result<Drawn, Stop>
    requires lengths { IsNone broken → HaveLength form first second length }
    requires transports { AreGiven form (option_copied one) (option_copied two) }
    requires master { IsSome held.now.current_pattern }
    ensures drawn { (v : Option Refused) → HasRefused v broken
        → IfOk result (MakesKeys v held.now (bench_of lease.old) form length first second
        (option_copied one.entry) (option_copied two.entry)
        (E.left entropy.old) (E.left entropy.new)) }
    ensures permitted { OnErr result (IsNone broken) }
    ensures untouched { IsSome broken → entropy.new ≡ entropy.old }
    ensures fault { TellsFault (E.faults entropy.old) (E.faults entropy.new)
        (result ≡ Err Stop.EntropyFault) }
    ensures stops { IfErr result (λ stop. stop ≡ Stop.EntropyFault) }
    ensures stays { ChangesKeys lease.old lease.new }
{
    if let Some(refusal) = broken {
        return Ok(Drawn::Refused(refusal));
    }
    match generate(lease, held, form, length, first, second, one, two, entropy) {
        Ok(keys) => Ok(Drawn::Keys(keys)),
        Err(GenerateFault::Repeated) => Ok(Drawn::Refused(Refusal {
            rule: Rule::UniqueHalves,
            operand: "length",
        })),
        Err(GenerateFault::Failed) => Err(Stop::EntropyFault),
    }
}

/// Generates a key for here, and delivers it. A type that hasn't the length is refused before a
/// byte is drawn, and a key whose halves are repeated after.
pub(crate) fn generate_one<E: Entropy>(
    granted: &Granted,
    length: &[u8],
    kind: KeyType,
    to: &[u8],
    entropy: &mut E,
    lease: &mut Lease,
    held: &Registers,
    reply: &mut ReplyBuffer,
) -> Result<Effect, Stop>
    requires delivers { CanDeliver held.now (bench_of lease.old) to.now
        granted.now.first.place reply.old }
    ensures settles { (role form : List ℕ) (rows : List (Option Row))
        → SettlesDrawing (asked CsnbkgnOp (role ∷ form ∷ length.now ∷ type_name kind ∷ to.now
        ∷ []))
        granted.now held.now rows lease.old lease.new result reply.new
        (source entropy.old (E.left entropy.old) (E.faults entropy.old))
        (source entropy.new (E.left entropy.new) (E.faults entropy.new)) }
{
    let length = key_length_of(length);
    let broken = judge_one(kind, length);
    match draw(
        broken,
        Form::Op,
        length,
        kind,
        kind,
        None,
        None,
        entropy,
        lease,
        held,
    ) {
        Ok(Drawn::Keys(keys)) => Ok(deliver(
            "token1",
            &keys.first,
            None,
            to,
            granted.first.place,
            reply,
        )),
        Ok(Drawn::Refused(refusal)) => Ok(Effect::Refused(refusal)),
        Err(stop) => Err(stop),
    }
}

/// Generates a key for here and the same key for elsewhere, and delivers the first. Types that
/// aren't a pair are refused, and a type that hasn't the length, before a byte is drawn.
pub(crate) fn generate_pair<E: Entropy>(
    granted: &Granted,
    form: &[u8],
    length: &[u8],
    first: KeyType,
    second: KeyType,
    to: &[u8],
    entropy: &mut E,
    lease: &mut Lease,
    held: &Registers,
    reply: &mut ReplyBuffer,
) -> Result<Effect, Stop>
    requires form { IsPairForm form.now }
    requires transport { HasDoubleKey granted.now.first }
    requires delivers { CanDeliver held.now (bench_of lease.old) to.now
        granted.now.second.place reply.old }
    ensures settles { (role transport : List ℕ) (rows : List (Option Row))
        → SettlesDrawing (asked CsnbkgnPair (role ∷ form.now ∷ length.now ∷ type_name first
        ∷ type_name second ∷ transport ∷ to.now ∷ []))
        granted.now held.now rows lease.old lease.new result reply.new
        (source entropy.old (E.left entropy.old) (E.faults entropy.old))
        (source entropy.new (E.left entropy.new) (E.faults entropy.new)) }
{
    let length = key_length_of(length);
    let broken = judge_two(first, second, length);
    let transport = double_key_in(&granted.first);
    match draw(
        broken,
        pair_form_of(form),
        length,
        first,
        second,
        None,
        Some(transport),
        entropy,
        lease,
        held,
    ) {
        Ok(Drawn::Keys(keys)) => Ok(deliver(
            "token1",
            &keys.first,
            keys.second,
            to,
            granted.second.place,
            reply,
        )),
        Ok(Drawn::Refused(refusal)) => Ok(Effect::Refused(refusal)),
        Err(stop) => Err(stop),
    }
}

/// Shows the tokens of two keys.
fn show_keys(keys: &Generated, reply: &mut ReplyBuffer)
    requires empty { reply.old ≡ [] }
    ensures { Shows (Hex (codes "token1") keys.now.first ∷ token2_fields keys.now.second)
        reply.new }
{
    reply.ok();
    reply.hex("token1", &keys.first);
    show_second(keys.second, reply);
}

/// Generates a key for elsewhere twice, and shows both tokens. Types that aren't a pair are
/// refused, and a type that hasn't the length, before a byte is drawn.
pub(crate) fn generate_out<E: Entropy>(
    granted: &Granted,
    form: &[u8],
    length: &[u8],
    first: KeyType,
    second: KeyType,
    entropy: &mut E,
    lease: &mut Lease,
    held: &Registers,
    reply: &mut ReplyBuffer,
) -> Result<Effect, Stop>
    requires form { IsOutForm form.now }
    requires one { HasDoubleKey granted.now.first }
    requires two { HasDoubleKey granted.now.second }
    requires master { IsSome held.now.current_pattern }
    requires loaded { IsLoaded held.now (bench_of lease.old) }
    requires empty { reply.old ≡ [] }
    ensures settles { (role one two : List ℕ) (rows : List (Option Row))
        → SettlesDrawing (asked CsnbkgnOut (role ∷ form.now ∷ length.now ∷ type_name first
        ∷ type_name second ∷ one ∷ two ∷ []))
        granted.now held.now rows lease.old lease.new result reply.new
        (source entropy.old (E.left entropy.old) (E.faults entropy.old))
        (source entropy.new (E.left entropy.new) (E.faults entropy.new)) }
{
    let length = key_length_of(length);
    let broken = judge_two(first, second, length);
    let one = double_key_in(&granted.first);
    let two = double_key_in(&granted.second);
    match draw(
        broken,
        out_form_of(form),
        length,
        first,
        second,
        Some(one),
        Some(two),
        entropy,
        lease,
        held,
    ) {
        Ok(Drawn::Keys(keys)) => {
            show_keys(&keys, reply);
            Ok(Effect::Shown)
        }
        Ok(Drawn::Refused(refusal)) => Ok(Effect::Refused(refusal)),
        Err(stop) => Err(stop),
    }
}
