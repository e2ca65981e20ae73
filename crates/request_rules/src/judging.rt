//! The operands of a request, judged in their order.
ghost use Rattle.std.specs.Prelude.{◌≡◌, ℕ, [], Some, None, Err, IfOk, IsTrue, drop};
ghost use Rattle.key_cells.specs.Bench.{Bench};
ghost use Rattle.key_cells.specs.Lease.{bench_of};
ghost use Rattle.record_bodies.specs.StoreStands.{HasStore};
ghost use Rattle.key_tokens.specs.declared.key_token.Asked.TheVariants.{Internal, External};
ghost use Rattle.master_registers.specs.Loaded.{Loaded};
ghost use Rattle.master_registers.specs.Masters.{Masters};
ghost use Rattle.verb_script.specs.Grammar.{is_hex, accepts, key_text};
ghost use Rattle.verb_script.specs.Named.{label_named};
ghost use Rattle.cca_machine.specs.Operands.{is_named_by, names_label, listed};
ghost use Rattle.cca_machine.specs.State.{State};
ghost use Rattle.request_rules.specs.Standing.{AtStore};
ghost use Rattle.cca_machine.specs.Granted.{answered};
ghost use Rattle.request_rules.specs.Judging.{IsText, AreFit, seen_operands, IsAsked, IsShaped, IsKeyedAnswer, IsJudged, AreShaped, AreKeyedOperands, IsCellAsked, IsCellOfAny};
ghost use Rattle.request_rules.specs.Stored.{IsAskedAsRead, AreAskedAsRead, ReadsStore};

use crate::operands::{Operand, Operands};
use crate::stored::{judge_held, judge_label, judge_new_label, judge_target};
use cca_machine::{Ask, Grant, Granted, Refusal, token_bytes};
use device_cells::Disk;
use key_cells::Lease;
use key_records::Records;
use key_tokens::{Asked, read_token};
use line_service::{Device, Stop};
use master_registers::Registers;
use verb_rules::{Judged, Need, Rule, any_key, judge_key, token_rule};
use verb_script::named_label;

/// The first rule that the operands break, with the name of the one that breaks it, or what they
/// stand for.
#[derive(Clone, Copy)]
pub enum Verdict {
    /// The rule, and the operand that breaks it.
    Refused(Refusal),
    /// What each operand stands for.
    Granted(Granted),
}

/// What is answered of a key that was judged.
pub(crate) fn answer_of(judged: Result<Judged, Rule>) -> Result<Grant, Rule>
    ensures { result ≡ answered judged }
{
    match judged {
        Ok(key) => Ok(Grant::of_key(key)),
        Err(rule) => Err(rule),
    }
}

/// Judges a key token of either kind.
fn judge_any_token(digits: &[u8]) -> Result<Grant, Rule>
    requires { IsTrue (is_hex 128 digits.now) }
    ensures asked { (s : State) (bench : Bench) → IsAsked s bench digits.now Ask.AnyToken result }
    ensures shaped { IsShaped [] digits.now Ask.AnyToken result }
{
    match read_token(&token_bytes(digits), Asked::Either) {
        Ok(token) => Ok(Grant::of_token(token)),
        Err(fault) => Err(token_rule(fault)),
    }
}

/// The digits of a key token that stand behind `T:`.
fn digits_of(text: &[u8]) -> &[u8]
    requires key { IsTrue (accepts key_text text.now) }
    requires token { label_named text.now ≡ None }
    ensures text { result.now ≡ drop 2 text.now }
    ensures digits { IsTrue (is_hex 128 result.now) }
{
    &text[2..]
}

/// Judges the internal key of a token that 128 digits spell.
fn judge_token(digits: &[u8], need: &Need, held: &Registers) -> Result<Grant, Rule>
    requires digits { IsTrue (is_hex 128 digits.now) }
    requires asked { need.now.asked ≡ Internal }
    ensures asked { (s : State) (bench : Bench) → Loaded s.registers held.now bench
        → IsAsked s bench digits.now (Ask.Token need.now) result }
    ensures shaped { IsShaped [] digits.now (Ask.Token need.now) result }
    ensures keyed { (m : Masters) (bench : Bench) → Loaded m held.now bench
        → IsKeyedAnswer m digits.now (Ask.Token need.now) result }
{
    answer_of(judge_key(&token_bytes(digits), need, held))
}

/// Judges an external token that 128 digits spell.
fn judge_external(digits: &[u8], need: &Need, held: &Registers) -> Result<Grant, Rule>
    requires digits { IsTrue (is_hex 128 digits.now) }
    requires asked { need.now.asked ≡ External }
    ensures asked { (s : State) (bench : Bench) → Loaded s.registers held.now bench
        → IsAsked s bench digits.now (Ask.External need.now) result }
    ensures shaped { IsShaped [] digits.now (Ask.External need.now) result }
{
    answer_of(judge_key(&token_bytes(digits), need, held))
}

/// Judges one operand. A label costs at most 11 comparisons, and that of a key one read of a cell.
fn judge_one<D: Disk>(
    operand: &Operand,
    store: &mut D,
    lease: &mut Lease,
    held: &Registers,
    records: &Records,
) -> Result<Result<Grant, Rule>, Stop>
    requires text { IsText operand.now.text.now operand.now.ask }
    requires store { HasStore records.now (D.medium store.old) }
    ensures asked { (s : State)
        → AtStore s held.now (bench_of lease.old) records.now (D.medium store.old)
        → IfOk result (IsAsked s (bench_of lease.old) operand.now.text.now operand.now.ask) }
    ensures shaped { IfOk result (IsShaped records.now operand.now.text.now operand.now.ask) }
    ensures keyed { (m : Masters) → Loaded m held.now (bench_of lease.old)
        → IfOk result (IsKeyedAnswer m operand.now.text.now operand.now.ask) }
    // By some record that is the memory's of a label that is held, whatever the store tells of its bytes.
    ensures own { (m : Masters) → Loaded m held.now (bench_of lease.old)
        → IfOk result (IsAskedAsRead m (bench_of lease.old) records.now
        operand.now.text.now operand.now.ask) }
    ensures cell { (n : ℕ) → result ≡ Err (Stop.Damaged Device.Store n)
        → IsCellAsked records.now operand.now.text.now operand.now.ask n }
    ensures reads { ReadsStore D.medium D.faults
        (is_named_by operand.now.text.now operand.now.ask) held.now records.now
        lease.old lease.new store.old store.new result }
{
    match operand.ask {
        Ask::AnyToken => Ok(judge_any_token(operand.text)),
        Ask::Key(need) => match named_label(operand.text) {
            Some(label) => judge_label(label, &need, store, lease, held, records),
            None => Ok(judge_token(digits_of(operand.text), &need, held)),
        },
        Ask::Token(need) => Ok(judge_token(operand.text, &need, held)),
        Ask::External(need) => Ok(judge_external(operand.text, &need, held)),
        Ask::Record => judge_label(operand.text, &any_key(), store, lease, held, records),
        Ask::Held => Ok(judge_held(operand.text, records)),
        Ask::NewLabel => Ok(judge_new_label(operand.text)),
        Ask::Target => Ok(judge_target(operand.text, records)),
        Ask::Nothing => Ok(Ok(Grant::nothing())),
    }
}

/// Judges the operands, and names the first rule that one of them breaks.
pub fn judge<D: Disk>(
    operands: &Operands,
    store: &mut D,
    lease: &mut Lease,
    held: &Registers,
    records: &Records,
) -> Result<Verdict, Stop>
    requires fit { AreFit (seen_operands operands.now) }
    requires store { HasStore records.now (D.medium store.old) }
    ensures judged { (s : State)
        → AtStore s held.now (bench_of lease.old) records.now (D.medium store.old)
        → IfOk result (IsJudged s (bench_of lease.old) (seen_operands operands.now)) }
    ensures shaped { IfOk result (AreShaped records.now (seen_operands operands.now)) }
    ensures keyed { (m : Masters) → Loaded m held.now (bench_of lease.old)
        → IfOk result (AreKeyedOperands m (seen_operands operands.now)) }
    ensures own { (m : Masters) → Loaded m held.now (bench_of lease.old)
        → IfOk result (AreAskedAsRead m (bench_of lease.old) records.now
        (seen_operands operands.now)) }
    // The cell that a stop names is that of a label whose key an operand asks for.
    ensures cell { (n : ℕ) → result ≡ Err (Stop.Damaged Device.Store n)
        → IsCellOfAny records.now (listed (seen_operands operands.now)) n }
    ensures reads { ReadsStore D.medium D.faults
        (names_label (listed (seen_operands operands.now))) held.now records.now
        lease.old lease.new store.old store.new result }
{
    let first = match judge_one(&operands.first, store, lease, held, records)? {
        Ok(grant) => grant,
        Err(rule) => {
            return Ok(Verdict::Refused(Refusal {
                rule,
                operand: operands.first.name,
            }));
        }
    };
    let second = match judge_one(&operands.second, store, lease, held, records)? {
        Ok(grant) => grant,
        Err(rule) => {
            return Ok(Verdict::Refused(Refusal {
                rule,
                operand: operands.second.name,
            }));
        }
    };
    let third = match judge_one(&operands.third, store, lease, held, records)? {
        Ok(grant) => grant,
        Err(rule) => {
            return Ok(Verdict::Refused(Refusal {
                rule,
                operand: operands.third.name,
            }));
        }
    };
    Ok(Verdict::Granted(Granted {
        first,
        second,
        third,
    }))
}
