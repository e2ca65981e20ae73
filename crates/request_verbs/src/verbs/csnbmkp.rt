//! CSNBMKP: the actions of a key ceremony on the master key registers.
ghost use Rattle.std.specs.Prelude.{◌≡◌, ◌∷◌, [], ℕ, IsTrue, List, Option};
ghost use Rattle.std.specs.Option.{option_map};
ghost use Rattle.cca_vectors.specs.Checks.{first_failing};
ghost use Rattle.key_cells.specs.Bench.{with_master};
ghost use Rattle.key_cells.specs.Lease.{bench_of, holding};
ghost use Rattle.key_cells.specs.declared.leases.Lease.{Lease as AnyLease};
ghost use Rattle.record_bodies.specs.declared.rows.Row.{Row};
ghost use Rattle.verb_script.specs.Grammar.{is_hex};
ghost use Rattle.verb_script.specs.declared.rows.RequestName.TheVariants.{CsnbmkpClear, CsnbmkpPart, CsnbmkpSet};
ghost use Rattle.verb_script.specs.Values.{hex_value};
ghost use Rattle.master_registers.specs.Loaded.{Loaded};
ghost use Rattle.master_registers.specs.declared.registers.Registers.{Registers as HeldRegisters};
ghost use Rattle.master_registers.specs.Masters.{Masters};
ghost use Rattle.verb_rules.specs.Rules.{rule_number};
ghost use Rattle.cca_machine.specs.Actions.{action_checks};
ghost use Rattle.cca_machine.specs.Decided.{Settles, asked};
ghost use Rattle.cca_machine.specs.FieldWords.{IsPartAction};
ghost use Rattle.cca_machine.specs.declared.granted.Granted.{Granted};

use crate::verbs::old_labels::any_old;
use cca_machine::{Effect, Refusal, part_action_of};
use key_cells::{Lease, MasterPlace};
use key_records::Records;
use master_registers::{Action, NewState, Registers, pattern_of};
use verb_rules::Rule;
use verb_script::decode;

/// Puts the key part that the digits spell into the workbench.
fn put_part(digits: &[u8], lease: &mut Lease)
    requires { IsTrue (is_hex 48 digits.now) }
    ensures { lease.new ≡ holding lease.old
        (with_master (bench_of lease.old) MasterPlace.Part (hex_value digits.now)) }
{
    decode(digits, lease.master_mut(MasterPlace::Part));
}

/// FIRST, MIDDLE and LAST: puts the key part into the workbench, and leaves the action to be
/// carried out.
pub(crate) fn combine(action: &[u8], part: &[u8], lease: &mut Lease) -> Effect
    requires action { IsPartAction action.now }
    requires part { IsTrue (is_hex 48 part.now) }
    ensures settles { (role : List ℕ) (granted : Granted) (held : HeldRegisters)
        (rows : List (Option Row))
        → Settles (asked CsnbmkpPart (role ∷ action.now ∷ part.now ∷ []))
        granted held rows lease.old lease.new result [] }
{
    put_part(part, lease);
    Effect::Change(part_action_of(action))
}

/// CLEAR: leaves it to be carried out, or refuses it where a label is ahead. It goes over the
/// labels once.
pub(crate) fn clear(records: &Records) -> Effect
    ensures settles { (role action : List ℕ) (granted : Granted) (held : HeldRegisters)
        (lease : AnyLease)
        → Settles (asked CsnbmkpClear (role ∷ action ∷ []))
        granted held records.now lease lease result [] }
{
    if records.any_ahead() {
        Effect::Refused(Refusal::of_request(Rule::Ahead))
    } else {
        Effect::Change(Action::Clear)
    }
}

/// Rules 25 and 26 of SET.
fn set_rule(lease: &Lease, held: &Registers) -> Option<Rule>
    ensures rule { (m : Masters) → Loaded m held.now (bench_of lease.now)
        → option_map rule_number result ≡ first_failing (action_checks Action.Set m) }
{
    if held.new_state != NewState::Full {
        return Some(Rule::RegisterState);
    }
    if held.current_pattern == Some(pattern_of(lease, MasterPlace::New)) {
        return Some(Rule::SamePattern);
    }
    None
}

/// SET: leaves it to be carried out, or refuses it: by rules 25 and 26, and where a label is under
/// the old master key. It goes over the labels once.
pub(crate) fn set(lease: &Lease, held: &Registers, records: &Records) -> Effect
    ensures settles { (role action : List ℕ) (granted : Granted)
        → Settles (asked CsnbmkpSet (role ∷ action ∷ []))
        granted held.now records.now lease.now lease.now result [] }
{
    match set_rule(lease, held) {
        Some(rule) => Effect::Refused(Refusal::of_request(rule)),
        None if any_old(held, records) => Effect::Refused(Refusal::of_request(Rule::OldLabels)),
        None => Effect::Change(Action::Set),
    }
}
