//! REENCIPHER: the store under another master key, and ahead of one.
ghost use Rattle.std.specs.Prelude.{◌≡◌, ◌||◌, [], ◌∷◌, ℕ, IsSome, List, None, Option};
ghost use Rattle.std.specs.Option.{option_map};
ghost use Rattle.cca_vectors.specs.Checks.{check, first_failing};
ghost use Rattle.key_cells.specs.Lease.{bench_of};
ghost use Rattle.key_cells.specs.declared.leases.Lease.{Lease as AnyLease};
ghost use Rattle.record_bodies.specs.declared.rows.Row.{Row};
ghost use Rattle.master_registers.specs.Loaded.{IsLoaded, Loaded};
ghost use Rattle.master_registers.specs.Masters.{Masters, set_refused, has_pattern_of};
ghost use Rattle.master_registers.specs.declared.registers.Registers.{Registers as HeldRegisters};
ghost use Rattle.verb_rules.specs.Ready.{IsReadyAhead};
ghost use Rattle.verb_rules.specs.Rules.{rule_number};
ghost use Rattle.verb_script.specs.declared.rows.RequestName.TheVariants.{Reencipher, ReencipherAhead, ReencipherDrop};
ghost use Rattle.cca_machine.specs.Decided.{Settles, asked};
ghost use Rattle.cca_machine.specs.declared.granted.Granted.{Granted};

use crate::verbs::old_labels::any_old;
use cca_machine::{Effect, Refusal};
use key_cells::Lease;
use key_records::{Records, is_taken};
use master_registers::{NewState, Registers};
use record_bodies::StoreAction;
use verb_rules::Rule;

/// Leaves every label to be brought under the current master key.
pub(crate) fn renew() -> Effect
    ensures settles { (role : List ℕ) (granted : Granted) (held : HeldRegisters)
        (rows : List (Option Row)) (lease : AnyLease)
        → IsSome held.current_pattern → IsLoaded held (bench_of lease)
        → Settles (asked Reencipher (role ∷ [])) granted held rows lease lease result [] }
{
    Effect::Reencipher(StoreAction::Renew)
}

/// Rules 25 and 26 of AHEAD.
fn ahead_rule(lease: &Lease, held: &Registers) -> Option<Rule>
    ensures rule { (m : Masters) → Loaded m held.now (bench_of lease.now)
        → option_map rule_number result ≡ first_failing (check 25 (set_refused m)
        ∷ check 26 (has_pattern_of m.coming m.current || has_pattern_of m.coming m.former) ∷ []) }
    ensures ready { IsLoaded held.now (bench_of lease.now) → result ≡ None
        → IsReadyAhead held.now (bench_of lease.now) }
{
    if held.new_state != NewState::Full {
        return Some(Rule::RegisterState);
    }
    if is_taken(lease, held) {
        return Some(Rule::SamePattern);
    }
    None
}

/// AHEAD: leaves every label to be prepared for the new master key, or refuses it: by rules 25 and
/// 26, and where a label is under the old master key. It goes over the labels once.
pub(crate) fn ahead(lease: &Lease, held: &Registers, records: &Records) -> Effect
    requires loaded { IsLoaded held.now (bench_of lease.now) }
    requires current { IsSome held.now.current_pattern }
    ensures settles { (role action : List ℕ) (granted : Granted)
        → Settles (asked ReencipherAhead (role ∷ action ∷ []))
        granted held.now records.now lease.now lease.now result [] }
{
    match ahead_rule(lease, held) {
        Some(rule) => Effect::Refused(Refusal::of_request(rule)),
        None if any_old(held, records) => Effect::Refused(Refusal::of_request(Rule::OldLabels)),
        None => Effect::Reencipher(StoreAction::Ahead),
    }
}

/// DROP: leaves every label to be prepared no longer.
pub(crate) fn drop() -> Effect
    ensures settles { (role action : List ℕ) (granted : Granted) (held : HeldRegisters)
        (rows : List (Option Row)) (lease : AnyLease)
        → IsSome held.current_pattern → IsLoaded held (bench_of lease)
        → Settles (asked ReencipherDrop (role ∷ action ∷ []))
        granted held rows lease lease result [] }
{
    Effect::Reencipher(StoreAction::Drop)
}
