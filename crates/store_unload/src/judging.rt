//! What is judged before a store is moved: the role, the master key, and the transport key.
ghost use Rattle.std.specs.Prelude.{◌≡◌, ℕ, Err, IfErr, IfOk};
ghost use Rattle.std.specs.Option.{option_map};
ghost use Rattle.cca_vectors.specs.Checks.{first_failing};
ghost use Rattle.key_cells.specs.Bench.{Bench};
ghost use Rattle.key_cells.specs.Lease.{bench_of};
ghost use Rattle.key_records.specs.Changes.{KeepsAllButBody};
ghost use Rattle.record_bodies.specs.Labels.{IsLabel};
ghost use Rattle.record_bodies.specs.StoreStands.{HoldsRows, KeepsLabels};
ghost use Rattle.line_service.specs.Devices.{TellsFault};
ghost use Rattle.master_registers.specs.Loaded.{Loaded};
ghost use Rattle.master_registers.specs.Masters.{Masters};
ghost use Rattle.device_cells.specs.Medium.{Keeps, Told};
ghost use Rattle.verb_rules.specs.Keys.{IsDouble, keys_of};
ghost use Rattle.verb_rules.specs.Rules.{rule_number};
ghost use Rattle.cca_machine.specs.State.{State};
ghost use Rattle.store_unload.specs.Judging.{IsJudged, IsStoreFault, JudgedAsRead};
ghost use Rattle.store_unload.specs.Moves.{role_checks};

use cca_roles::{AccessPoints, RoleName, Roles};
use command_words::Move;
use device_cells::{Disk, Steps};
use key_cells::Lease;
use key_records::{Label, RecordFault, Records, STORE_LEN};
use master_registers::Registers;
use request_rules::role_rule;
use store_move::judge_transport;
use verb_rules::{Judged, Rule};

/// The transport key of a move; or the first rule that refuses the move: rules 03 to 05 of the role and the master key,
/// then rules 07, 08, 17 and 19 to 22 of the label. One cell is read, and nothing is written.
pub fn judge_move<D: Disk>(
    how: &Move,
    lease: &mut Lease,
    held: &Registers,
    roles: &Roles,
    store: &mut D,
    records: &Records,
) -> Result<Result<Judged, Rule>, RecordFault>
    requires size { (D.medium store.old).size ≡ STORE_LEN }
    requires holds { Told (D.medium store.old) (HoldsRows records.now) }

    ensures judged { (s : State) → roles.now ≡ s.roles
        → Loaded s.registers held.now (bench_of lease.old)
        → Told (D.medium store.old) (KeepsLabels (keys_of s.registers) records.now s.labels)
        → IfOk result (λ judged. Told (D.medium store.old)
        (λ _. IsJudged s how.now (bench_of lease.old) judged)) }
    // By what was read of the label's record, whatever the store tells of its bytes.
    ensures own { (m : Masters) → Loaded m held.now (bench_of lease.old)
        → IfOk result (JudgedAsRead m roles.now how.now records.now
        (bench_of lease.old) (bench_of lease.new).body) }
    ensures double { IfOk result (λ judged. IfOk judged IsDouble) }
    ensures damaged { (s : State) → Loaded s.registers held.now (bench_of lease.old)
        → Told (D.medium store.old) (KeepsLabels (keys_of s.registers) records.now s.labels)
        → (cell : ℕ) → result ≡ Err (RecordFault.Damaged cell)
        → Told (D.medium store.old) (λ _. ⊥) }
    ensures faults { IfErr result IsStoreFault }
    ensures store_left { TellsFault (D.faults store.old) (D.faults store.new)
        (result ≡ Err RecordFault.DiskFault) }
    ensures keeps { Keeps (D.medium store.old) (D.medium store.new) }
    ensures rest { KeepsAllButBody lease.old lease.new }
{
    is_named(&how.transport);
    if let Some(rule) = move_rule(&how.role, held, roles) {
        return Ok(Err(rule));
    }
    let mut steps: Steps<()> = Steps::new();
    match records.find(&how.transport, &mut steps) {
        Some(place) => judge_transport(lease, store, records, place, held),
        None => Ok(Err(Rule::LabelUnknown)),
    }
}

/// A label's text is that of a label: a fact that contracts use.
fn is_named(label: &Label)
    ensures { IsLabel label.now }
{
    let _text = label.text();
}

/// Rules 03, 04 and 05. The role needs the access control points of CSNBKEX and CSNBKRL.
fn move_rule(role: &RoleName, held: &Registers, roles: &Roles) -> Option<Rule>
    ensures rule { (s : State) (bench : Bench) → roles.now ≡ s.roles
        → Loaded s.registers held.now bench
        → option_map rule_number result ≡ first_failing (role_checks s role.now) }
{
    role_rule(
        role,
        AccessPoints::KEX.union(AccessPoints::KRL),
        true,
        held,
        roles,
    )
}
