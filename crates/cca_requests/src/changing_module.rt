//! Changes of the registers and of the roles, with their replies.
ghost use Rattle.cca_roles.specs.RoleNames.{default_name};
ghost use Rattle.cca_roles.specs.Roles.{after_define, after_remove};
ghost use Rattle.record_bodies.specs.StoreStands.{HoldsRows};
ghost use Rattle.std.specs.Prelude.{ℕ, List, ◌≡◌, ◌≢◌, ◌≤◌, ◌↔◌, [], Err, IsTrue, OnErr, OnOk, length, codes};
ghost use Rattle.master_registers.specs.Actions.{after_action, has_wrong_state, repeats_pattern};
ghost use Rattle.master_registers.specs.Changes.{CarriesOut, IsLoadedFrom};
ghost use Rattle.master_registers.specs.Loaded.{masters_in};
ghost use Rattle.key_cells.specs.Lease.{bench_of, loan_of};
ghost use Rattle.cca_machine.specs.State.{State};
ghost use Rattle.cca_machine.specs.Act.{DefineRole, RemoveRole};
ghost use Rattle.cca_machine.specs.Verdict.{define_questions, remove_questions};
ghost use Rattle.cca_requests.specs.Serving.{CallsModule, LeavesModule};
ghost use Rattle.cca_requests.specs.Changes.{IsAnswer, IsShortlyNamed, made_reply, made_stop, IsTurnedBy, rows_after, rows_by, action_outcome, state_name, change_stop, change_reply, role_outcome, role_stop, role_reply};
ghost use Rattle.cca_requests.specs.Memory.{RefusedOr};
ghost use Rattle.request_rules.specs.Standing.{HasLoaded, AtModule};

use crate::changes::{Unmade, answer};
use crate::endings::{end, refuse};
use cca_machine::Refusal;
use cca_roles::{AccessPoints, RoleFault, RoleName, Roles};
use device_cells::Disk;
use key_cells::Lease;
use key_records::Records;
use line_service::Stop;
use master_registers::{
    Action, NewState, RegisterFault, Registers, clear, first, last, middle, set,
};
use verb_rules::Rule;
use verb_script::ReplyBuffer;

fn name_of(state: NewState) -> &'static str
    ensures name { result.now ≡ state_name state }
    ensures size { length result.now ≤ 7 }
{
    match state {
        NewState::Empty => "empty",
        NewState::Partial => "partial",
        NewState::Full => "full",
    }
}

/// Says how full the new register is, or which rule refused the change.
fn answer_change(
    outcome: Result<Registers, RegisterFault>,
    reply: &mut ReplyBuffer,
) -> Result<(), Stop>
    requires { reply.old ≡ [] }
    ensures { IsAnswer (change_stop outcome) (change_reply outcome) result reply.new }
{
    match outcome {
        Ok(held) => {
            reply.ok();
            reply.text("new", name_of(held.new_state).as_bytes());
            end(reply);
            Ok(())
        }
        Err(RegisterFault::DiskFault) => Err(Stop::ModuleFault),
        Err(RegisterFault::RegisterState) => {
            refuse(reply, &Refusal::of_request(Rule::RegisterState));
            Ok(())
        }
        Err(RegisterFault::SamePattern) => {
            refuse(reply, &Refusal::of_request(Rule::SamePattern));
            Ok(())
        }
    }
}

/// The step of a key ceremony that the action names.
fn carry_out<M: Disk>(
    action: Action,
    module: &mut M,
    lease: &mut Lease,
    held: &Registers,
) -> Result<Registers, RegisterFault>
    requires { IsLoadedFrom (M.medium «module».old) held.now (bench_of lease.old) }
    ensures registers { let bench = bench_of lease.old in
        let m = masters_in held.now bench in
        CarriesOut M.medium M.faults m (after_action action bench.part m)
        lease.old lease.new «module».old «module».new result }
    ensures state { (result ≡ Err RegisterFault.RegisterState)
        ↔ IsTrue (has_wrong_state action (masters_in held.now (bench_of lease.old))) }
    ensures same { (result ≡ Err RegisterFault.SamePattern)
        ↔ IsTrue (repeats_pattern action (masters_in held.now (bench_of lease.old))) }
{
    match action {
        Action::First => first(module, lease, held),
        Action::Middle => middle(module, lease, held),
        Action::Last => last(module, lease, held),
        Action::Clear => clear(module, lease, held),
        Action::Set => set(module, lease, held),
    }
}

/// After SET the labels that were ahead are under their second tokens.
fn turn_after(action: Action, outcome: &Result<Registers, RegisterFault>, records: &mut Records)
    ensures { records.new ≡ rows_by outcome.now action records.old }
{
    if outcome.is_ok() && action == Action::Set {
        records.turn();
    }
}

/// Carries out an action on the registers. After SET the memory is turned.
pub(crate) fn change_registers<M: Disk>(
    action: Action,
    module: &mut M,
    lease: &mut Lease,
    held: &Registers,
    roles: &Roles,
    records: &mut Records,
    reply: &mut ReplyBuffer,
) -> Result<(), Stop>
    requires at { HasLoaded held.now (bench_of lease.old) roles.now (M.medium «module».old) }
    requires empty { reply.old ≡ [] }
    ensures carries { (s : State) → AtModule s held.now (bench_of lease.old) roles.now
        (M.medium «module».old)
        → CallsModule M.medium (action_outcome s action (bench_of lease.old).part) s
        result reply.new roles.now «module».old «module».new }
    ensures left { LeavesModule (M.medium «module».old) (M.medium «module».new)
        (M.faults «module».old) (M.faults «module».new) result reply.new roles.now roles.now }
    ensures turned { (s : State) → AtModule s held.now (bench_of lease.old) roles.now
        (M.medium «module».old) → IsTurnedBy s action result records.old records.new }
    ensures rows { (image : List ℕ) → HoldsRows records.old image → HoldsRows records.new image }
    ensures memory { OnErr result (records.new ≡ records.old) }
    ensures own { OnOk result (RefusedOr reply.new (records.new ≡ records.old)
        (records.new ≡ rows_after action records.old)) }
    ensures loan { loan_of lease.new ≡ loan_of lease.old }
{
    let outcome = carry_out(action, module, lease, held);
    turn_after(action, &outcome, records);
    answer_change(outcome, reply)
}

/// Why the roles aren't changed.
fn roles_made(outcome: Result<(), RoleFault>) -> Result<(), Unmade>
    ensures stop { made_stop result ≡ role_stop outcome }
    ensures reply { made_reply result ≡ role_reply outcome }
    ensures short { IsShortlyNamed result }
{
    match outcome {
        Ok(()) => Ok(()),
        Err(RoleFault::DiskFault) => Err(Unmade::Stopped(Stop::ModuleFault)),
        Err(RoleFault::Damaged(_)) => Err(Unmade::Stopped(Stop::ModuleFault)),
        Err(RoleFault::TableFull | RoleFault::Unknown) => Err(Unmade::Refused(Refusal {
            rule: Rule::RoleTable,
            operand: "name",
        })),
    }
}

/// Says that the roles are changed, or which rule refused the change.
fn answer_roles(outcome: Result<(), RoleFault>, reply: &mut ReplyBuffer) -> Result<(), Stop>
    requires { reply.old ≡ [] }
    ensures { IsAnswer (role_stop outcome) (role_reply outcome) result reply.new }
{
    answer(roles_made(outcome), reply)
}

/// Gives a role these access control points.
pub(crate) fn define_role<M: Disk>(
    name: &RoleName,
    points: AccessPoints,
    module: &mut M,
    lease: &mut Lease,
    held: &Registers,
    roles: &mut Roles,
    reply: &mut ReplyBuffer,
) -> Result<(), Stop>
    requires at { HasLoaded held.now (bench_of lease.old) roles.old (M.medium «module».old) }
    requires empty { reply.old ≡ [] }
    ensures carries { (s : State) → AtModule s held.now (bench_of lease.old) roles.old
        (M.medium «module».old)
        → CallsModule M.medium (role_outcome (define_questions s name.now) s
        (DefineRole name.now points)) s
        result reply.new roles.new «module».old «module».new }
    ensures own { OnOk result (RefusedOr reply.new (roles.new ≡ roles.old)
        (roles.new ≡ after_define name.now points roles.old)) }
    ensures left { LeavesModule (M.medium «module».old) (M.medium «module».new)
        (M.faults «module».old) (M.faults «module».new) result reply.new roles.old roles.new }
    ensures loan { loan_of lease.new ≡ loan_of lease.old }
{
    let outcome = roles.define(module, lease, name, points);
    answer_roles(outcome, reply)
}

/// Makes a role one that isn't held.
pub(crate) fn remove_role<M: Disk>(
    name: &RoleName,
    module: &mut M,
    lease: &mut Lease,
    held: &Registers,
    roles: &mut Roles,
    reply: &mut ReplyBuffer,
) -> Result<(), Stop>
    requires at { HasLoaded held.now (bench_of lease.old) roles.old (M.medium «module».old) }
    requires empty { reply.old ≡ [] }
    requires other { name.now ≢ default_name }
    ensures carries { (s : State) → AtModule s held.now (bench_of lease.old) roles.old
        (M.medium «module».old)
        → CallsModule M.medium (role_outcome (remove_questions s name.now) s
        (RemoveRole name.now)) s
        result reply.new roles.new «module».old «module».new }
    ensures own { OnOk result (RefusedOr reply.new (roles.new ≡ roles.old)
        (roles.new ≡ after_remove name.now roles.old)) }
    ensures left { LeavesModule (M.medium «module».old) (M.medium «module».new)
        (M.faults «module».old) (M.faults «module».new) result reply.new roles.old roles.new }
    ensures loan { loan_of lease.new ≡ loan_of lease.old }
{
    let outcome = roles.remove(module, lease, name);
    answer_roles(outcome, reply)
}
