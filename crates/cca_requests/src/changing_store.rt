//! Changes of the records, with their replies.
ghost use Rattle.std.specs.Prelude.{◌≡◌, ◌≤◌, [], List, Option, Some, None, IsSome, IfErr, IfOk, OnOk, set};
ghost use Rattle.record_bodies.specs.Directory.{free_cell};
ghost use Rattle.record_bodies.specs.Entries.{Entry, null_row, row_directory};
ghost use Rattle.record_bodies.specs.StoreStands.{KeepsLabels, HasStore};
ghost use Rattle.master_registers.specs.Masters.{Masters};
ghost use Rattle.reencipher.specs.Runs.{IsLabelCell, LeavesAnyStore, Reenciphers, TurnsCells};
ghost use Rattle.device_cells.specs.Medium.{Told};
ghost use Rattle.verb_rules.specs.Keys.{keys_of};
ghost use Rattle.key_cells.specs.Lease.{bench_of, loan_of};
ghost use Rattle.master_registers.specs.Loaded.{IsLoaded, Loaded};
ghost use Rattle.master_registers.specs.declared.registers.Registers.{Registers as HeldRegisters};
ghost use Rattle.verb_script.specs.Grammar.{Request};
ghost use Rattle.key_records.specs.Ready.{IsReadyFor};
ghost use Rattle.cca_machine.specs.State.{State};
ghost use Rattle.cca_machine.specs.Keys.{any_old};
ghost use Rattle.cca_machine.specs.Operands.{operands, listed};
ghost use Rattle.cca_machine.specs.Act.{Effect as MachineEffect, ChangeLabels, effected};
ghost use Rattle.cca_machine.specs.declared.effects.Effect.TheVariants as code;
ghost use Rattle.cca_requests.specs.Serving.{CarriesStore, LeavesRecords, LeavesStore};
ghost use Rattle.cca_requests.specs.Changes.{IsAnswer, IsShortlyNamed, made_reply, made_stop, plainly, create_outcome, record_stop, record_reply, run_stop, run_reply, RunsThrough};
ghost use Rattle.cca_requests.specs.Memory.{RefusedOr, SaysDone, row_with};
ghost use Rattle.request_rules.specs.Standing.{AtStore};
ghost use Rattle.request_rules.specs.Stored.{IsReadFault};
ghost use Rattle.cca_machine.specs.Deciding.{IsReady, IsHeldAt, IsWritten, IsDeleted};

use crate::changes::{Unmade, answer};
use crate::endings::{end, finish};
use cca_machine::Refusal;
use device_cells::Disk;
use key_cells::Lease;
use key_records::{Label, Place, RecordFault, Records};
use line_service::Stop;
use master_registers::Registers;
use reencipher::{StoreAction, ahead, drop_ahead, reencipher};
use request_rules::stop_of;
use verb_rules::Rule;
use verb_script::ReplyBuffer;

/// Why a label isn't held.
fn label_made(outcome: Result<(), RecordFault>) -> Result<(), Unmade>
    ensures stop { made_stop result ≡ record_stop outcome }
    ensures reply { made_reply result ≡ record_reply outcome }
    ensures short { IsShortlyNamed result }
{
    match outcome {
        Ok(()) => Ok(()),
        Err(RecordFault::DiskFault) => Err(Unmade::Stopped(Stop::StoreFault)),
        Err(RecordFault::Damaged(_)) => Err(Unmade::Stopped(Stop::StoreFault)),
        Err(RecordFault::Full) => Err(Unmade::Refused(Refusal {
            rule: Rule::StoreFull,
            operand: "label",
        })),
        Err(RecordFault::Exists) => Err(Unmade::Refused(Refusal {
            rule: Rule::LabelExists,
            operand: "label",
        })),
    }
}

/// Says that a label is held, or which rule refused it.
fn answer_create(outcome: Result<(), RecordFault>, reply: &mut ReplyBuffer) -> Result<(), Stop>
    requires { reply.old ≡ [] }
    ensures { IsAnswer (record_stop outcome) (record_reply outcome) result reply.new }
{
    answer(label_made(outcome), reply)
}

/// Holds a label, with nothing in its record.
pub(crate) fn create<D: Disk>(
    label: &Label,
    store: &mut D,
    lease: &mut Lease,
    records: &mut Records,
    reply: &mut ReplyBuffer,
) -> Result<(), Stop>
    requires store { HasStore records.old (D.medium store.old) }
    requires empty { reply.old ≡ [] }
    ensures carries { (s : State) (held : HeldRegisters)
        → AtStore s held (bench_of lease.old) records.old (D.medium store.old)
        → CarriesStore (create_outcome s label.now) s result reply.new records.new
        (D.medium store.old) (D.medium store.new) }
    ensures left { LeavesRecords D.medium D.faults lease.old lease.new store.old store.new
        result reply.new records.old records.new }
    ensures own { OnOk result (RefusedOr reply.new (records.new ≡ records.old)
        (records.new ≡ set records.old (free_cell (row_directory records.old))
        (Some (null_row label.now)))) }
{
    let outcome = records.create(store, lease, label);
    answer_create(outcome, reply)
}

/// Puts the key of a token into a record.
pub(crate) fn write<D: Disk>(
    place: Place,
    token: &[u8; 64],
    warns: bool,
    store: &mut D,
    lease: &mut Lease,
    held: &Registers,
    records: &mut Records,
    reply: &mut ReplyBuffer,
) -> Result<(), Stop>
    requires store { HasStore records.old (D.medium store.old) }
    requires loaded { IsLoaded held.now (bench_of lease.old) }
    requires ready { IsReady held.now (bench_of lease.old) records.old
        (code.Write place token.now) reply.old }
    ensures carries { (s : State) (request : Request) (e : MachineEffect)
        → AtStore s held.now (bench_of lease.old) records.old (D.medium store.old)
        → any_old s (listed (operands request)) ≡ warns
        → IsWritten s e place token.now reply.old
        → CarriesStore (effected s request e) s result reply.new records.new
        (D.medium store.old) (D.medium store.new) }
    ensures left { LeavesRecords D.medium D.faults lease.old lease.new store.old store.new
        result reply.new records.old records.new }
    ensures own { OnOk result
        (records.new ≡ set records.old place (row_with records.old place token.now)) }
{
    match records.write(store, lease, held, place, token) {
        Ok(()) => {
            finish(warns, reply);
            Ok(())
        }
        Err(_) => {
            reply.clear();
            Err(Stop::StoreFault)
        }
    }
}

/// Takes a label away.
pub(crate) fn delete<D: Disk>(
    place: Place,
    store: &mut D,
    lease: &mut Lease,
    records: &mut Records,
    reply: &mut ReplyBuffer,
) -> Result<(), Stop>
    requires store { HasStore records.old (D.medium store.old) }
    requires held { IsHeldAt records.old place }
    requires empty { reply.old ≡ [] }
    ensures carries { (s : State) (held : HeldRegisters) (e : MachineEffect)
        → AtStore s held (bench_of lease.old) records.old (D.medium store.old)
        → IsDeleted s e place
        → CarriesStore (plainly s e) s result reply.new records.new
        (D.medium store.old) (D.medium store.new) }
    ensures left { LeavesRecords D.medium D.faults lease.old lease.new store.old store.new
        result reply.new records.old records.new }
    ensures own { OnOk result (SaysDone reply.new
        × (records.new ≡ set records.old place None)) }
{
    match records.delete(store, lease, place) {
        Ok(()) => {
            reply.ok();
            end(reply);
            Ok(())
        }
        Err(_) => Err(Stop::StoreFault),
    }
}

/// Makes every label what the action makes of it, and answers how many it changed.
fn carry_out<D: Disk>(
    action: StoreAction,
    lease: &mut Lease,
    held: &Registers,
    store: &mut D,
    records: &mut Records,
) -> Result<u32, RecordFault>
    requires store { HasStore records.old (D.medium store.old) }
    requires loaded { IsLoaded held.now (bench_of lease.old) }
    requires current { IsSome held.now.current_pattern }
    requires ready { IsReadyFor action held.now (bench_of lease.old) }
    ensures labels { (m : Masters) (s : List (Option Entry))
        → Loaded m held.now (bench_of lease.old)
        → Told (D.medium store.old) (KeepsLabels (keys_of m) records.old s)
        → Reenciphers action (keys_of m) s records.new
        (D.medium store.old) (D.medium store.new) result }
    ensures cells { TurnsCells action held.now records.old records.new
        (D.medium store.old) (D.medium store.new) result }
    ensures left { LeavesAnyStore D.medium D.faults (IsLabelCell records.old)
        lease.old lease.new records.old records.new store.old store.new result }
{
    match action {
        StoreAction::Renew => reencipher(lease, held, store, records),
        StoreAction::Ahead => ahead(lease, held, store, records),
        StoreAction::Drop => drop_ahead(lease, held, store, records),
    }
}

/// Says how many labels an action changed, or why it ended on its way.
fn answer_run(outcome: Result<u32, RecordFault>, reply: &mut ReplyBuffer) -> Result<(), Stop>
    requires few { IfOk outcome (λ n. n ≤ 1024) }
    requires read { IfErr outcome IsReadFault }
    requires empty { reply.old ≡ [] }
    ensures { IsAnswer (run_stop outcome) (run_reply outcome) result reply.new }
{
    match outcome {
        Ok(changed) => {
            reply.ok();
            reply.number("changed", changed);
            end(reply);
            Ok(())
        }
        Err(fault) => Err(stop_of(fault)),
    }
}

/// Makes every label what the action makes of it, and says how many it changed.
pub(crate) fn renew<D: Disk>(
    action: StoreAction,
    store: &mut D,
    lease: &mut Lease,
    held: &Registers,
    records: &mut Records,
    reply: &mut ReplyBuffer,
) -> Result<(), Stop>
    requires store { HasStore records.old (D.medium store.old) }
    requires loaded { IsLoaded held.now (bench_of lease.old) }
    requires current { IsSome held.now.current_pattern }
    requires ready { IsReadyFor action held.now (bench_of lease.old) }
    requires empty { reply.old ≡ [] }
    ensures carries { (s : State)
        → AtStore s held.now (bench_of lease.old) records.old (D.medium store.old)
        → CarriesStore (plainly s (ChangeLabels action)) s result reply.new records.new
        (D.medium store.old) (D.medium store.new) }
    ensures left { LeavesStore (D.medium store.old) (D.medium store.new)
        (D.faults store.old) (D.faults store.new) result reply.new records.old records.new }
    ensures run { RunsThrough action held.now records.old records.new
        (D.medium store.old) (D.medium store.new) result reply.new }
    ensures loan { loan_of lease.new ≡ loan_of lease.old }
{
    let outcome = carry_out(action, lease, held, store, records);
    answer_run(outcome, reply)
}
