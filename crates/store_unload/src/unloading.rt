//! The top call that moves a store to another module.
ghost use Rattle.std.specs.Prelude.{◌≡◌, ◌⊎◌, ◌↔◌, ℕ, List, IfErr};
ghost use Rattle.key_cells.specs.Bench.{blank_bench};
ghost use Rattle.key_cells.specs.Lease.{bench_of, loan_of};
ghost use Rattle.record_bodies.specs.StoreStands.{HoldsRows};
ghost use Rattle.master_registers.specs.Loaded.{Loaded};
ghost use Rattle.master_registers.specs.Masters.{Masters};
ghost use Rattle.device_cells.specs.Medium.{Keeps, Told};
ghost use Rattle.line_service.specs.Devices.{HaveSizes, TellsFault};
ghost use Rattle.cca_machine.specs.State.{State, module_size, store_size};
ghost use Rattle.request_rules.specs.Standing.{tables};
ghost use Rattle.store_unload.specs.Judging.{RefusedAsRead};
ghost use Rattle.store_unload.specs.Writing.{IsFault};
ghost use Rattle.command_words.specs.declared.moves.Move.{Move as AnyMove};
ghost use Rattle.command_words.specs.MoveWords.{AreWordsOf, IsMove};
ghost use Rattle.store_unload.specs.Opening.{IsOpened};
ghost use Rattle.store_unload.specs.Unloading.{IsLabelStatus, IsMoveStatus, IsOpenStatus};
ghost use Rattle.store_unload.specs.Unloading.{MoveCallsNone, MoveLeft, MoveRests, MoveTold, MoveUncalled, MoveUntold, OutputsLeft, Still, TellsNone, outputs, told_status};

use crate::judging::judge_move;
use crate::opening::open_disks;
use crate::status::{Status, status_of};
use crate::writing::{MoveFault, write_move};
use cca_roles::Roles;
use command_words::{Move, Words};
use device_cells::{Disk, NoMemory, Sink};
use key_cells::{Lease, Workbench};
use key_records::Records;
use line_service::{ReplyBuffer, Shown};
use master_registers::Registers;
use request_rules::stop_of;
use std::alloc::Global;

/// How a move ended.
#[derive(Clone, Copy, Debug, PartialEq, Eq)]
pub enum MoveStatus {
    /// As a run ends: `Done` where all labels were told.
    Run(Status),
    /// The rule of this number refuses the move.
    Refused(u8),
    /// The report could not be written.
    ReportFault,
}

// What a move takes memory for: the roles of the module and the labels of the store, and a line of the file.
#[derive(Drop)]
struct MoveRoom {
    roles: Roles,
    records: Records,
    line: ReplyBuffer,
}

/// Writes a request file that moves the keys of the store to another module, with which a transport key is shared, and a
/// report of the labels that are kept back.
///
/// This is for the words `unload ROLE LABEL ROLE LABEL`: a role here, and the label that holds the transport key as an
/// EXPORTER; a role at the other module, and the label there that holds it as an IMPORTER. The labels are told in
/// ascending order: of each one that is moved, the file gets CSNBKRC and CSNBKIM; of each other one, the report gets a
/// line that says why. Both disks are synced when they are opened, and nothing is written to them.
///
/// All memory is taken before a device is called, and none after. The bench is wiped first, since it may hold anything.
pub fn unload<K: Sink, P: Sink, M: Disk, D: Disk>(
    alloc: Global,
    words: &Words,
    bench: &mut Workbench,
    sink: &mut K,
    report: &mut P,
    module: &mut M,
    store: &mut D,
) -> MoveStatus
    requires { HaveSizes module_size store_size
        (⟦<(M, D) as Shown>⟧.shown («module».old, store.old)) }

    ensures usage { (result ≡ MoveStatus.Run Status.Usage) ↔ (IsMove words.now → ⊥) }
    ensures statuses { IsMoveStatus result }
    ensures uncalled { MoveCallsNone result → MoveUncalled sink.old sink.new report.old report.new
        «module».old «module».new store.old store.new }

    // Once a device is called, the words ask for a move, and this is what it leaves: what it comes to, from the state for
    // which the disks stand, and by what was read of them; and what is left of each device, and why it ended.
    ensures ends { (MoveCallsNone result → ⊥) → (w : AnyMove) × AreWordsOf w words.now
        × MoveLeft w result sink.old sink.new report.old report.new
        (⟦<(M, D) as Shown>⟧.between («module».old, store.old) («module».new, store.new))
        (record {
          old = outputs (K.held sink.old) (K.faults sink.old)
              (P.held report.old) (P.faults report.old);
          new = outputs (K.held sink.new) (K.faults sink.new)
              (P.held report.new) (P.faults report.new);
        }) }

    // No key is left in the bench.
    ensures bench { bench.new ≡ blank_bench }
{
    bench.wipe();
    let Some(how) = words.moving() else {
        return MoveStatus::Run(Status::Usage);
    };
    match room_for(alloc) {
        Ok(mut room) => {
            let mut lease = Lease::open(bench);
            move_store(&how, &mut room, &mut lease, sink, report, module, store)
        }
        Err(_) => MoveStatus::Run(Status::NoMemory),
    }
}

/// Takes the memory of a move.
fn room_for(alloc: Global) -> Result<MoveRoom, NoMemory> {
    let records = Records::new(alloc)?;
    let line = ReplyBuffer::new(alloc)?;
    Ok(MoveRoom {
        roles: Roles::new(),
        records,
        line,
    })
}

/// Opens the disks, and moves the labels.
fn move_store<K: Sink, P: Sink, M: Disk, D: Disk>(
    how: &Move,
    room: &mut MoveRoom,
    lease: &mut Lease,
    sink: &mut K,
    report: &mut P,
    module: &mut M,
    store: &mut D,
) -> MoveStatus
    requires { HaveSizes module_size store_size
        (⟦<(M, D) as Shown>⟧.shown («module».old, store.old)) }

    ensures statuses { IsOpenStatus result }
    ensures ends { MoveLeft how.now result sink.old sink.new report.old report.new
        (⟦<(M, D) as Shown>⟧.between («module».old, store.old) («module».new, store.new))
        (record {
          old = outputs (K.held sink.old) (K.faults sink.old)
              (P.held report.old) (P.faults report.old);
          new = outputs (K.held sink.new) (K.faults sink.new)
              (P.held report.new) (P.faults report.new);
        }) }
    ensures loan { loan_of lease.new ≡ loan_of lease.old }
{
    match open_disks(&mut room.roles, &mut room.records, lease, module, store) {
        Ok(held) => move_labels(
            how,
            &room.roles,
            &room.records,
            &mut room.line,
            lease,
            &held,
            sink,
            report,
            store,
        ),
        Err(stop) => MoveStatus::Run(status_of(Err(stop))),
    }
}

/// Judges the move, and tells the labels.
fn move_labels<K: Sink, P: Sink, D: Disk>(
    how: &Move,
    roles: &Roles,
    records: &Records,
    line: &mut ReplyBuffer,
    lease: &mut Lease,
    held: &Registers,
    sink: &mut K,
    report: &mut P,
    store: &mut D,
) -> MoveStatus
    requires size { (D.medium store.old).size ≡ store_size }
    requires holds { Told (D.medium store.old) (HoldsRows records.now) }

    ensures statuses { IsLabelStatus result }
    ensures told { (s : State) → IsOpened s held.now (bench_of lease.old)
        (tables roles.now records.now) (D.medium store.old)
        → MoveTold s how.now result
        (K.held sink.old) (K.held sink.new) (P.held report.old) (P.held report.new)
        (Still (D.faults store.old) (D.faults store.new))
        (Still (K.faults sink.old) (K.faults sink.new)
        × Still (P.faults report.old) (P.faults report.new)) }
    ensures own { (m : Masters) → Loaded m held.now (bench_of lease.old)
        → (result ≡ MoveStatus.Run Status.Done)
        ⊎ (MoveUntold sink.old sink.new report.old report.new → ⊥)
        → MoveRests m roles.now how.now records.now result
        (K.held sink.old) (K.held sink.new) (P.held report.old) (P.held report.new) }
    ensures refusal { (m : Masters) → Loaded m held.now (bench_of lease.old)
        → (rule : ℕ) → result ≡ MoveStatus.Refused rule
        → (body : List ℕ) × RefusedAsRead m roles.now how.now records.now body rule }
    ensures untold { TellsNone result → MoveUntold sink.old sink.new report.old report.new }
    ensures keeps { Keeps (D.medium store.old) (D.medium store.new) }
    ensures store_left { TellsFault (D.faults store.old) (D.faults store.new)
        (result ≡ MoveStatus.Run Status.StoreFault) }
    ensures outputs { OutputsLeft result (record {
      old = outputs (K.held sink.old) (K.faults sink.old) (P.held report.old) (P.faults report.old);
      new = outputs (K.held sink.new) (K.faults sink.new) (P.held report.new) (P.faults report.new);
    }) }
    ensures loan { loan_of lease.new ≡ loan_of lease.old }
{
    match judge_move(how, lease, held, roles, store, records) {
        Ok(Ok(transport)) => status_of_told(write_move(
            how, line, lease, held, &transport, sink, report, store, records,
        )),
        Ok(Err(rule)) => MoveStatus::Refused(rule.number()),
        Err(fault) => status_of_told(Err(MoveFault::Store(fault))),
    }
}

/// How a move ends whose labels were told, or up to one.
fn status_of_told(outcome: Result<(), MoveFault>) -> MoveStatus
    requires { IfErr outcome IsFault }
    ensures { result ≡ told_status outcome }
{
    match outcome {
        Ok(()) => MoveStatus::Run(Status::Done),
        Err(MoveFault::WriteFault) => MoveStatus::Run(Status::WriteFault),
        Err(MoveFault::ReportFault) => MoveStatus::ReportFault,
        Err(MoveFault::Store(fault)) => MoveStatus::Run(status_of(Err(stop_of(fault)))),
    }
}
