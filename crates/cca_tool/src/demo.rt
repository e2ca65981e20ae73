//! A demo: lines that are made up are served, and the replies are counted.
ghost use Rattle.std.specs.Prelude.{◌≡◌, ◌≤◌, [], IfOk};
ghost use Rattle.key_cells.specs.Bench.{blank_bench};
ghost use Rattle.line_service.specs.Answering.{IsSound};
ghost use Rattle.line_service.specs.Devices.{HaveSizes};
ghost use Rattle.cca_machine.specs.State.{module_size, store_size};
ghost use Rattle.cca_machine.specs.Coprocessor.{cca};
ghost use Rattle.command_words.specs.Demo.{demo_text};
ghost use Rattle.cca_tool.specs.Running.{DemoRan, DemoUntouched, DisksUncalled};
ghost use Rattle.store_unload.specs.Statuses.{status_of_lem};

use crate::session::Session;
use command_words::{DemoText, Tally, Unused, put_summary};
use device_cells::{Disk, NoMemory, Sink};
use key_cells::Workbench;
use line_service::{Shown, ShownOutside, Stop, send};
use std::alloc::Global;
use store_unload::{Status, status_of};
use verb_script::ReplyBuffer;

// What a demo takes memory for: its lines, and what serves and counts them.
#[derive(Drop)]
struct DemoRoom {
    session: Session,
    text: DemoText,
    line: ReplyBuffer,
}

/// Serves the lines of `demo N` over the disks, and sends one line that tells how they were answered. All memory is
/// taken before a disk is called.
pub(crate) fn serve_demo<K: Sink, M: Disk, D: Disk>(
    alloc: Global,
    number: u32,
    bench: &mut Workbench,
    sink: &mut K,
    module: &mut M,
    store: &mut D,
) -> Status
    requires number { (1 ≤ number) × (number ≤ 1000) }
    requires blank { bench.old ≡ blank_bench }
    requires disks { HaveSizes module_size store_size
        (⟦<(M, D) as Shown>⟧.shown («module».old, store.old)) }

    ensures uncalled { result ≡ Status.NoMemory
        → DisksUncalled «module».old «module».new store.old store.new }
    ensures ran { DemoRan number result sink.old sink.new (⟦<(K, M, D) as ShownOutside>⟧.between
        (sink.old, «module».old, store.old) (sink.new, «module».new, store.new)) }
    ensures unsound { (IsSound cca (M.medium «module».old) (D.medium store.old) → ⊥)
        → DemoUntouched sink.old sink.new
        (⟦<(M, D) as Shown>⟧.between («module».old, store.old) («module».new, store.new)) }
    ensures bench { bench.new ≡ blank_bench }
{
    match room_for(alloc, number) {
        Ok(mut room) => status_of(serve_text(number, &mut room, bench, sink, module, store)),
        Err(_) => Status::NoMemory,
    }
}

// Takes the memory of a demo.
fn room_for(alloc: Global, number: u32) -> Result<DemoRoom, NoMemory>
    requires { number ≤ 1000 }
    ensures { IfOk result (λ room. (room.text ≡ demo_text number) × (room.line ≡ [])) }
{
    let line = ReplyBuffer::new(alloc)?;
    let text = DemoText::new(alloc, number)?;
    let session = Session::new(alloc)?;
    Ok(DemoRoom {
        session,
        text,
        line,
    })
}

// Serves the lines, and sends the summary of their replies.
fn serve_text<K: Sink, M: Disk, D: Disk>(
    number: u32,
    room: &mut DemoRoom,
    bench: &mut Workbench,
    sink: &mut K,
    module: &mut M,
    store: &mut D,
) -> Result<(), Stop>
    requires number { (1 ≤ number) × (number ≤ 1000) }
    requires text { room.old.text ≡ demo_text number }
    requires line { room.old.line ≡ [] }
    requires blank { bench.old ≡ blank_bench }
    requires disks { HaveSizes module_size store_size
        (⟦<(M, D) as Shown>⟧.shown («module».old, store.old)) }

    ensures ran { DemoRan number (status_of_lem result) sink.old sink.new
        (⟦<(K, M, D) as ShownOutside>⟧.between
        (sink.old, «module».old, store.old) (sink.new, «module».new, store.new)) }
    ensures unsound { (IsSound cca (M.medium «module».old) (D.medium store.old) → ⊥)
        → DemoUntouched sink.old sink.new
        (⟦<(M, D) as Shown>⟧.between («module».old, store.old) («module».new, store.new)) }
    ensures bench { bench.new ≡ blank_bench }
{
    let mut tally = Tally::new();
    match room.session.serve(
        bench,
        &mut room.text,
        &mut tally,
        module,
        store,
        &mut Unused,
    ) {
        Ok(()) => {
            put_summary(&mut room.line, number, &tally);
            match send(sink, room.line.bytes()) {
                Ok(()) => Ok(()),
                Err(_) => Err(Stop::WriteFault),
            }
        }
        Err(stop) => Err(stop),
    }
}
