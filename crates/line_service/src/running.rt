//! Line after line, to the end of the input.
ghost use Rattle.std.specs.Prelude.{◌≡◌};
ghost use Rattle.key_cells.specs.Bench.{blank_bench};
ghost use Rattle.line_service.specs.Reading.{blank};
ghost use Rattle.line_service.specs.Answering.{IsSound};
ghost use Rattle.line_service.specs.Devices.{AreSettled, HaveSizes};
ghost use Rattle.line_service.specs.Running.{LinesLeft, SessionLeft, Untouched};

use crate::desk::Desk;
use crate::devices::{Shown, ShownOutside};
use crate::lines::LineBuffer;
use crate::reply::ReplyBuffer;
use crate::serving::{Served, serve_one};
use crate::stops::Stop;
use device_cells::{Disk, Entropy, Sink, Source};
use key_cells::Workbench;

// Serves line after line, to the end of the input. It reads each byte once, and sends each reply by itself.
fn serve_all<A: Desk, S: Source, K: Sink, M: Disk, D: Disk, E: Entropy>(
    desk: &mut A,
    lines: &mut LineBuffer,
    reply: &mut ReplyBuffer,
    bench: &mut Workbench,
    source: &mut S,
    sink: &mut K,
    module: &mut M,
    store: &mut D,
    entropy: &mut E,
) -> Result<(), Stop>
    requires fresh { lines.old ≡ blank }
    requires disks { AreSettled A.machine.module_size A.machine.store_size
        (⟦<(M, D) as Shown>⟧.shown («module».old, store.old)) }
    requires ready { A.ready desk.old (M.medium «module».old) (D.medium store.old) }
    requires bench { bench.old ≡ blank_bench }

    ensures ends { LinesLeft A.machine (A.knows desk.old) result
        (⟦<(S, K, M, D, E) as ShownOutside>⟧.between
        (source.old, sink.old, «module».old, store.old, entropy.old)
        (source.new, sink.new, «module».new, store.new, entropy.new)) }
    ensures bench { bench.new ≡ blank_bench }
{
    'each_line: loop {
        match serve_one(
            desk, lines, reply, bench, source, sink, module, store, entropy,
        ) {
            Ok(Served::Replied) => {}
            Ok(Served::Ended) => return Ok(()),
            Err(stop) => return Err(stop),
        }
    }
}

/// Opens the disks, and serves line after line to the end of the input. It takes no memory. Bytes that the line
/// buffer holds are lost.
pub fn serve<A: Desk, S: Source, K: Sink, M: Disk, D: Disk, E: Entropy>(
    desk: &mut A,
    lines: &mut LineBuffer,
    reply: &mut ReplyBuffer,
    bench: &mut Workbench,
    source: &mut S,
    sink: &mut K,
    module: &mut M,
    store: &mut D,
    entropy: &mut E,
) -> Result<(), Stop>
    requires disks { HaveSizes A.machine.module_size A.machine.store_size
        (⟦<(M, D) as Shown>⟧.shown («module».old, store.old)) }
    requires bench { bench.old ≡ blank_bench }

    // What it leaves of all that is outside, and what the lines come to.
    ensures ends { SessionLeft A.machine result (⟦<(S, K, M, D, E) as ShownOutside>⟧.between
        (source.old, sink.old, «module».old, store.old, entropy.old)
        (source.new, sink.new, «module».new, store.new, entropy.new)) }
    // Where the disks stand for no state, all is as before.
    ensures unsound { (IsSound A.machine (M.medium «module».old) (D.medium store.old) → ⊥)
        → Untouched source.old source.new sink.old sink.new entropy.old entropy.new
        (⟦<(M, D) as Shown>⟧.between («module».old, store.old) («module».new, store.new)) }
    ensures bench { bench.new ≡ blank_bench }
{
    lines.clear();
    match desk.open(bench, module, store) {
        Ok(()) => serve_all(
            desk, lines, reply, bench, source, sink, module, store, entropy,
        ),
        Err(stop) => Err(stop),
    }
}
