//! Line after line, each recorded, to the end of the input.
ghost use Rattle.std.specs.Prelude.{◌≡◌};
ghost use Rattle.key_cells.specs.Bench.{blank_bench};
ghost use Rattle.device_cells.specs.Medium.{Told, Keeps};
ghost use Rattle.line_service.specs.Reading.{blank};
ghost use Rattle.audit_trail.specs.TrailStands.{trail_size, StandsForTrail};
ghost use Rattle.line_service.specs.Answering.{IsSound};
ghost use Rattle.line_service.specs.Devices.{AreSettled, HaveSizes};
ghost use Rattle.line_service.specs.Running.{Untouched};
ghost use Rattle.audited_service.specs.Auditing.{AuditLeft, IsUnsoundTrail};
ghost use Rattle.audited_service.specs.EachLine.{IsSettledTrail, RecordsLeft};
ghost use Rattle.audited_service.specs.Growing.{TrailGrows};

use crate::auditing::audit_one;
use crate::scribe::Scribe;
use audit_trail::{Trail, TrailFault, open_trail};
use device_cells::{Disk, Entropy, Sink, Source};
use key_cells::Workbench;
use line_service::{Desk, LineBuffer, ReplyBuffer, Served, Shown, ShownOutside, Stop};

// Serves line after line, each recorded, to the end of the input.
fn audit_all<A: Desk, W: Scribe, S: Source, K: Sink, M: Disk, D: Disk, E: Entropy, T: Disk>(
    desk: &mut A,
    scribe: &W,
    lines: &mut LineBuffer,
    reply: &mut ReplyBuffer,
    bench: &mut Workbench,
    source: &mut S,
    sink: &mut K,
    module: &mut M,
    store: &mut D,
    entropy: &mut E,
    held: &mut Trail,
    trail: &mut T,
) -> Result<Result<(), Stop>, TrailFault>
    requires fresh { lines.old ≡ blank }
    requires disks { AreSettled A.machine.module_size A.machine.store_size
        (⟦<(M, D) as Shown>⟧.shown («module».old, store.old)) }
    requires trail { IsSettledTrail trail_size (T.medium trail.old) }
    requires ready { A.ready desk.old (M.medium «module».old) (D.medium store.old) }
    requires held { Told (T.medium trail.old) (λ image. StandsForTrail image held.old) }
    requires bench { bench.old ≡ blank_bench }

    ensures ends { RecordsLeft A.machine W.entry_of (A.knows desk.old) result
        (⟦<(S, K, M, D, E) as ShownOutside>⟧.between
        (source.old, sink.old, «module».old, store.old, entropy.old)
        (source.new, sink.new, «module».new, store.new, entropy.new))
        (T.medium trail.old) (T.medium trail.new) (T.faults trail.old) (T.faults trail.new) }
    ensures bench { bench.new ≡ blank_bench }
{
    'each_line: loop {
        match audit_one(
            desk, scribe, lines, reply, bench, source, sink, module, store, entropy, held, trail,
        ) {
            Ok(served) => match served {
                Ok(reached) => match reached {
                    Served::Replied => {}
                    Served::Ended => return Ok(Ok(())),
                },
                Err(stop) => return Ok(Err(stop)),
            },
            Err(fault) => return Err(fault),
        }
    }
}

/// Opens the disks and then the trail, and serves line after line to the end of the input. Each line is recorded on the
/// trail before its reply is sent. It takes no memory. Bytes that the line buffer holds are lost. The outer error is the
/// trail's: `Full` where no number is left for the record of a line, `Damaged` only at opening.
pub fn serve_audited<A: Desk, W: Scribe, S: Source, K: Sink, M: Disk, D: Disk, E: Entropy, T: Disk>(
    desk: &mut A,
    scribe: &W,
    lines: &mut LineBuffer,
    reply: &mut ReplyBuffer,
    bench: &mut Workbench,
    source: &mut S,
    sink: &mut K,
    module: &mut M,
    store: &mut D,
    entropy: &mut E,
    held: &mut Trail,
    trail: &mut T,
) -> Result<Result<(), Stop>, TrailFault>
    requires disks { HaveSizes A.machine.module_size A.machine.store_size
        (⟦<(M, D) as Shown>⟧.shown («module».old, store.old)) }
    requires trail { (T.medium trail.old).size ≡ trail_size }
    requires bench { bench.old ≡ blank_bench }

    // What it leaves of all that is outside, what the lines come to, and what the trail holds.
    ensures ends { AuditLeft A.machine W.entry_of result
        (⟦<(S, K, M, D, E) as ShownOutside>⟧.between
        (source.old, sink.old, «module».old, store.old, entropy.old)
        (source.new, sink.new, «module».new, store.new, entropy.new))
        (T.medium trail.old) (T.medium trail.new) (T.faults trail.old) (T.faults trail.new) }
    // Where the disks stand for no state, or the trail for no entries, all is as before.
    ensures unsound { (IsSound A.machine (M.medium «module».old) (D.medium store.old) → ⊥)
        → Untouched source.old source.new sink.old sink.new entropy.old entropy.new
        (⟦<(M, D) as Shown>⟧.between («module».old, store.old) («module».new, store.new))
        × (trail.new ≡ trail.old) }
    ensures unsound_trail { IsUnsoundTrail (T.medium trail.old)
        → Untouched source.old source.new sink.old sink.new entropy.old entropy.new
        (⟦<(M, D) as Shown>⟧.between («module».old, store.old) («module».new, store.new))
        × Keeps (T.medium trail.old) (T.medium trail.new) }
    // Whatever the disks hold, entries are only added to the trail.
    ensures trail_grows { TrailGrows (T.medium trail.old) (T.medium trail.new) }
    ensures bench { bench.new ≡ blank_bench }
{
    lines.clear();
    match desk.open(bench, module, store) {
        Ok(()) => match open_trail(trail, held) {
            Ok(()) => audit_all(
                desk, scribe, lines, reply, bench, source, sink, module, store, entropy, held,
                trail,
            ),
            Err(fault) => Err(fault),
        },
        Err(stop) => Ok(Err(stop)),
    }
}
