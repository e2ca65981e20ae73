//! One line, from the source to its reply at the sink.
ghost use Rattle.std.specs.Prelude.{◌≡◌, ℕ, List, IsTrue, Err, OnOk, IfErr};
ghost use Rattle.std.specs.Io.KnownBytes.{IsAtEnd};
ghost use Rattle.key_cells.specs.Bench.{blank_bench};
ghost use Rattle.device_cells.specs.WhereTold.{WhereTold};
ghost use Rattle.line_service.specs.Lines.{EndsInNewline};
ghost use Rattle.line_service.specs.Reading.{IsReady, Shows};
ghost use Rattle.line_service.specs.Sending.{GotReply};
ghost use Rattle.line_service.specs.Machine.{world};
ghost use Rattle.line_service.specs.Answering.{Stands, Serves};
ghost use Rattle.line_service.specs.Devices.{AreSettled, BothSettled, DamageSpares, DevicesLeft, OutsideLeft, Undamaged};
ghost use Rattle.line_service.specs.Running.{LineLeaves, LineTaken, Unmoved};
ghost use Rattle.line_service.specs.Serving.{IsTheLine};
ghost use Rattle.line_service.specs.Stops.{IsDeskStop};

use crate::desk::Desk;
use crate::devices::{Shown, ShownOutside};
use crate::lines::{LineBuffer, LineFault, Taken, read_line};
use crate::reply::ReplyBuffer;
use crate::sending::send;
use crate::stops::Stop;
use device_cells::{Disk, Entropy, Sink, Source};
use key_cells::Workbench;

/// What serving one line came to.
#[derive(Clone, Copy, Debug, PartialEq, Eq)]
pub enum Served {
    /// A line was answered.
    Replied,
    /// The input is at its end.
    Ended,
}

/// Writes the reply to the line that was taken into the reply buffer.
///
/// The desk has opened the disks, and no call has answered a stop since.
pub fn answer_taken<A: Desk, M: Disk, D: Disk, E: Entropy>(
    desk: &mut A,
    taken: Taken,
    lines: &LineBuffer,
    reply: &mut ReplyBuffer,
    bench: &mut Workbench,
    module: &mut M,
    store: &mut D,
    entropy: &mut E,
) -> Result<(), Stop>
    requires shown { Shows taken lines.now }
    requires disks { AreSettled A.machine.module_size A.machine.store_size
        (⟦<(M, D) as Shown>⟧.shown («module».old, store.old)) }
    requires ready { A.ready desk.old (M.medium «module».old) (D.medium store.old) }
    requires bench { bench.old ≡ blank_bench }

    ensures serves { (s : A.machine.State)
        → Stands A.machine s (A.knows desk.old) (M.medium «module».old) (D.medium store.old)
        → (line : List ℕ) → IsTheLine taken lines.now line
        → Serves A.machine s (A.knows desk.new) line result reply.new
        (world (M.medium «module».old) (D.medium store.old) (E.left entropy.old))
        (world (M.medium «module».new) (D.medium store.new) (E.left entropy.new)) }
    ensures ready { OnOk result (A.ready desk.new (M.medium «module».new) (D.medium store.new)) }
    ensures line { (taken ≡ Taken.End → ⊥) → OnOk result (EndsInNewline reply.new) }
    ensures undamaged { Undamaged A.machine result
        (⟦<(M, D) as Shown>⟧.shown («module».old, store.old)) }
    ensures damaged { DamageSpares result (M.medium «module».old) (M.medium «module».new)
        store.old store.new entropy.old entropy.new }
    ensures left { DevicesLeft result (⟦<(M, D, E) as Shown>⟧.between
        («module».old, store.old, entropy.old) («module».new, store.new, entropy.new)) }
    ensures stops { IfErr result IsDeskStop }
    ensures bench { bench.new ≡ blank_bench }
{
    match taken {
        Taken::Line => desk.answer(lines.line(), reply, bench, module, store, entropy),
        Taken::TooLong => {
            desk.too_long(reply);
            Ok(())
        }
        Taken::End => Ok(()),
    }
}

/// Serves one line: it is taken from the source and answered, and the reply is sent. The reply goes to the sink
/// only after every image of the disks stands for the state that the line leaves.
///
/// The desk has opened the disks, and no call has answered a stop since.
pub fn serve_one<A: Desk, S: Source, K: Sink, M: Disk, D: Disk, E: Entropy>(
    desk: &mut A,
    lines: &mut LineBuffer,
    reply: &mut ReplyBuffer,
    bench: &mut Workbench,
    source: &mut S,
    sink: &mut K,
    module: &mut M,
    store: &mut D,
    entropy: &mut E,
) -> Result<Served, Stop>
    requires at_end { IsTrue lines.old.ended → IsAtEnd (S.left source.old) }
    requires disks { AreSettled A.machine.module_size A.machine.store_size
        (⟦<(M, D) as Shown>⟧.shown («module».old, store.old)) }
    requires ready { A.ready desk.old (M.medium «module».old) (D.medium store.old) }
    requires bench { bench.old ≡ blank_bench }

    // What the line comes to, from the state for which the disks stand.
    ensures serves { (s : A.machine.State)
        → Stands A.machine s (A.knows desk.old) (M.medium «module».old) (D.medium store.old)
        → LineLeaves A.machine s (A.knows desk.new) result
        (⟦<(S, K, M, D, E) as ShownOutside>⟧.between
        (source.old, sink.old, «module».old, store.old, entropy.old)
        (source.new, sink.new, «module».new, store.new, entropy.new)) lines.old lines.new }
    ensures ready { OnOk result (A.ready desk.new (M.medium «module».new) (D.medium store.new)) }

    // When the source is read, how far the input was taken, and which line is shown.
    ensures unread { IsReady lines.old → source.new ≡ source.old }
    ensures taken { LineTaken result (⟦<(S, K, M, D, E) as ShownOutside>⟧.between
        (source.old, sink.old, «module».old, store.old, entropy.old)
        (source.new, sink.new, «module».new, store.new, entropy.new)) lines.old lines.new }

    // Whatever the disks tell, the sink got a reply where the line is said to be answered. Where no reply is sent, the
    // sink is as before; and where no line was answered, so is all else.
    ensures replied { result ≡ Ok Served.Replied
        → WhereTold (K.held sink.old) (K.held sink.new) GotReply }
    ensures unmoved { Unmoved result sink.old sink.new «module».old «module».new
        store.old store.new entropy.old entropy.new desk.old desk.new }

    // What is left of each device, and why it stopped.
    ensures left { OutsideLeft result (⟦<(S, K, M, D, E) as ShownOutside>⟧.between
        (source.old, sink.old, «module».old, store.old, entropy.old)
        (source.new, sink.new, «module».new, store.new, entropy.new)) }
    ensures undamaged { Undamaged A.machine result
        (⟦<(M, D) as Shown>⟧.shown («module».old, store.old)) }
    ensures damaged { DamageSpares result (M.medium «module».old) (M.medium «module».new)
        store.old store.new entropy.old entropy.new }
    ensures cut { result ≡ Err Stop.WriteFault → BothSettled
        (⟦<(M, D) as Shown>⟧.shown («module».new, store.new)) }
    ensures bench { bench.new ≡ blank_bench }
{
    match read_line(source, lines) {
        Ok(taken) => match taken {
            Taken::End => Ok(Served::Ended),
            _ => match answer_taken(desk, taken, lines, reply, bench, module, store, entropy) {
                Ok(()) => match send(sink, reply.bytes()) {
                    Ok(()) => Ok(Served::Replied),
                    Err(_) => Err(Stop::WriteFault),
                },
                Err(stop) => Err(stop),
            },
        },
        Err(LineFault::ReadFault) => Err(Stop::ReadFault),
        Err(LineFault::InputLimit) => Err(Stop::InputLimit),
    }
}
