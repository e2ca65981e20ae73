//! One line, from the source to its record on the trail, and then its reply at the sink.
ghost use Rattle.std.specs.Prelude.{◌≡◌, IsTrue, Ok, Err, OnOk};
ghost use Rattle.std.specs.Io.KnownBytes.{IsAtEnd};
ghost use Rattle.key_cells.specs.Bench.{blank_bench};
ghost use Rattle.device_cells.specs.Medium.{Told};
ghost use Rattle.audit_trail.specs.Entries.{IsEntry};
ghost use Rattle.audit_trail.specs.TrailStands.{trail_size, StandsForTrail};
ghost use Rattle.line_service.specs.Answering.{Stands};
ghost use Rattle.line_service.specs.Devices.{AreSettled};
ghost use Rattle.line_service.specs.Running.{Unmoved};
ghost use Rattle.audited_service.specs.Noting.{Noted, noting};
ghost use Rattle.audited_service.specs.EachLine.{Agrees, AppendFails, EntrySent, IsSettledTrail, LineAudited, LineKept, line_part};

use crate::scribe::{Scribe, entry_taken};
use audit_trail::{Entry, Trail, TrailFault};
use device_cells::{Disk, Entropy, Sink, Source};
use key_cells::Workbench;
use line_service::{
    Desk, LineBuffer, LineFault, ReplyBuffer, Served, Shown, ShownOutside, Stop, Taken,
    answer_taken, read_line, send,
};

// Appends the entry of a line that was answered, and sends the reply then. Where the trail fails no byte is sent.
fn append_and_send<K: Sink, T: Disk>(
    entry: &Entry,
    reply: &[u8],
    sink: &mut K,
    held: &mut Trail,
    trail: &mut T,
) -> Result<Result<Served, Stop>, TrailFault>
    requires trail { IsSettledTrail trail_size (T.medium trail.old) }
    requires held { Told (T.medium trail.old) (λ image. StandsForTrail image held.old) }
    requires entry { IsEntry entry.now }

    ensures sent { EntrySent held.old entry.now reply.now result
        (T.medium trail.old) (T.medium trail.new) (T.faults trail.old) (T.faults trail.new)
        (K.held sink.old) (K.held sink.new) (K.faults sink.old) (K.faults sink.new) }
    ensures held { OnOk result
        (Told (T.medium trail.new) (λ image. StandsForTrail image held.new)) }
    ensures failed { AppendFails result held.old trail.old trail.new sink.old sink.new }
{
    match held.append(trail, entry) {
        Ok(()) => match send(sink, reply) {
            Ok(()) => Ok(Ok(Served::Replied)),
            Err(_) => Ok(Err(Stop::WriteFault)),
        },
        Err(fault) => Err(fault),
    }
}

// Serves one line: it is taken from the source and answered, recorded on the trail, and the reply is sent. The reply
// goes to the sink only after every image of the disks stands for the state that the line leaves, and every image of
// the trail has the line's record. The outer error is the trail's.
//
// Desk and trail were opened, and no call has answered a stop or a fault since.
pub(crate) fn audit_one<
    A: Desk,
    W: Scribe,
    S: Source,
    K: Sink,
    M: Disk,
    D: Disk,
    E: Entropy,
    T: Disk,
>(
    desk: &mut A,
    scribe: &W,
    lines: &mut LineBuffer,
    reply: &mut ReplyBuffer,
    bench: &mut Workbench,
    source: &mut S,
    sink: &mut K,
    module: &mut M,
    store: &mut D,
    entropy: &mut E,
    held: &mut Trail,
    trail: &mut T,
) -> Result<Result<Served, Stop>, TrailFault>
    requires at_end { IsTrue lines.old.ended → IsAtEnd (S.left source.old) }
    requires disks { AreSettled A.machine.module_size A.machine.store_size
        (⟦<(M, D) as Shown>⟧.shown («module».old, store.old)) }
    requires trail { IsSettledTrail trail_size (T.medium trail.old) }
    requires ready { A.ready desk.old (M.medium «module».old) (D.medium store.old) }
    requires held { Told (T.medium trail.old) (λ image. StandsForTrail image held.old) }
    requires bench { bench.old ≡ blank_bench }

    // What the line comes to, from the state for which the disks stand and the entries for which the trail stands.
    ensures serves { (s : Noted A.machine.State)
        → Stands (noting A.machine W.entry_of) s (Agrees (A.knows desk.old) (T.medium trail.old))
        (M.medium «module».old) (D.medium store.old)
        → LineAudited A.machine W.entry_of s (Agrees (A.knows desk.new) (T.medium trail.new)) result
        (⟦<(S, K, M, D, E) as ShownOutside>⟧.between
        (source.old, sink.old, «module».old, store.old, entropy.old)
        (source.new, sink.new, «module».new, store.new, entropy.new))
        (T.medium trail.old) (T.medium trail.new) lines.old lines.new }

    // How far the input was taken, what is left of each device and why it stopped; and what memory knows then.
    ensures kept { LineKept A.machine
        (A.ready desk.new (M.medium «module».new) (D.medium store.new))
        (Told (T.medium trail.new) (λ image. StandsForTrail image held.new)) result
        (⟦<(S, K, M, D, E) as ShownOutside>⟧.between
        (source.old, sink.old, «module».old, store.old, entropy.old)
        (source.new, sink.new, «module».new, store.new, entropy.new))
        (T.medium trail.old) (T.medium trail.new) (T.faults trail.old) (T.faults trail.new)
        lines.old lines.new }

    // Where no reply is sent, the sink is as before; where no line was answered, so is all else. Where the trail fails,
    // no reply is sent.
    ensures unmoved { Unmoved (line_part result) sink.old sink.new «module».old «module».new
        store.old store.new entropy.old entropy.new desk.old desk.new }
    ensures untrailed { (line_part result ≡ Ok Served.Replied → ⊥)
        → (line_part result ≡ Err Stop.WriteFault → ⊥) → trail.new ≡ trail.old }
    ensures failed { AppendFails result held.old trail.old trail.new sink.old sink.new }
    ensures bench { bench.new ≡ blank_bench }
{
    match read_line(source, lines) {
        Ok(taken) => match taken {
            Taken::End => Ok(Ok(Served::Ended)),
            _ => match answer_taken(desk, taken, lines, reply, bench, module, store, entropy) {
                Ok(()) => {
                    let bytes = reply.bytes();
                    let entry = entry_taken(scribe, taken, lines, bytes);
                    append_and_send(&entry, bytes, sink, held, trail)
                }
                Err(stop) => Ok(Err(stop)),
            },
        },
        Err(LineFault::ReadFault) => Ok(Err(Stop::ReadFault)),
        Err(LineFault::InputLimit) => Ok(Err(Stop::InputLimit)),
    }
}
