//! A listing of the records that a trail holds.
ghost use Rattle.std.specs.Prelude.{◌≡◌, ◌≢◌, ◌⊎◌, ◌%◌, ℕ, List, [], ◌++◌, Err, IsOk, OnOk, OnErr, IfErr};
ghost use Rattle.device_cells.specs.Faults.{Rose, HasCause};
ghost use Rattle.device_cells.specs.Medium.{Told, Keeps};
ghost use Rattle.device_cells.specs.WhereTold.{WhereTold};
ghost use Rattle.line_service.specs.Devices.{TellsFault};
ghost use Rattle.line_service.specs.Sending.{Grows, GotPart};
ghost use Rattle.audit_trail.specs.Changes.{TrailLeft};
ghost use Rattle.audit_trail.specs.Entries.{entry_at};
ghost use Rattle.audit_trail.specs.TrailStands.{trail_size, IsTrail, StandsForTrail, IsHeld};
ghost use Rattle.audit_trail.specs.declared.entries.Entry.{Entry as AnyEntry};
ghost use Rattle.audit_trail.specs.declared.faults.TrailFault.{TrailFault as AnyFault};
ghost use Rattle.audited_service.specs.Lines.{record_line};
ghost use Rattle.audited_service.specs.Listing.{Listed, ListsAsRead, TellsDamage};
ghost use Rattle.audited_service.specs.Sending.{SendsLine, SendsSome, IsFault};

use crate::lines::write_line;
use audit_trail::{CELLS, Entry, Trail, TrailFault, open_trail};
use device_cells::{Disk, Failed, Sink};
use line_service::{ReplyBuffer, send};
use thiserror::Error;

// How many records a trail holds.
const HELD: u64 = CELLS as u64;

// The entry over which a record is read.
const NO_ENTRY: Entry = Entry {
    rule: 0,
    role: [0; 8],
    verb: [0; 10],
    label: [0; 64],
    label_length: 0,
};

/// Why a listing ended before the last record.
#[derive(Clone, Copy, Debug, PartialEq, Eq, Error)]
pub enum ListFault {
    /// The sink failed.
    #[error("the sink failed")]
    WriteFault,
    /// The trail failed, or is damaged.
    #[error("the trail failed or is damaged")]
    Trail(TrailFault),
}

/// Opens the trail, and sends a line for each record that it holds, in ascending order: the number in decimal
/// digits, the rule in two digits, the role, the verb and the label, with single spaces and `-` for what is empty.
///
/// The whole trail is judged before the first line is sent. Nothing is written to the trail, and no memory is taken.
/// The line buffer is empty afterwards. Opening reads each cell once or twice, and each record is read once more. Each
/// line is one write, unless the sink takes it in parts.
pub fn list_trail<K: Sink, T: Disk>(
    line: &mut ReplyBuffer,
    sink: &mut K,
    trail: &mut T,
) -> Result<(), ListFault>
    requires { (T.medium trail.old).size ≡ trail_size }

    // What the sink got, where the trail stands for some entries. Bytes are only added, whatever the trail tells.
    ensures lines { Told (T.medium trail.old) (λ image. (es : List AnyEntry) → IsTrail image es
        → Listed es result (K.held sink.old) (K.held sink.new)) }
    ensures grows { WhereTold (K.held sink.old) (K.held sink.new) Grows }
    // By what was read of each record, whatever the trail tells of its bytes.
    ensures own { (next : ℕ) × ListsAsRead next result (K.held sink.old) (K.held sink.new) }
    // Where neither device fails, all is listed.
    ensures complete { (Rose (K.faults sink.old) (K.faults sink.new) → ⊥)
        → (Rose (T.faults trail.old) (T.faults trail.new) → ⊥)
        → Told (T.medium trail.old) (λ image. (es : List AnyEntry) → IsTrail image es
        → IsOk result) }

    ensures damage { TellsDamage result sink.old sink.new
        (T.medium trail.old) (T.faults trail.old) (T.faults trail.new) }
    ensures never_full { result ≢ Err (ListFault.Trail TrailFault.Full) }

    // What is left of each device, and why it ended.
    ensures keeps { Keeps (T.medium trail.old) (T.medium trail.new) }
    ensures trail_left { TrailLeft (T.medium trail.old) (T.medium trail.new)
        (T.faults trail.old) (T.faults trail.new)
        (IsOk result ⊎ (result ≡ Err ListFault.WriteFault))
        (result ≡ Err (ListFault.Trail TrailFault.DiskFault)) }
    ensures sink_left { TellsFault (K.faults sink.old) (K.faults sink.new)
        (result ≡ Err ListFault.WriteFault) }
    ensures emptied { line.new ≡ [] }
{
    line.clear();
    let mut held = Trail::new();
    match open_trail(trail, &mut held) {
        Ok(()) => send_records(&held, line, sink, trail),
        Err(fault) => Err(ListFault::Trail(fault)),
    }
}

// Sends a line for each record that the trail holds.
fn send_records<K: Sink, T: Disk>(
    held: &Trail,
    line: &mut ReplyBuffer,
    sink: &mut K,
    trail: &mut T,
) -> Result<(), ListFault>
    requires size { (T.medium trail.old).size ≡ trail_size }
    requires stands { Told (T.medium trail.old) (λ image. StandsForTrail image held.now) }
    requires empty { line.old ≡ [] }

    ensures lines { Told (T.medium trail.old) (λ image. (es : List AnyEntry) → IsTrail image es
        → Listed es result (K.held sink.old) (K.held sink.new)) }
    ensures own { ListsAsRead held.now result (K.held sink.old) (K.held sink.new) }
    ensures grows { WhereTold (K.held sink.old) (K.held sink.new) Grows }
    ensures undamaged { (cell : ℕ) → result ≡ Err (ListFault.Trail (TrailFault.Damaged cell))
        → Told (T.medium trail.old) (λ image. ⊥) }
    ensures faults { IfErr result IsFault }
    ensures keeps { Keeps (T.medium trail.old) (T.medium trail.new) }
    ensures trail_left { TellsFault (T.faults trail.old) (T.faults trail.new)
        (result ≡ Err (ListFault.Trail TrailFault.DiskFault)) }
    ensures sink_left { TellsFault (K.faults sink.old) (K.faults sink.new)
        (result ≡ Err ListFault.WriteFault) }
    ensures emptied { line.new ≡ [] }
{
    let next = held.next_number();
    let first = next.saturating_sub(HELD);
    for number in first..next {
        match send_record(held, number, line, sink, trail) {
            Ok(()) => {}
            Err(fault) => return Err(fault),
        }
    }
    Ok(())
}

// Reads a record that the trail holds, and sends its line.
fn send_record<K: Sink, T: Disk>(
    held: &Trail,
    number: u64,
    line: &mut ReplyBuffer,
    sink: &mut K,
    trail: &mut T,
) -> Result<(), ListFault>
    requires size { (T.medium trail.old).size ≡ trail_size }
    requires stands { Told (T.medium trail.old) (λ image. StandsForTrail image held.now) }
    requires held { IsHeld number held.now }
    requires empty { line.old ≡ [] }

    ensures line { Told (T.medium trail.old) (λ image. (es : List AnyEntry) → IsTrail image es
        → SendsLine (record_line number (entry_at es number)) result
        (K.held sink.old) (K.held sink.new)) }
    ensures own { SendsSome number result (K.held sink.old) (K.held sink.new) }
    ensures grows { WhereTold (K.held sink.old) (K.held sink.new) Grows }
    ensures unsent { (fault : AnyFault) → result ≡ Err (ListFault.Trail fault)
        → sink.new ≡ sink.old }
    ensures named { (cell : ℕ) → result ≡ Err (ListFault.Trail (TrailFault.Damaged cell))
        → cell ≡ number % 4096 }
    ensures undamaged { (cell : ℕ) → result ≡ Err (ListFault.Trail (TrailFault.Damaged cell))
        → Told (T.medium trail.old) (λ image. ⊥) }
    ensures faults { IfErr result IsFault }
    ensures keeps { Keeps (T.medium trail.old) (T.medium trail.new) }
    ensures trail_left { TellsFault (T.faults trail.old) (T.faults trail.new)
        (result ≡ Err (ListFault.Trail TrailFault.DiskFault)) }
    ensures sink_left { TellsFault (K.faults sink.old) (K.faults sink.new)
        (result ≡ Err ListFault.WriteFault) }
    ensures emptied { line.new ≡ [] }
{
    let mut entry = NO_ENTRY;
    match held.read_entry(trail, number, &mut entry) {
        Ok(_) => match send_line(line, number, &entry, sink) {
            Ok(()) => Ok(()),
            Err(_) => Err(ListFault::WriteFault),
        },
        Err(fault) => Err(ListFault::Trail(fault)),
    }
}

// Sends the line of a record: one write, unless the sink takes it in parts.
fn send_line<K: Sink>(
    line: &mut ReplyBuffer,
    number: u64,
    entry: &Entry,
    sink: &mut K,
) -> Result<(), Failed>
    requires { line.old ≡ [] }
    ensures all { OnOk result (WhereTold (K.held sink.old) (K.held sink.new)
        (λ before now. now ≡ before ++ record_line number entry.now)) }
    ensures part { OnErr result (WhereTold (K.held sink.old) (K.held sink.new)
        (λ before now. GotPart before now (record_line number entry.now))) }
    ensures cause { HasCause (K.faults sink.old) (K.faults sink.new) result }
    ensures emptied { line.new ≡ [] }
{
    write_line(line, number, entry);
    let sent = send(sink, line.bytes());
    line.clear();
    sent
}
