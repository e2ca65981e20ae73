//! The record of a line that is handed in.
ghost use Rattle.std.specs.Prelude.{◌≡◌, ◌⊎◌, ◌^◌, ◌↔◌, Err, OnOk, IfErr, IsOk};
ghost use Rattle.device_cells.specs.Medium.{Told};
ghost use Rattle.audit_trail.specs.Changes.{AppendsEntry, Remembers, TrailLeft};
ghost use Rattle.audit_trail.specs.Entries.{IsEntry};
ghost use Rattle.audit_trail.specs.TrailStands.{trail_size, StandsForTrail};
ghost use Rattle.audited_service.specs.EachLine.{IsSettledTrail};

use crate::scribe::Scribe;
use audit_trail::{Entry, Trail, TrailFault};
use device_cells::Disk;
use line_service::LINE_LIMIT;

/// Appends the entry of a line, of any length, and of its reply to the trail.
///
/// The trail was opened, and no call has answered a fault since.
pub fn record_line<W: Scribe, T: Disk>(
    scribe: &W,
    line: &[u8],
    reply: &[u8],
    held: &mut Trail,
    trail: &mut T,
) -> Result<(), TrailFault>
    requires trail { IsSettledTrail trail_size (T.medium trail.old) }
    requires held { Told (T.medium trail.old) (λ image. StandsForTrail image held.old) }

    ensures appended { AppendsEntry held.old (W.entry_of line.now reply.now)
        (T.medium trail.old) (T.medium trail.new) result }
    ensures memory { Remembers held.old held.new result }
    ensures held { OnOk result
        (Told (T.medium trail.new) (λ image. StandsForTrail image held.new)) }
    ensures full { (result ≡ Err TrailFault.Full) ↔ (held.old ≡ 2 ^ 63) }
    ensures uncalled { result ≡ Err TrailFault.Full → trail.new ≡ trail.old }
    ensures faults { IfErr result (λ fault.
        (fault ≡ TrailFault.DiskFault) ⊎ (fault ≡ TrailFault.Full)) }
    ensures left { TrailLeft (T.medium trail.old) (T.medium trail.new)
        (T.faults trail.old) (T.faults trail.new)
        (IsOk result) (result ≡ Err TrailFault.DiskFault) }
{
    let entry = entry_handed(scribe, line, reply);
    held.append(trail, &entry)
}

// The entry of a line of any length.
fn entry_handed<W: Scribe>(scribe: &W, line: &[u8], reply: &[u8]) -> Entry
    ensures entry { result ≡ W.entry_of line.now reply.now }
    ensures whole { IsEntry result }
{
    if line.len() > LINE_LIMIT {
        return scribe.too_long(reply);
    }
    scribe.entry(line, reply)
}
