//! The top call that lists the trail.
ghost use Rattle.std.specs.Prelude.{◌≡◌, ◌⊎◌, ◌↔◌, ◌∷◌, [], ℕ, List, Err, IfErr, codes};
ghost use Rattle.device_cells.specs.Faults.{Rose};
ghost use Rattle.device_cells.specs.Medium.{Told, Keeps};
ghost use Rattle.device_cells.specs.WhereTold.{WhereTold};
ghost use Rattle.audit_trail.specs.Changes.{TrailLeft};
ghost use Rattle.audit_trail.specs.TrailStands.{IsTrail};
ghost use Rattle.audit_trail.specs.declared.entries.Entry.{Entry};
ghost use Rattle.line_service.specs.Devices.{TellsFault};
ghost use Rattle.line_service.specs.Sending.{Grows};
ghost use Rattle.audited_service.specs.Listing.{Listed, ListsAsRead, TellsDamage};
ghost use Rattle.cca_tool.specs.Auditing.{AuditCallsNone};
ghost use Rattle.store_unload.specs.Statuses.{CallsNone};
ghost use Rattle.cca_tool.specs.Showing.{listing_status, ListingEnded, IsListingStatus, ListingUncalled};

use crate::auditing::AuditStatus;
use audit_trail::{TRAIL_LEN, TrailFault};
use audited_service::{ListFault, list_trail};
use command_words::Words;
use device_cells::{Disk, Sink};
use line_service::ReplyBuffer;
use std::alloc::Global;
use store_unload::Status;

/// Sends a line for each record that the trail holds, in ascending order: the number, the rule, the role, the verb and
/// the label.
///
/// This is for the one word `trail`. All memory is taken before a device is called, and none after. The whole trail is
/// judged before the first line is sent, and nothing is written to it.
pub fn show_trail<K: Sink, T: Disk>(
    alloc: Global,
    words: &Words,
    sink: &mut K,
    trail: &mut T,
) -> AuditStatus
    requires { (T.medium trail.old).size ≡ TRAIL_LEN }

    ensures usage { (result ≡ AuditStatus.Run Status.Usage)
        ↔ (words.now ≡ codes "trail" ∷ [] → ⊥) }
    ensures statuses { IsListingStatus result }
    ensures uncalled { AuditCallsNone result
        → ListingUncalled sink.old sink.new trail.old trail.new }

    // What the sink got, where the trail stands for some entries. Bytes are only added, whatever the trail tells.
    ensures lines { Told (T.medium trail.old) (λ image. (es : List Entry) → IsTrail image es
        → ListingEnded result (λ outcome. Listed es outcome (K.held sink.old) (K.held sink.new))) }
    ensures grows { WhereTold (K.held sink.old) (K.held sink.new) Grows }
    // By what was read of each record, whatever the trail tells of its bytes.
    ensures own { ListingEnded result (λ outcome.
        (next : ℕ) × ListsAsRead next outcome (K.held sink.old) (K.held sink.new)) }
    // Where neither device fails, all is listed.
    ensures complete { words.now ≡ codes "trail" ∷ []
        → (Rose (K.faults sink.old) (K.faults sink.new) → ⊥)
        → (Rose (T.faults trail.old) (T.faults trail.new) → ⊥)
        → Told (T.medium trail.old) (λ image. (es : List Entry) → IsTrail image es
        → (result ≡ AuditStatus.Run Status.Done) ⊎ (result ≡ AuditStatus.Run Status.NoMemory)) }

    ensures damage { ListingEnded result (λ outcome. TellsDamage outcome sink.old sink.new
        (T.medium trail.old) (T.faults trail.old) (T.faults trail.new)) }

    // What is left of each device, and why it ended.
    ensures keeps { Keeps (T.medium trail.old) (T.medium trail.new) }
    ensures trail_left { TrailLeft (T.medium trail.old) (T.medium trail.new)
        (T.faults trail.old) (T.faults trail.new)
        ((result ≡ AuditStatus.Run Status.Done) ⊎ (result ≡ AuditStatus.Run Status.WriteFault))
        (result ≡ AuditStatus.TrailFault) }
    ensures sink_left { TellsFault (K.faults sink.old) (K.faults sink.new)
        (result ≡ AuditStatus.Run Status.WriteFault) }
{
    match line_for(alloc, words) {
        Ok(mut line) => status_of_listing(list_trail(&mut line, sink, trail)),
        Err(status) => AuditStatus::Run(status),
    }
}

// The line of a listing, where the words ask for one.
fn line_for(alloc: Global, words: &Words) -> Result<ReplyBuffer, Status>
    ensures usage { (result ≡ Err Status.Usage) ↔ (words.now ≡ codes "trail" ∷ [] → ⊥) }
    ensures uncalled { IfErr result CallsNone }
{
    if !words.are_just("trail") {
        return Err(Status::Usage);
    }
    match ReplyBuffer::new(alloc) {
        Ok(line) => Ok(line),
        Err(_) => Err(Status::NoMemory),
    }
}

fn status_of_listing(outcome: Result<(), ListFault>) -> AuditStatus
    ensures { result ≡ listing_status outcome }
{
    match outcome {
        Ok(()) => AuditStatus::Run(Status::Done),
        Err(ListFault::WriteFault) => AuditStatus::Run(Status::WriteFault),
        Err(ListFault::Trail(TrailFault::DiskFault)) => AuditStatus::TrailFault,
        Err(ListFault::Trail(TrailFault::Damaged(cell))) => AuditStatus::TrailDamaged(cell),
        Err(ListFault::Trail(TrailFault::Full)) => AuditStatus::TrailFull,
    }
}
