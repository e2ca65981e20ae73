//! The top call of an audited run.
ghost use Rattle.std.specs.Prelude.{◌≡◌, ◌↔◌, ◌∷◌, ℕ, [], List, codes};
ghost use Rattle.key_cells.specs.Bench.{blank_bench};
ghost use Rattle.device_cells.specs.Medium.{Keeps};
ghost use Rattle.audited_service.specs.LineEntries.{entry_of};
ghost use Rattle.audit_trail.specs.declared.entries.Entry.{Entry};
ghost use Rattle.audited_service.specs.Auditing.{AuditLeft, IsUnsoundTrail};
ghost use Rattle.audited_service.specs.Growing.{TrailGrows};
ghost use Rattle.audited_service.specs.Noting.{Noted, NotesLines, noted, noting};
ghost use Rattle.line_service.specs.Answering.{IsSound};
ghost use Rattle.line_service.specs.Devices.{HaveSizes};
ghost use Rattle.line_service.specs.Running.{Untouched};
ghost use Rattle.line_service.specs.Serving.{Runs};
ghost use Rattle.cca_machine.specs.State.{State, module_size, store_size};
ghost use Rattle.cca_tool.specs.Auditing.{audit_status_of_lem, AuditEnded, AuditCallsNone, AllUncalled, HaveNoted};
ghost use Rattle.cca_machine.specs.Coprocessor.{cca};

use crate::session::Session;
use audit_trail::{TRAIL_LEN, Trail, TrailFault};
use audited_service::{LineScribe, serve_audited};
use command_words::Words;
use device_cells::{Disk, Entropy, Sink, Source};
use key_cells::Workbench;
use line_service::{Shown, ShownOutside, Stop};
use std::alloc::Global;
use store_unload::{Status, status_of};

/// How an audited run ended, or a listing of its trail.
#[derive(Clone, Copy, Debug, PartialEq, Eq)]
pub enum AuditStatus {
    /// As a run ends.
    Run(Status),
    /// The trail failed.
    TrailFault,
    /// A cell of the trail is damaged.
    TrailDamaged(u16),
    /// The trail has no number left for the record of a line.
    TrailFull,
}

/// Serves the requests of the source, as `run` does, and records each line on the trail before its reply is sent.
///
/// This is for the one word `audit`. All memory is taken before a device is called, and none after. The bench is wiped
/// first, since it may hold anything. The module is judged first, then the store, then the trail.
pub fn run_audited<S: Source, K: Sink, M: Disk, D: Disk, E: Entropy, T: Disk>(
    alloc: Global,
    words: &Words,
    bench: &mut Workbench,
    source: &mut S,
    sink: &mut K,
    module: &mut M,
    store: &mut D,
    entropy: &mut E,
    trail: &mut T,
) -> AuditStatus
    requires disks { HaveSizes module_size store_size
        (⟦<(M, D) as Shown>⟧.shown («module».old, store.old)) }
    requires trail { (T.medium trail.old).size ≡ TRAIL_LEN }

    ensures usage { (result ≡ AuditStatus.Run Status.Usage)
        ↔ (words.now ≡ codes "audit" ∷ [] → ⊥) }

    // Where no device was called.
    ensures uncalled { AuditCallsNone result
        → AllUncalled source.old source.new sink.old sink.new «module».old «module».new
        store.old store.new entropy.old entropy.new trail.old trail.new }

    // What it leaves of all that is outside, and what the lines come to, from the state for which the disks stand and the
    // entries for which the trail stands: what the sink got, what disks and trail stand for, each of them at every moment,
    // and that every line is recorded and answered where no device fails.
    ensures ends { AuditEnded result (λ outcome. AuditLeft cca entry_of outcome
        (⟦<(S, K, M, D, E) as ShownOutside>⟧.between
        (source.old, sink.old, «module».old, store.old, entropy.old)
        (source.new, sink.new, «module».new, store.new, entropy.new))
        (T.medium trail.old) (T.medium trail.new) (T.faults trail.old) (T.faults trail.new)) }

    // Where the disks stand for no state, or the trail for no entries, all is as before.
    ensures unsound { (IsSound cca (M.medium «module».old) (D.medium store.old) → ⊥)
        → Untouched source.old source.new sink.old sink.new entropy.old entropy.new
        (⟦<(M, D) as Shown>⟧.between («module».old, store.old) («module».new, store.new))
        × (trail.new ≡ trail.old) }
    ensures unsound_trail { IsUnsoundTrail (T.medium trail.old)
        → Untouched source.old source.new sink.old sink.new entropy.old entropy.new
        (⟦<(M, D) as Shown>⟧.between («module».old, store.old) («module».new, store.new))
        × Keeps (T.medium trail.old) (T.medium trail.new) }

    // Whatever the disks hold, entries are only added to the trail.
    ensures trail_grows { TrailGrows (T.medium trail.old) (T.medium trail.new) }

    // No key is left in the bench.
    ensures bench { bench.new ≡ blank_bench }
{
    bench.wipe();
    if !words.are_just("audit") {
        return AuditStatus::Run(Status::Usage);
    }
    match Session::new(alloc) {
        Ok(mut session) => audit_status_of(serve_audited(
            &mut session.desk,
            &LineScribe,
            &mut session.lines,
            &mut session.reply,
            bench,
            source,
            sink,
            module,
            store,
            entropy,
            &mut Trail::new(),
            trail,
        )),
        Err(_) => AuditStatus::Run(Status::NoMemory),
    }
}

fn audit_status_of(outcome: Result<Result<(), Stop>, TrailFault>) -> AuditStatus
    ensures { result ≡ audit_status_of_lem outcome }
{
    match outcome {
        Ok(run) => AuditStatus::Run(status_of(run)),
        Err(TrailFault::DiskFault) => AuditStatus::TrailFault,
        Err(TrailFault::Damaged(cell)) => AuditStatus::TrailDamaged(cell),
        Err(TrailFault::Full) => AuditStatus::TrailFull,
    }
}

/// An audited run goes through the states and replies of the coprocessor's own session, and takes the same random bytes. The
/// entries are those that were there, and behind them one for each line, in order: that of the line and of its own reply.
/// So it is wherever a run ends, of the lines that lead there.
pub fn an_audited_run_notes_each_line()
    ensures session { (s : State) (es : List Entry) (random : List ℕ) (lines : List (List ℕ))
        → NotesLines cca entry_of s es random lines }
    ensures led { (s : State) (es : List Entry) (lines : List (List ℕ)) (drawn : List ℕ)
        (t : Noted State) (sent : List ℕ)
        → Runs (noting cca entry_of) (noted s es) lines drawn t sent
        → HaveNoted s es lines drawn t sent }
{}
