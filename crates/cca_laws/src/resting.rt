//! A sealed store after a run.

ghost use Rattle.std.specs.Prelude.{◌≡◌, ℕ, List, ◌++◌, Some, Result};
ghost use Rattle.device_cells.specs.Medium.{Told};
ghost use Rattle.line_service.specs.Lines.{lines};
ghost use Rattle.audited_service.specs.LineEntries.{entry_of};
ghost use Rattle.audit_trail.specs.declared.entries.Entry.{Entry};
ghost use Rattle.audit_trail.specs.declared.faults.TrailFault.{TrailFault};
ghost use Rattle.audited_service.specs.Answers.{run_part};
ghost use Rattle.audited_service.specs.Auditing.{LinesRecorded};
ghost use Rattle.line_service.specs.Answering.{OnDisks};
ghost use Rattle.line_service.specs.Running.{LinesServed};
ghost use Rattle.line_service.specs.Stops.{AnswersLines};
ghost use Rattle.line_service.specs.declared.stops.Stop.{Stop};
ghost use Rattle.cca_machine.specs.State.{State};
ghost use Rattle.cca_machine.specs.Coprocessor.{cca};
ghost use Rattle.cca_laws.specs.Sealed.{IsSealed, states_along};

use device_cells::{Disk, Entropy, Sink, Source};
use line_service::ShownOutside;

/// A run that begins with a sealed store, and that neither a disk nor the random source ends, leaves a sealed store: over
/// the states over which it was sealed and those that the lines of the input lead through, by the random bytes that the
/// source has. The premises are, word for word, what `run` says of its lines: the state for which the disks stand at the
/// start, and what the lines come to between the devices before and the devices after. The same holds of an audited run, by
/// what `run_audited` says of its lines, also where the trail ended it.
pub fn a_run_leaves_a_sealed_store<S: Source, K: Sink, M: Disk, D: Disk, E: Entropy, T: Disk>()
    ensures run { (s : State) (before : List State) (outcome : Result (Unit {0}) Stop)
        (random input : List ℕ) (source0 source1 : S) (sink0 sink1 : K) (module0 module1 : M)
        (store0 store1 : D) (entropy0 entropy1 : E)
        → OnDisks cca s (M.medium module0) (D.medium store0)
        → LinesServed cca s outcome (⟦<(S, K, M, D, E) as ShownOutside>⟧.between
        (source0, sink0, module0, store0, entropy0) (source1, sink1, module1, store1, entropy1))
        → AnswersLines outcome → Told (D.medium store0) (IsSealed before)
        → S.left source0 ≡ Some input → E.left entropy0 ≡ Some random
        → Told (D.medium store1) (IsSealed (before ++ states_along s random (lines input))) }
    ensures audited { (s : State) (es : List Entry) (before : List State)
        (outcome : Result (Result (Unit {0}) Stop) TrailFault) (random input : List ℕ)
        (source0 source1 : S) (sink0 sink1 : K) (module0 module1 : M) (store0 store1 : D)
        (entropy0 entropy1 : E) (trail0 trail1 : T)
        → OnDisks cca s (M.medium module0) (D.medium store0)
        → LinesRecorded cca entry_of s es outcome (⟦<(S, K, M, D, E) as ShownOutside>⟧.between
        (source0, sink0, module0, store0, entropy0) (source1, sink1, module1, store1, entropy1))
        (T.medium trail0) (T.medium trail1) (T.faults trail0) (T.faults trail1)
        → AnswersLines (run_part outcome) → Told (D.medium store0) (IsSealed before)
        → S.left source0 ≡ Some input → E.left entropy0 ≡ Some random
        → Told (D.medium store1) (IsSealed (before ++ states_along s random (lines input))) }
{}
