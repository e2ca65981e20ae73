//! Runs that are stopped and run again end as one that isn't stopped.
ghost use Rattle.std.specs.Prelude.{◌≡◌, ◌≤◌, ◌<◌, ℕ, List, Option, length, max};
ghost use Rattle.record_bodies.specs.Entries.{Entry};
ghost use Rattle.record_bodies.specs.StoreStands.{StandsForLabels};
ghost use Rattle.key_tokens.specs.Denotes.{HaveDistinctPatterns, MasterKeys};
ghost use Rattle.record_bodies.specs.declared.actions.StoreAction.{StoreAction as Action};
ghost use Rattle.record_bodies.specs.Further.{further, reruns, changed_count};
ghost use Rattle.device_cells.specs.Cells.{body};

/// Whatever cells runs of an action are stopped at, a run that isn't stopped then leaves the labels that one run from
/// the start leaves, and the same selected bytes in each cell; the next one changes none.
pub fn reruns_end_as_one_run()
    ensures twice { (a : Action) (s : List (Option Entry)) (m n : ℕ)
        → further a (further a s m) n ≡ further a s (max m n) }
    ensures reruns { (a : Action) (s : List (Option Entry)) (stops : List ℕ) → length s ≤ 1024
        → further a (reruns a s stops) 1024 ≡ further a s 1024 }
    ensures done { (a : Action) (s : List (Option Entry)) → length s ≤ 1024
        → changed_count a (further a s 1024) ≡ 0 }
    ensures bytes { (a : Action) (masters : MasterKeys) → HaveDistinctPatterns masters
        → (s : List (Option Entry)) (stops : List ℕ) (one other : List ℕ) (n : ℕ)
        → StandsForLabels masters one (further a s 1024)
        → StandsForLabels masters other (further a (reruns a s stops) 1024)
        → n < 1024 → body one n ≡ body other n }
{}
