//! The same in, the same out.

ghost use Rattle.std.specs.Prelude.{◌≡◌, ◌<◌, ℕ, List};
ghost use Rattle.cca_machine.specs.Session.{replies, state_after};
ghost use Rattle.cca_machine.specs.State.{State};
ghost use Rattle.device_cells.specs.Cells.{body};
ghost use Rattle.cca_laws.specs.Disks.{StandFor};

/// The contents of a module and of a store stand for one state alone. So the same contents, the same lines and the same
/// random bytes give the same replies, and stores that stand for what comes of them select the same bytes in each cell.
pub fn the_same_in_the_same_out()
    ensures one { (s t : State) (c d : List ℕ) → StandFor s c d → StandFor t c d → s ≡ t }
    ensures replies { (s t : State) (c d random : List ℕ) (lines : List (List ℕ))
        → StandFor s c d → StandFor t c d → replies s random lines ≡ replies t random lines }
    ensures bytes { (s t : State) (c d random : List ℕ) (lines : List (List ℕ))
        → StandFor s c d → StandFor t c d
        → (c0 d0 c1 d1 : List ℕ) → StandFor (state_after s random lines) c0 d0
        → StandFor (state_after t random lines) c1 d1
        → (cell : ℕ) → cell < 1024 → body d0 cell ≡ body d1 cell }
{}
