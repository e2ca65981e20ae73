//! What a module and a store stand for.
ghost use Rattle.std.specs.Prelude.{◌≡◌, ◌⊎◌, ℕ, List};
ghost use Rattle.key_cells.specs.Bytes.{AreBytes};
ghost use Rattle.cca_machine.specs.Pairs.{ArePairOf, IsBrokenPair};
ghost use Rattle.cca_machine.specs.State.{State, module_size, store_size};

/// A module and a store of their sizes stand for exactly one state or have a first damaged cell, and never both.
pub fn a_pair_stands_for_one_state()
    ensures one { (s t : State) (c d : List ℕ) → ArePairOf s c d → ArePairOf t c d → s ≡ t }
    ensures sound { (s : State) (c d : List ℕ) (cell : ℕ)
        → ArePairOf s c d → IsBrokenPair cell c d → ⊥ }
    ensures whole { (c d : List ℕ) → AreBytes module_size c → AreBytes store_size d
        → ((s : State) × ArePairOf s c d) ⊎ ((cell : ℕ) × IsBrokenPair cell c d) }
{}
