//! What a line writes.

ghost use Rattle.std.specs.Prelude.{◌≡◌, ℕ, List, IsSome, true, false};
ghost use Rattle.cca_machine.specs.Coprocessor.{ModuleMay, StoreMay};
ghost use Rattle.cca_machine.specs.State.{State};
ghost use Rattle.cca_machine.specs.Verdict.{verdict};
ghost use Rattle.verb_script.specs.Grammar.{Request, Spells};
ghost use Rattle.cca_laws.specs.WrittenLines.{WritesNothing, changes_module};

/// A line that spells no request writes no byte of the module or of the store. Neither does a request that a rule refuses,
/// whatever random bytes come. The steps of CSNBMKP and the changes of roles by CSUAACI alone write to the module, and they
/// write no byte of the store.
pub fn what_a_line_writes()
    ensures unspelled { (s : State) (line : List ℕ)
        → ((r : Request) → Spells r line → ⊥) → WritesNothing s line }
    ensures refused { (s : State) (line : List ℕ) (r : Request) → Spells r line
        → ((drawn : List ℕ) → IsSome (verdict s drawn r)) → WritesNothing s line }
    ensures to_module { (s : State) (line old new : List ℕ) (r : Request) → Spells r line
        → changes_module r.name ≡ false → ModuleMay s line old new → new ≡ old }
    ensures to_store { (s : State) (line old new : List ℕ) (r : Request) → Spells r line
        → changes_module r.name ≡ true → StoreMay s line old new → new ≡ old }
{}
