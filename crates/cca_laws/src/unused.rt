//! Tokens that records no longer use.

ghost use Rattle.std.specs.Prelude.{◌≡◌, ℕ, List};
ghost use Rattle.cca_machine.specs.Act.{performed};
ghost use Rattle.cca_machine.specs.Lines.{taken_by};
ghost use Rattle.cca_machine.specs.Session.{random_after, replies, state_after};
ghost use Rattle.cca_machine.specs.State.{State};
ghost use Rattle.cca_machine.specs.Verdict.{verdict};
ghost use Rattle.verb_script.specs.Grammar.{Request};
ghost use Rattle.cca_laws.specs.UnusedTokens.{SameButUnused};

/// A label that was staged when a master key was set keeps its first token in its record, and doesn't use it. Nothing hangs
/// on such a token: states that differ in them alone give the same verdict on a request, take the same random bytes for it,
/// give the same reply, and lead to states that differ in them alone; over any lines too.
pub fn unused_tokens_say_nothing()
    ensures verdicts { (s t : State) (random : List ℕ) (r : Request) → SameButUnused s t
        → verdict s random r ≡ verdict t random r }
    ensures taken { (s t : State) (random : List ℕ) (r : Request) → SameButUnused s t
        → taken_by s random r ≡ taken_by t random r }
    ensures reply { (s t : State) (drawn : List ℕ) (r : Request) → SameButUnused s t
        → (performed s drawn r).reply ≡ (performed t drawn r).reply }
    ensures state { (s t : State) (drawn : List ℕ) (r : Request) → SameButUnused s t
        → SameButUnused (performed s drawn r).state (performed t drawn r).state }
    ensures replies { (s t : State) (random : List ℕ) (lines : List (List ℕ)) → SameButUnused s t
        → replies s random lines ≡ replies t random lines }
    ensures states { (s t : State) (random : List ℕ) (lines : List (List ℕ)) → SameButUnused s t
        → SameButUnused (state_after s random lines) (state_after t random lines) }
    ensures random { (s t : State) (random : List ℕ) (lines : List (List ℕ)) → SameButUnused s t
        → random_after s random lines ≡ random_after t random lines }
{}
