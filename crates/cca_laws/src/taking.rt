//! Random bytes that are used once.

ghost use Rattle.std.specs.Prelude.{◌≡◌, ◌≤◌, ◌<◌, ◌∷◌, ◌++◌, [], All, ℕ, List, None, codes, false, length};
ghost use Rattle.std.specs.List.{concat};
ghost use Rattle.cca_machine.specs.Act.{performed};
ghost use Rattle.cca_machine.specs.Lines.{line_outcome, taken_by};
ghost use Rattle.cca_machine.specs.Session.{random_after};
ghost use Rattle.cca_machine.specs.State.{State};
ghost use Rattle.cca_machine.specs.Verdict.{verdict};
ghost use Rattle.cca_vectors.specs.declared.key_length.Length.{Length};
ghost use Rattle.line_service.specs.Replies.{Done, Hex};
ghost use Rattle.verb_script.specs.Grammar.{Request, value_of};
ghost use Rattle.verb_script.specs.declared.rows.RequestName.TheVariants.{Csnbrng};
ghost use Rattle.cca_laws.specs.DrawnKeys.{IsDrawnKey, IsGenerating};
ghost use Rattle.cca_laws.specs.TakenBytes.{IsInForm, all_taken, bytes_taken, count_taken, takes_random};

/// The random bytes that lines take, one after another, and those that are left, are the bytes of the source in their
/// order. What comes of a line depends on the bytes that it takes, and on none of those that it leaves. CSNBRNG shows the 8
/// bytes that it takes, in the parity that it asks for. No request but CSNBRNG and CSNBKGN takes any or depends on any; and
/// what comes of CSNBKGN depends on the key that they make, and on nothing else of them.
pub fn random_bytes_are_used_once()
    ensures order { (s : State) (random : List ℕ) (lines : List (List ℕ))
        → concat (all_taken s random lines) ++ random_after s random lines ≡ random }
    ensures own { (s : State) (random rest line : List ℕ)
        → count_taken s random line ≤ length random
        → line_outcome s (bytes_taken s random line ++ rest) line ≡ record {
          state = (line_outcome s random line).state;
          reply = (line_outcome s random line).reply;
          random = rest;
        } }
    ensures shown { (s : State) (drawn : List ℕ) (r : Request) → r.name ≡ Csnbrng
        → verdict s drawn r ≡ None → length drawn ≡ taken_by s drawn r
        → All (λ byte. byte < 256) drawn
        → (bytes : List ℕ) × (length drawn ≡ 8)
        × IsInForm (value_of r (codes "form")) drawn bytes
        × ((performed s drawn r).reply ≡ Done (Hex (codes "random") bytes ∷ [])) }
    ensures others { (s : State) (drawn other : List ℕ) (r : Request)
        → takes_random r.name ≡ false
        → (taken_by s drawn r ≡ 0) × (performed s drawn r ≡ performed s other r) }
    ensures made { (s : State) (drawn other key : List ℕ) (r : Request) (key_length : Length)
        → IsGenerating s drawn r key_length → IsGenerating s other r key_length
        → IsDrawnKey key_length drawn key → IsDrawnKey key_length other key
        → performed s drawn r ≡ performed s other r }
{}
