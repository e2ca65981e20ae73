//! Keys that are made of random bytes.

ghost use Rattle.std.specs.Prelude.{◌≡◌, ◌<◌, All, ℕ, List};
ghost use Rattle.cca_machine.specs.Act.{performed};
ghost use Rattle.cca_machine.specs.State.{State};
ghost use Rattle.cca_vectors.specs.declared.key_length.Length.{Length};
ghost use Rattle.verb_script.specs.Grammar.{Request};
ghost use Rattle.cca_laws.specs.DrawnKeys.{IsDrawnKey, IsGenerating, LeavesKey};

/// Each key that CSNBKGN makes has just the random bytes that the request takes, with odd parity: 8, 16, or, for a key with
/// unique halves, the first 8 and the first 8 after them that differ. It is in the record of the label, or in the token,
/// with the default control vector of its type; the two keys of a pair have the same bytes. The random bytes make one key.
pub fn keys_are_drawn()
    ensures keys { (s : State) (drawn : List ℕ) (r : Request) (key_length : Length)
        → IsGenerating s drawn r key_length
        → (key : List ℕ) × IsDrawnKey key_length drawn key
        × LeavesKey s r (performed s drawn r) key_length key }
    ensures one { (key_length : Length) (drawn one other : List ℕ)
        → All (λ byte. byte < 256) drawn → IsDrawnKey key_length drawn one
        → IsDrawnKey key_length drawn other → one ≡ other }
{}
