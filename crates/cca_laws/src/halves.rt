//! Keys with unique halves.

ghost use Rattle.std.specs.Prelude.{◌≡◌, ℕ, List, length};
ghost use Rattle.cca_machine.specs.Act.{performed};
ghost use Rattle.cca_machine.specs.State.{State};
ghost use Rattle.cca_vectors.specs.Vectors.{form_of, left_of, left_of_unique, right_of, right_of_unique};
ghost use Rattle.cca_vectors.specs.declared.key_length.Length.TheVariants.{Unique};
ghost use Rattle.cca_vectors.specs.declared.key_type.KeyType.{KeyType};
ghost use Rattle.key_transport.specs.Generated.{HasKeyLength, generated_vector};
ghost use Rattle.verb_script.specs.Grammar.{Request};
ghost use Rattle.cca_laws.specs.DrawnKeys.{IsGenerating, LeavesKey};
ghost use Rattle.cca_laws.specs.UniqueKeys.{HasUniqueHalves};

/// The key that CSNBKGN with DOUBLE-O leaves, in the record of the label or in its tokens, has 16 bytes, and halves that
/// differ, the low-order bit of each byte aside: it isn't a single-length key twice. Its control vector says so in the form
/// of each half.
pub fn generated_halves_are_unique()
    ensures halves { (s : State) (drawn : List ℕ) (r : Request) → IsGenerating s drawn r Unique
        → (key : List ℕ) × LeavesKey s r (performed s drawn r) Unique key
        × (length key ≡ 16) × HasUniqueHalves key }
    ensures vectors { (kind : KeyType) → HasKeyLength kind Unique
        → (form_of (left_of (generated_vector kind Unique)) ≡ left_of_unique)
        × (form_of (right_of (generated_vector kind Unique)) ≡ right_of_unique) }
{}
