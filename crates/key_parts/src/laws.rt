//! What keys in parts are, and why a part says nothing of the key.
ghost use Rattle.std.specs.Prelude.{◌≡◌, ◌∷◌, ◌++◌, [], All, Some, true, false, ℕ, List};
ghost use Rattle.key_cells.specs.Bytes.{AreBytes};
ghost use Rattle.cca_vectors.specs.Checks.{first_failing};
ghost use Rattle.cca_vectors.specs.Vectors.{is_part_of};
ghost use Rattle.cca_vectors.specs.declared.key_type.KeyType.{KeyType};
ghost use Rattle.key_tokens.specs.declared.key_token.Token.{Token};
ghost use Rattle.key_transport.specs.Generated.{HasLength, vector_for};
ghost use Rattle.master_registers.specs.declared.registers.Registers.{Registers};
ghost use Rattle.verb_rules.specs.KeyChecks.{read_checks, use_checks};
ghost use Rattle.verb_rules.specs.declared.needs.Need.{Need};
ghost use Rattle.key_parts.specs.Parts.{IsOnlyPart, key_before_last, key_of_parts, xor_all};

/// The law of a key in parts: of two or more parts of a length that the type has, FIRST with the first one, MIDDLE with
/// each between and LAST with the last one leave the exclusive or of all of them, with the type's control vector. Before
/// LAST the key is a part, and rule 17 refuses it wherever it is asked.
pub fn a_key_in_parts()
    ensures key { (kind : KeyType) (size : ℕ) (first : List ℕ) (middle : List (List ℕ))
        (last : List ℕ) → HasLength kind size
        → All (AreBytes size) (first ∷ (middle ++ last ∷ []))
        → key_of_parts kind first middle last ≡ record {
          key = xor_all size (first ∷ (middle ++ last ∷ []));
          vector = vector_for kind size;
        } }
    ensures part { (kind : KeyType) (size : ℕ) (first : List ℕ) (middle : List (List ℕ))
        → HasLength kind size → AreBytes size first
        → is_part_of (key_before_last kind first middle).vector ≡ true }
    ensures used { (need : Need) (vector : List ℕ) → need.parts ≡ false
        → is_part_of vector ≡ true → first_failing (use_checks need vector) ≡ Some 17 }
    ensures read { (need : Need) (held : Registers) (token : Token) → need.parts ≡ false
        → is_part_of token.vector ≡ true
        → first_failing (read_checks need held token) ≡ Some 17 }
{}

/// Why parts are safe: whatever all parts of a key but one are, wherever the one stands among them, and whatever the key is,
/// there is exactly one part that makes this key of them. So the others are the same for every key.
pub fn the_other_parts_say_nothing()
    ensures { (size : ℕ) (before after : List (List ℕ)) (key : List ℕ)
        → All (AreBytes size) before → All (AreBytes size) after → AreBytes size key
        → (part : List ℕ) × IsOnlyPart size before after key part }
{}
