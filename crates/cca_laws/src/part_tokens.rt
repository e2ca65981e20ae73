//! A key that is brought in by parts and delivered into records and as tokens, through the machine.

ghost use Rattle.std.specs.Prelude.{◌≡◌, All, ℕ, List, Some, true};
ghost use Rattle.key_cells.specs.Bytes.{AreBytes};
ghost use Rattle.cca_machine.specs.Keys.{key_in_text};
ghost use Rattle.cca_machine.specs.Operands.{Operand};
ghost use Rattle.cca_machine.specs.State.{State};
ghost use Rattle.cca_machine.specs.Verdict.{refusal, verdict};
ghost use Rattle.cca_vectors.specs.Vectors.{is_part_of};
ghost use Rattle.cca_vectors.specs.declared.key_type.KeyType.{KeyType};
ghost use Rattle.key_parts.specs.Parts.{xor_all};
ghost use Rattle.key_tokens.specs.Denotes.{Denoted};
ghost use Rattle.key_transport.specs.Generated.{HasLength, vector_for};
ghost use Rattle.key_transport.specs.Tokens.{as_current};
ghost use Rattle.verb_script.specs.Grammar.{Request};
ghost use Rattle.cca_laws.specs.KeyInParts.{IsReached, SameRecord};
ghost use Rattle.cca_laws.specs.PassedParts.{AsksWholeKey, Entered, SparesLabel, entry_parts, entry_size};

/// Where CSNBKPI FIRST, MIDDLE for each part between, and LAST are carried out, each by some role, and each goes on from the
/// key that the one before it delivered, into the record of a label or as a token: what LAST delivers is the XOR of all
/// parts with the default control vector of the type, under the current master key. No other label, no role and no register
/// has changed. All parts have one length, which the type has. Before LAST the key is a part, and rule 17 refuses it, by its
/// label or its token, wherever a whole key is asked for.
pub fn a_key_is_passed_on_in_parts()
    ensures parts { (s : State) (kind : KeyType) (b : Entered kind s)
        → HasLength kind (entry_size kind s b)
        × All (AreBytes (entry_size kind s b)) (entry_parts kind s b) }
    ensures key { (s : State) (kind : KeyType) (b : Entered kind s)
        → key_in_text b.now b.key_text ≡ Some (as_current (record {
          key = xor_all (entry_size kind s b) (entry_parts kind s b);
          vector = vector_for kind (entry_size kind s b);
        })) }
    ensures others { (s : State) (kind : KeyType) (b : Entered kind s)
        → (label : List ℕ) → SparesLabel kind s b label → SameRecord s b.now label }
    ensures rest { (s : State) (kind : KeyType) (b : Entered kind s)
        → (b.now.roles ≡ s.roles) × (b.now.registers ≡ s.registers) }
    ensures part { (s : State) (kind : KeyType) (b : Entered kind s)
        → (key : Denoted) × (key_in_text b.before_last b.part_text ≡ Some key)
        × (is_part_of key.clear.vector ≡ true) }
    ensures refused { (s : State) (kind : KeyType) (b : Entered kind s)
        → (random : List ℕ) (r : Request) (o : Operand) → IsReached b.before_last r o
        → AsksWholeKey b.part_text o → verdict b.before_last random r ≡ Some (refusal 17 o.name) }
{}
