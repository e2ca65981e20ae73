//! A key that is brought in by parts, through the machine.

ghost use Rattle.std.specs.Prelude.{◌≡◌, ◌≢◌, All, ℕ, List, Some, true};
ghost use Rattle.key_cells.specs.Bytes.{AreBytes};
ghost use Rattle.cca_machine.specs.Keys.{cell_with, key_of_label};
ghost use Rattle.cca_machine.specs.Operands.{Operand};
ghost use Rattle.cca_machine.specs.State.{State};
ghost use Rattle.cca_machine.specs.Verdict.{refusal, verdict};
ghost use Rattle.cca_vectors.specs.Vectors.{is_part_of};
ghost use Rattle.cca_vectors.specs.declared.key_type.KeyType.{KeyType};
ghost use Rattle.key_parts.specs.Parts.{xor_all};
ghost use Rattle.key_tokens.specs.Denotes.{Denoted};
ghost use Rattle.key_transport.specs.Generated.{HasLength, vector_for};
ghost use Rattle.key_transport.specs.Tokens.{as_current};
ghost use Rattle.verb_script.specs.Grammar.{Request};
ghost use Rattle.cca_laws.specs.KeyInParts.{AsksWhole, BroughtIn, IsReached, SameRecord, parts_of, size_of};

/// Where CSNBKPI FIRST, MIDDLE for each part between, and LAST are carried out under one label, each by some role, the
/// label has the XOR of all parts with the default control vector of the type, under the current master key;
/// and no other label, no role and no register has changed. All parts have one length, which the type has. Before LAST
/// the key of the label is a part, and rule 17 refuses it wherever a whole key is asked for.
pub fn a_key_from_its_parts()
    ensures parts { (s : State) (label : List ℕ) (kind : KeyType) (b : BroughtIn label kind s)
        → HasLength kind (size_of label kind s b)
        × All (AreBytes (size_of label kind s b)) (parts_of label kind s b) }
    ensures key { (s : State) (label : List ℕ) (kind : KeyType) (b : BroughtIn label kind s)
        → key_of_label b.now label ≡ Some (as_current (record {
          key = xor_all (size_of label kind s b) (parts_of label kind s b);
          vector = vector_for kind (size_of label kind s b);
        })) }
    ensures others { (s : State) (label : List ℕ) (kind : KeyType) (b : BroughtIn label kind s)
        → (other : List ℕ) → other ≢ label → SameRecord s b.now other }
    ensures rest { (s : State) (label : List ℕ) (kind : KeyType) (b : BroughtIn label kind s)
        → (cell_with b.now label ≡ cell_with s label)
        × (b.now.roles ≡ s.roles) × (b.now.registers ≡ s.registers) }
    ensures part { (s : State) (label : List ℕ) (kind : KeyType) (b : BroughtIn label kind s)
        → (key : Denoted) × (key_of_label b.before_last label ≡ Some key)
        × (is_part_of key.clear.vector ≡ true) }
    ensures refused { (s : State) (label : List ℕ) (kind : KeyType) (b : BroughtIn label kind s)
        → (random : List ℕ) (r : Request) (o : Operand) → IsReached b.before_last r o
        → AsksWhole label o → verdict b.before_last random r ≡ Some (refusal 17 o.name) }
{}
