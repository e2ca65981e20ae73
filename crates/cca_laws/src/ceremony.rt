//! A master key that is made of its parts, through the machine.

ghost use Rattle.std.specs.Prelude.{◌≡◌, ◌∷◌, ◌++◌, All, ℕ, List, Some, map};
ghost use Rattle.key_cells.specs.Bytes.{AreBytes};
ghost use Rattle.cca_machine.specs.State.{State};
ghost use Rattle.key_parts.specs.Parts.{IsOnlyPart, xor_all};
ghost use Rattle.master_registers.specs.Masters.{Empty, Full, Partial};
ghost use Rattle.cca_laws.specs.KeyInParts.{AreCarriedOut, Custodian, bytes_of};
ghost use Rattle.cca_laws.specs.MasterBytes.{with_new};
ghost use Rattle.cca_laws.specs.MasterParts.{Ceremony, begin_requests, master_parts};
ghost use Rattle.cca_laws.specs.Targets.{clear_of_label};

/// Where CSNBMKP FIRST, MIDDLE for each part between, LAST and SET are carried out, each by some role, the XOR of
/// all parts is the current master key, the one that was current is the old one, and the new register is empty. Before SET
/// nothing but the new register has changed; SET changes no role, and no key of a label with its control vector. All parts
/// but one say nothing of the master key: whatever they are, for each master key there is exactly one part with which they
/// make it.
pub fn a_master_key_from_its_parts()
    ensures begun { (s t : State) (first : Custodian) (middle : List Custodian)
        → AreCarriedOut s (begin_requests first middle) t
        → t ≡ with_new s (Partial (xor_all 24 (bytes_of first ∷ map bytes_of middle))) }
    ensures entered { (s : State) (c : Ceremony s)
        → c.entered ≡ with_new s (Full (xor_all 24 (master_parts s c))) }
    ensures key { (s : State) (c : Ceremony s) → c.now.registers ≡ record {
      coming = Empty;
      current = Some (xor_all 24 (master_parts s c));
      former = s.registers.current;
    } }
    ensures rest { (s : State) (c : Ceremony s) → (c.now.roles ≡ s.roles)
        × ((label : List ℕ) → clear_of_label c.now label ≡ clear_of_label s label) }
    ensures parts { (s : State) (c : Ceremony s) → All (AreBytes 24) (master_parts s c) }
    ensures others { (s : State) (c : Ceremony s) (before after : List (List ℕ))
        (part master : List ℕ) → master_parts s c ≡ before ++ part ∷ after
        → AreBytes 24 master → (other : List ℕ) × IsOnlyPart 24 before after master other }
{}
