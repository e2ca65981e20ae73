//! Separate duties in a key ceremony.

ghost use Rattle.std.specs.Prelude.{◌≡◌, ℕ, List, false};
ghost use Rattle.key_cells.specs.Bytes.{AreBytes, xor};
ghost use Rattle.cca_machine.specs.Session.{state_after};
ghost use Rattle.cca_machine.specs.State.{State};
ghost use Rattle.master_registers.specs.Masters.{Empty, Partial, is_full};
ghost use Rattle.cca_laws.specs.Ceremony.{SameKeys, combine_point, first_point, set_point};
ghost use Rattle.cca_laws.specs.EachLine.{EachRequest};
ghost use Rattle.cca_laws.specs.MasterParts.{IsOnlyLast};
ghost use Rattle.cca_laws.specs.Points.{HoldsNone};

/// The new master key register gets from empty to full by a FIRST and a LAST, and the current master key changes by SET.
/// So where one of the three points MK_FIRST, MK_COMBINE and MK_SET is held by no line's role, no lines set a master key
/// from an empty new register. What a partly full new register has says nothing of the master key: for each master key
/// there is exactly one part with which LAST leaves it there.
pub fn separate_duties()
    ensures first { (s : State) (random : List ℕ) (lines : List (List ℕ))
        → EachRequest (HoldsNone first_point) s random lines → s.registers.coming ≡ Empty
        → (state_after s random lines).registers ≡ s.registers }
    ensures combine { (s : State) (random : List ℕ) (lines : List (List ℕ))
        → EachRequest (HoldsNone combine_point) s random lines
        → is_full s.registers.coming ≡ false
        → (is_full (state_after s random lines).registers.coming ≡ false)
        × SameKeys s.registers (state_after s random lines).registers }
    ensures set { (s : State) (random : List ℕ) (lines : List (List ℕ))
        → EachRequest (HoldsNone set_point) s random lines
        → SameKeys s.registers (state_after s random lines).registers }
    ensures parts { (s : State) (held master : List ℕ) → s.registers.coming ≡ Partial held
        → AreBytes 24 held → AreBytes 24 master → IsOnlyLast s master (xor master held) }
{}
