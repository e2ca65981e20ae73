//! What replies say of the master key registers.

ghost use Rattle.std.specs.Prelude.{◌≡◌, ℕ, List, false, true};
ghost use Rattle.cca_machine.specs.Act.{performed};
ghost use Rattle.cca_machine.specs.State.{State};
ghost use Rattle.master_registers.specs.Masters.{Masters};
ghost use Rattle.verb_script.specs.Grammar.{Request};
ghost use Rattle.cca_laws.specs.Inside.{AreAsFull, CompareAlike, compares_patterns, uses_master_key};

/// Two states that differ in the master key registers alone, of which the new and the current one are as full in one state
/// as in the other, give the same reply to every request that gives no internal token and shows none; SET and AHEAD aside.
/// Theirs depend on the bytes of the registers only by whether the new master key has the verification pattern of the
/// current one, and whether it has that of the old one.
pub fn registers_stay_inside()
    ensures replies { (s : State) (m : Masters) (drawn : List ℕ) (r : Request)
        → AreAsFull m s.registers → uses_master_key r ≡ false → compares_patterns r.name ≡ false
        → (performed (record s { registers = m }) drawn r).reply ≡ (performed s drawn r).reply }
    ensures patterns { (s : State) (m : Masters) (drawn : List ℕ) (r : Request)
        → AreAsFull m s.registers → CompareAlike m s.registers
        → compares_patterns r.name ≡ true
        → (performed (record s { registers = m }) drawn r).reply ≡ (performed s drawn r).reply }
{}
