//! Replies and master keys.

ghost use Rattle.std.specs.Prelude.{◌≡◌, ℕ, List, Some, codes, false, true, is_none};
ghost use Rattle.cca_machine.specs.Act.{performed};
ghost use Rattle.cca_machine.specs.State.{State};
ghost use Rattle.master_registers.specs.Masters.{Masters, NewRegister, state_of};
ghost use Rattle.verb_script.specs.Grammar.{Request, value_of};
ghost use Rattle.verb_script.specs.Named.{label_named};
ghost use Rattle.cca_laws.specs.MasterBytes.{asks_new_key, uses_text_key, with_new};

/// Two states that differ in the bytes of the new master key register alone, and not in how full it is, give the same
/// replies; SET and AHEAD, which compare patterns, and CSNBKTC to the new master key aside. The replies to CSNBENC,
/// CSNBDEC, CSNBMGN and CSNBMVR, also of a text in segments, and to CSNBKYT, with a key by its label, depend on no byte of
/// a master key.
pub fn replies_and_master_keys()
    ensures coming { (s : State) (one other : NewRegister) (drawn : List ℕ) (r : Request)
        → state_of one ≡ state_of other → asks_new_key r ≡ false
        → (performed (with_new s one) drawn r).reply
        ≡ (performed (with_new s other) drawn r).reply }
    ensures labelled { (s : State) (m : Masters) (drawn label : List ℕ) (r : Request)
        → uses_text_key r.name ≡ true → label_named (value_of r (codes "key")) ≡ Some label
        → is_none m.current ≡ is_none s.registers.current
        → (performed (record s { registers = m }) drawn r).reply ≡ (performed s drawn r).reply }
{}
