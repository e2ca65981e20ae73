//! A key that is passed on stays the same.

ghost use Rattle.std.specs.Prelude.{◌≡◌, ℕ, List, Some, codes, true};
ghost use Rattle.cca_machine.specs.Act.{performed};
ghost use Rattle.cca_machine.specs.Keys.{key_of_label, key_of_token};
ghost use Rattle.cca_machine.specs.State.{State};
ghost use Rattle.cca_machine.specs.Verdict.{bytes_in};
ghost use Rattle.key_tokens.specs.Denotes.{ClearKey, Denoted};
ghost use Rattle.verb_script.specs.Grammar.{Request, value_of};
ghost use Rattle.verb_script.specs.declared.rows.RequestName.TheVariants.{Csnbkrw};
ghost use Rattle.verb_script.specs.Named.{label_named};
ghost use Rattle.cca_laws.specs.Delivered.{IsDelivered, IsPerformed, IsTokenUnder, RepliesToken};
ghost use Rattle.cca_laws.specs.Passing.{key_passed, passes_out, passes_to, under};

/// A request that passes a key on, and that no rule refuses, delivers the same key bytes with the same control vector.
/// CSNBKIM, CSNBPEX and CSNBKPI MIDDLE and LAST write it to the record in `to`, under the current master key, or reply
/// with a token of it; CSNBPEX with the control vector that forbids export, CSNBKPI the key part XOR the part, and LAST
/// with the control vector of the complete key. The tokens of CSNBKEX and CSNBKTR are under the transport key of the
/// request, that of CSNBKTC under the register that it names, and that of CSNBKRR under that of the label's key. CSNBKRW
/// writes the key of the token to the record, under the same master key.
pub fn passed_on_unchanged()
    ensures delivered { (s : State) (drawn : List ℕ) (r : Request)
        → IsPerformed s drawn r → passes_to r.name ≡ true
        → (clear : ClearKey) × (key_passed s r.name r ≡ Some clear)
        × IsDelivered s (label_named (value_of r (codes "to"))) clear (performed s drawn r) }
    ensures replied { (s : State) (drawn : List ℕ) (r : Request)
        → IsPerformed s drawn r → passes_out r.name ≡ true
        → (clear : ClearKey) × (key_passed s r.name r ≡ Some clear)
        × RepliesToken (IsTokenUnder (under s r.name r) clear) (performed s drawn r).reply }
    ensures written { (s : State) (drawn : List ℕ) (r : Request)
        → IsPerformed s drawn r → r.name ≡ Csnbkrw
        → (key : Denoted) × (key_of_token s (bytes_in r (codes "token")) ≡ Some key)
        × (key_of_label (performed s drawn r).state (value_of r (codes "label")) ≡ Some key) }
{}
