//! Where clear keys go: what leaves in replies.

ghost use Rattle.std.specs.Prelude.{◌≡◌, ℕ, List, None};
ghost use Rattle.cca_machine.specs.Act.{performed};
ghost use Rattle.cca_machine.specs.State.{State, IsStoreOf};
ghost use Rattle.cca_machine.specs.Verdict.{verdict};
ghost use Rattle.verb_script.specs.Grammar.{Request};
ghost use Rattle.cca_laws.specs.Leaving.{LeavesSealed, RefusesBy};

/// No clear key leaves. The reply to a request that no rule refuses has, beside a warning, the fields that a table says
/// for its verb: words, numbers and what the request itself says; and of its keys ciphertexts, plaintexts, chains, MACs,
/// matches and key check values, as the standards define them of this request's operands; random bytes; and tokens. A token
/// is a key multiply enciphered under the master key of a register, or under the transport key that an operand of this
/// request is. A refusal says the number of a rule and the name of a field.
pub fn keys_leave_sealed()
    ensures replies { (s : State) (image drawn : List ℕ) (r : Request) → IsStoreOf s image
        → verdict s drawn r ≡ None → LeavesSealed s drawn r (performed s drawn r) }
    ensures refusals { (s : State) (drawn : List ℕ) (r : Request)
        → RefusesBy (verdict s drawn r) r.name (performed s drawn r).reply }
{}
