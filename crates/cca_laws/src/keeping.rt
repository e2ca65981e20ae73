//! No key is lost.

ghost use Rattle.std.specs.Prelude.{◌≡◌, ℕ, List, Some, IsSome, true};
ghost use Rattle.cca_machine.specs.Act.{performed};
ghost use Rattle.cca_machine.specs.Keys.{key_of_label};
ghost use Rattle.cca_machine.specs.Session.{state_after};
ghost use Rattle.cca_machine.specs.State.{State};
ghost use Rattle.cca_machine.specs.Verdict.{verdict};
ghost use Rattle.key_tokens.specs.Denotes.{ClearKey, Denoted};
ghost use Rattle.key_tokens.specs.declared.key_token.Age.TheVariants.{Old};
ghost use Rattle.verb_script.specs.Grammar.{Request};
ghost use Rattle.verb_script.specs.declared.rows.RequestName.TheVariants.{CsnbmkpSet};
ghost use Rattle.cca_laws.specs.EachLine.{EachRequest};
ghost use Rattle.cca_laws.specs.Targets.{Spares, changes_ages, clear_of_label};

/// A label that holds a key holds that key with its control vector after any lines of which none names the label by
/// `to`, and none is CSNBKRW or CSNBKRD of it, whatever is done to the master keys. SET and REENCIPHER without an action
/// change the master keys that labels are under, and no key. While a label is under the old master key no SET is carried
/// out.
pub fn no_key_is_lost()
    ensures kept { (s : State) (random label : List ℕ) (lines : List (List ℕ)) (key : ClearKey)
        → EachRequest (λ _ r. Spares label r) s random lines
        → clear_of_label s label ≡ Some key
        → clear_of_label (state_after s random lines) label ≡ Some key }
    ensures ages { (s : State) (drawn label : List ℕ) (r : Request)
        → changes_ages r.name ≡ true
        → clear_of_label (performed s drawn r).state label ≡ clear_of_label s label }
    ensures set { (s : State) (random label : List ℕ) (r : Request) (key : Denoted)
        → key_of_label s label ≡ Some key → key.age ≡ Old → r.name ≡ CsnbmkpSet
        → IsSome (verdict s random r) }
{}
