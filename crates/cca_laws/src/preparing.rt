//! A change of the master key that labels are prepared for.

ghost use Rattle.std.specs.Prelude.{◌≡◌, ℕ, List, [], Some, None, IsSome, true};
ghost use Rattle.cca_machine.specs.Act.{performed};
ghost use Rattle.cca_machine.specs.Keys.{key_of_label};
ghost use Rattle.cca_machine.specs.Reruns.{reencipher_for};
ghost use Rattle.cca_machine.specs.State.{State, IsStoreOf};
ghost use Rattle.cca_machine.specs.Verdict.{verdict};
ghost use Rattle.key_tokens.specs.Denotes.{Denoted};
ghost use Rattle.key_transport.specs.Tokens.{as_current};
ghost use Rattle.record_bodies.specs.declared.actions.StoreAction.TheVariants.{Ahead};
ghost use Rattle.verb_script.specs.Grammar.{Request};
ghost use Rattle.verb_script.specs.declared.rows.RequestName.TheVariants.{CsnbmkpClear, CsnbmkpSet};
ghost use Rattle.cca_laws.specs.Prepared.{is_ahead_label};

/// AHEAD leaves each label that holds a key ahead, with that key under the same master key. A label that is ahead has its
/// key under the current master key as soon as SET is carried out. And while a label is ahead, no CLEAR is carried out:
/// the new master key isn't lost.
pub fn labels_are_current_at_once()
    ensures ahead { (s : State) (image drawn role label : List ℕ) (key : Denoted)
        → IsStoreOf s image → verdict s [] (reencipher_for Ahead role) ≡ None
        → key_of_label s label ≡ Some key
        → (is_ahead_label (performed s drawn (reencipher_for Ahead role)).state label ≡ true)
        × (key_of_label (performed s drawn (reencipher_for Ahead role)).state label ≡ Some key) }
    ensures set { (s : State) (drawn label : List ℕ) (r : Request) (key : Denoted)
        → r.name ≡ CsnbmkpSet → verdict s drawn r ≡ None
        → key_of_label s label ≡ Some key → is_ahead_label s label ≡ true
        → key_of_label (performed s drawn r).state label ≡ Some (as_current key.clear) }
    ensures clear { (s : State) (random label : List ℕ) (r : Request)
        → r.name ≡ CsnbmkpClear → is_ahead_label s label ≡ true
        → IsSome (verdict s random r) }
{}
