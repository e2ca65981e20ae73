//! A sealed store.

ghost use Rattle.std.specs.Prelude.{ℕ, List, [], ◌∷◌, ◌++◌};
ghost use Rattle.cca_machine.specs.State.{State, IsModuleOf, IsStoreOf};
ghost use Rattle.cca_laws.specs.Sealed.{IsAtRest, IsBlankStore, IsSealed, states_along};

/// A store that was sealed before some lines, over some states, and is at rest after them, is sealed over those states and
/// the ones that the lines led through. That is: each copy in each cell, the inactive one too, is blank or the key record of
/// the label that one of the states has in this cell, in which the key is enciphered under a master key of that state; each
/// selector is 0 or 1, and every other byte is zero. A token that a record no longer uses is enciphered under a master key
/// of one of the states too. A store whose every byte is zero is sealed over the state for which it stands: that is where it
/// begins.
pub fn the_store_is_sealed()
    ensures blank { (s : State) (image : List ℕ) → IsStoreOf s image → IsBlankStore image
        → IsSealed (s ∷ []) image }
    ensures sealed { (s : State) (before : List State) (c random old new : List ℕ)
        (lines : List (List ℕ)) → IsModuleOf s c → IsStoreOf s old → IsSealed before old
        → IsAtRest (states_along s random lines) old new
        → IsSealed (before ++ states_along s random lines) new }
{}
