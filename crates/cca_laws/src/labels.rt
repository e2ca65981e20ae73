//! Labels are apart.

ghost use Rattle.std.specs.Prelude.{◌≡◌, ◌≢◌, ℕ, Bool, List, Option, None, Some, codes, false};
ghost use Rattle.cca_machine.specs.Act.{performed};
ghost use Rattle.cca_machine.specs.Keys.{cell_with};
ghost use Rattle.cca_machine.specs.Operands.{listed, operands};
ghost use Rattle.cca_machine.specs.State.{State, IsStoreOf};
ghost use Rattle.cca_machine.specs.Verdict.{verdict};
ghost use Rattle.record_bodies.specs.Ages.{any_ahead_entry};
ghost use Rattle.record_bodies.specs.Entries.{Entry};
ghost use Rattle.verb_script.specs.Grammar.{Request, value_of};
ghost use Rattle.verb_script.specs.declared.rows.RequestName.TheVariants.{Csnbkrc, CsnbmkpClear, CsnbmkpSet, Reencipher, ReencipherDrop};
ghost use Rattle.cca_laws.specs.EachLabel.{IsRenewed, IsTurnedBySet, SameButMark, SameEntry, changes_each, mark_of};
ghost use Rattle.cca_laws.specs.NamedLabels.{SameNamed, is_of_store};
ghost use Rattle.cca_laws.specs.Prepared.{is_ahead_label};
ghost use Rattle.cca_laws.specs.Targets.{Spares, clear_of_label};

/// A request changes no label but the one that it is given to create, write or delete: any other keeps its cell and its
/// key with the control vector. But for SET and REENCIPHER with and without an action, any other keeps its whole entry: the
/// master key that its key is under, and whether it is staged, too. AHEAD and DROP change whether labels are staged, and
/// nothing else of them, but that a token that was no longer used is gone; after DROP no label is staged. After SET none is
/// either, and a key is under the current master key where its label was staged, and else under the old one. REENCIPHER
/// without an action brings each key under the current master key, and leaves every other label as it was.
///
/// The reply to a request depends on the labels that it names, and on no other; those to CSNBKRC, CSNBKRL, CLEAR, SET and
/// REENCIPHER with and without an action aside. The reply to CLEAR depends on whether a label is staged, and on nothing else
/// of the labels.
pub fn labels_are_apart()
    ensures others { (s : State) (drawn label : List ℕ) (r : Request) (cell : ℕ)
        → Spares label r → cell_with s label ≡ Some cell
        → (cell_with (performed s drawn r).state label ≡ Some cell)
        × (clear_of_label (performed s drawn r).state label ≡ clear_of_label s label) }
    ensures whole { (s : State) (drawn label : List ℕ) (r : Request) (cell : ℕ)
        → Spares label r → cell_with s label ≡ Some cell → changes_each r.name ≡ false
        → SameEntry s (performed s drawn r).state label }
    ensures marks { (s : State) (drawn label : List ℕ) (r : Request) (ahead : Bool)
        → mark_of r.name ≡ Some ahead → SameButMark ahead s (performed s drawn r).state label }
    ensures dropped { (s : State) (image drawn label : List ℕ) (r : Request) → IsStoreOf s image
        → r.name ≡ ReencipherDrop → verdict s drawn r ≡ None
        → is_ahead_label (performed s drawn r).state label ≡ false }
    ensures set { (s : State) (drawn label : List ℕ) (r : Request)
        → r.name ≡ CsnbmkpSet → verdict s drawn r ≡ None
        → IsTurnedBySet s (performed s drawn r).state label }
    ensures renewed { (s : State) (image drawn label : List ℕ) (r : Request) → IsStoreOf s image
        → r.name ≡ Reencipher → verdict s drawn r ≡ None
        → IsRenewed s (performed s drawn r).state label }
    ensures created { (s : State) (drawn label : List ℕ) (r : Request)
        → cell_with s label ≡ None → (r.name ≡ Csnbkrc → value_of r (codes "label") ≢ label)
        → cell_with (performed s drawn r).state label ≡ None }
    ensures replies { (s : State) (others : List (Option Entry)) (drawn : List ℕ) (r : Request)
        → is_of_store r.name ≡ false
        → SameNamed s (record s { labels = others }) (listed (operands r))
        → (performed (record s { labels = others }) drawn r).reply ≡ (performed s drawn r).reply }
    ensures clears { (s : State) (others : List (Option Entry)) (drawn : List ℕ) (r : Request)
        → r.name ≡ CsnbmkpClear → any_ahead_entry others ≡ any_ahead_entry s.labels
        → (performed (record s { labels = others }) drawn r).reply ≡ (performed s drawn r).reply }
{}
