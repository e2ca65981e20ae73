//! A key is used only as its control vector permits.

ghost use Rattle.std.specs.Prelude.{◌≡◌, ℕ, List, Some, None, codes, false};
ghost use Rattle.cca_machine.specs.Act.{performed};
ghost use Rattle.cca_machine.specs.Keys.{key_in_text};
ghost use Rattle.cca_machine.specs.Operands.{Operand};
ghost use Rattle.cca_machine.specs.State.{State, IsStoreOf};
ghost use Rattle.cca_machine.specs.Verdict.{verdict};
ghost use Rattle.cca_machine.specs.declared.asking.Ask.TheVariants as ask;
ghost use Rattle.cca_vectors.specs.Permissions.{is_exportable};
ghost use Rattle.key_tokens.specs.Denotes.{ClearKey, Denoted};
ghost use Rattle.verb_rules.specs.declared.needs.Need.{Need};
ghost use Rattle.verb_script.specs.Grammar.{Request, value_of};
ghost use Rattle.verb_script.specs.declared.rows.RequestName.TheVariants.{Csnbpex};
ghost use Rattle.verb_script.specs.Named.{label_named};
ghost use Rattle.cca_laws.specs.Delivered.{IsDelivered, IsPerformed};
ghost use Rattle.cca_laws.specs.Passing.{StaysUnexportable, passed_vector};
ghost use Rattle.cca_laws.specs.Uses.{Allows, HasFirstTransport, HasSecondTransport, HasTransport, IsKeyWith, IsOperandOf, MayWork, ShowsNoExternal, gives_external};

/// The key operands of a request that no rule refuses represent keys, and each is used only where its control vector
/// permits it: by what each operand needs, and, verb by verb, by class, permission bit, export bit, length and key-part
/// bit, also in segments, and of each transport key. No reply but to CSNBKEX, to CSNBKTR and to the generation of a pair
/// has an external token. What CSNBPEX delivers is the same key, and its control vector forbids export. Where a request
/// passes on a key whose control vector forbids export, so does that of each token in its reply, and that of the key in
/// the record that it writes.
pub fn keys_are_used_as_permitted()
    ensures operands { (s : State) (random : List ℕ) (r : Request) (o : Operand) (need : Need)
        → verdict s random r ≡ None → IsOperandOf r o → o.ask ≡ ask.Key need
        → IsKeyWith (Allows need) (key_in_text s o.text) }
    ensures texts { (s : State) (random : List ℕ) (r : Request) → verdict s random r ≡ None
        → MayWork r.name (key_in_text s (value_of r (codes "key"))) }
    ensures transport { (s : State) (random : List ℕ) (r : Request) → verdict s random r ≡ None
        → HasTransport r.name (key_in_text s (value_of r (codes "transport"))) }
    ensures transport1 { (s : State) (random : List ℕ) (r : Request) → verdict s random r ≡ None
        → HasFirstTransport r.name (value_of r (codes "form"))
        (key_in_text s (value_of r (codes "transport1"))) }
    ensures transport2 { (s : State) (random : List ℕ) (r : Request) → verdict s random r ≡ None
        → HasSecondTransport r.name (value_of r (codes "form"))
        (key_in_text s (value_of r (codes "transport2"))) }
    ensures external { (s : State) (drawn : List ℕ) (r : Request) → gives_external r.name ≡ false
        → ShowsNoExternal (performed s drawn r).reply }
    ensures closed { (s : State) (drawn : List ℕ) (r : Request) (key : Denoted)
        → IsPerformed s drawn r → r.name ≡ Csnbpex
        → key_in_text s (value_of r (codes "key")) ≡ Some key
        → (clear : ClearKey) × (clear.key ≡ key.clear.key) × (is_exportable clear.vector ≡ false)
        × IsDelivered s (label_named (value_of r (codes "to"))) clear (performed s drawn r) }
    ensures still { (s : State) (image drawn vector : List ℕ) (r : Request) → IsStoreOf s image
        → verdict s drawn r ≡ None → passed_vector s r ≡ Some vector → is_exportable vector ≡ false
        → StaysUnexportable r (performed s drawn r) }
{}
