//! A retired master key is of no use.

ghost use Rattle.std.specs.Prelude.{◌≡◌, ◌≢◌, ◌<◌, ℕ, List, IsSome, None, Some};
ghost use Rattle.cca_machine.specs.Act.{performed};
ghost use Rattle.cca_machine.specs.State.{State, IsStoreOf};
ghost use Rattle.cca_machine.specs.Verdict.{verdict};
ghost use Rattle.cca_vectors.specs.Checks.{first_failing};
ghost use Rattle.device_cells.specs.Cells.{body};
ghost use Rattle.key_tokens.specs.Denotes.{Denoted};
ghost use Rattle.key_tokens.specs.Fields.{pattern_of_token};
ghost use Rattle.key_tokens.specs.declared.key_token.Asked.TheVariants.{Internal};
ghost use Rattle.master_registers.specs.Loaded.{registers_of};
ghost use Rattle.master_registers.specs.Masters.{new_bytes, pattern_of_master};
ghost use Rattle.record_bodies.specs.Entries.{Entry};
ghost use Rattle.record_bodies.specs.StoreStands.{entry_at};
ghost use Rattle.verb_rules.specs.KeyChecks.{key_checks};
ghost use Rattle.verb_rules.specs.declared.needs.Need.{Need};
ghost use Rattle.verb_script.specs.Grammar.{Request};
ghost use Rattle.verb_script.specs.declared.rows.RequestName.TheVariants.{CsnbmkpSet};
ghost use Rattle.role_laws.specs.RetiredKeys.{IsAmong, IsRetired, IsUnderKept, internal_tokens, rules_before};

/// A master key is retired once its verification pattern is neither that of the current nor that of the old one. Every request
/// that has an internal token under it in a field is refused, and changes nothing: by rule 18, where no rule before it
/// fails. No label of a store is under it. Two SETs retire a master key, unless the second one brings its pattern back.
pub fn a_retired_master_key_is_of_no_use()
    ensures refused { (s : State) (drawn token : List ℕ) (r : Request)
        → IsAmong token (internal_tokens r.name r) → IsRetired s.registers (pattern_of_token token)
        → IsSome (verdict s drawn r) }
    ensures unchanged { (s : State) (drawn token : List ℕ) (r : Request)
        → IsAmong token (internal_tokens r.name r) → IsRetired s.registers (pattern_of_token token)
        → (performed s drawn r).state ≡ s }
    ensures rule { (s : State) (need : Need) (token : List ℕ) → need.asked ≡ Internal
        → IsRetired s.registers (pattern_of_token token)
        → first_failing (rules_before need token) ≡ None
        → first_failing (key_checks need (registers_of s.registers) token) ≡ Some 18 }
    ensures labels { (s : State) (image : List ℕ) (cell : ℕ) (e : Entry) (key : Denoted)
        → IsStoreOf s image → cell < 1024 → entry_at s.labels cell ≡ Some e → e.what ≡ Some key
        → IsUnderKept s.registers (body image cell) e key }
    ensures retires { (s t : State) (drawn later first : List ℕ) (r again : Request)
        → r.name ≡ CsnbmkpSet → verdict s drawn r ≡ None → s.registers.current ≡ Some first
        → t.registers.current ≡ (performed s drawn r).state.registers.current
        → again.name ≡ CsnbmkpSet → verdict t later again ≡ None
        → pattern_of_master (new_bytes t.registers.coming) ≢ pattern_of_master first
        → IsRetired (performed t later again).state.registers (pattern_of_master first) }
{}
