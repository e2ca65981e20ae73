//! What a store can stand for, and that each place in the order of labels has one.
ghost use Rattle.std.specs.Prelude.{◌≡◌, ◌<◌, ◌⊎◌, ℕ, false, List, Option, None, Some, map};
ghost use Rattle.key_cells.specs.Bytes.{AreBytes};
ghost use Rattle.key_tokens.specs.Denotes.{HaveDistinctPatterns, MasterKey, MasterKeys};
ghost use Rattle.record_bodies.specs.Ages.{any_old, any_ahead_entry};
ghost use Rattle.key_records.specs.Changes.{any_under, any_ahead};
ghost use Rattle.record_bodies.specs.Directory.{held_count};
ghost use Rattle.record_bodies.specs.Entries.{Entry, row_directory, turned};
ghost use Rattle.record_bodies.specs.Rank.{IsNth};
ghost use Rattle.record_bodies.specs.RecordBody.{ReadsEntry};
ghost use Rattle.record_bodies.specs.Rows.{AreRows};
ghost use Rattle.record_bodies.specs.StoreStands.{StandsForLabels, Agrees, HoldsRows, KeepsLabels, IsDamagedCell, IsFirstDamaged, labels_in};
ghost use Rattle.record_bodies.specs.Turning.{aged, after_turn};
ghost use Rattle.record_bodies.specs.Written.{written_body};
ghost use Rattle.device_cells.specs.Cells.{body};
ghost use Rattle.key_records.specs.declared.records.TheConstants.{STORE_LEN};
ghost use Rattle.record_bodies.specs.declared.rows.Row.{Row};

/// A store stands for at most one list of labels, and one that does has no damaged cell. Every store
/// stands for a list of labels or has a first damaged cell.
pub fn a_store_stands_for_one_state()
    ensures one { (masters : MasterKeys) (image : List ℕ) (s t : List (Option Entry))
        → StandsForLabels masters image s → StandsForLabels masters image t → s ≡ t }
    ensures sound { (masters : MasterKeys) (image : List ℕ) (s : List (Option Entry)) (n : ℕ)
        → StandsForLabels masters image s → n < 1024 → IsDamagedCell masters image n → ⊥ }
    ensures whole { (masters : MasterKeys) (image : List ℕ) → AreBytes STORE_LEN image
        → StandsForLabels masters image (labels_in masters image)
        ⊎ ((n : ℕ) × IsFirstDamaged masters image n) }
{}

/// What a label stands for has one body, where the patterns of the registers differ: two stores that stand for the same
/// labels select the same bytes in each cell.
pub fn a_state_has_one_store()
    ensures body { (masters : MasterKeys) → HaveDistinctPatterns masters
        → (bytes : List ℕ) (e : Option Entry) → ReadsEntry masters bytes e
        → bytes ≡ written_body masters e }
    ensures store { (masters : MasterKeys) → HaveDistinctPatterns masters
        → (one other : List ℕ) (s : List (Option Entry)) (n : ℕ)
        → StandsForLabels masters one s → StandsForLabels masters other s → n < 1024
        → body one n ≡ body other n }
{}

/// For each index below the count there is a label.
pub fn each_index_has_a_label()
    ensures { (rows : List (Option Row)) (index : ℕ)
        → AreRows rows → index < held_count (row_directory rows)
        → (label : List ℕ) × IsNth index (row_directory rows) label }
{}

/// The labels under the old master key are those that have its pattern in the memory; where the old register
/// is empty there are none.
pub fn labels_under_the_old_master_key()
    ensures old { (masters : MasterKeys) (former : MasterKey)
        → HaveDistinctPatterns masters → masters.former ≡ Some former
        → (rows : List (Option Row)) (s : List (Option Entry)) (image : List ℕ)
        → KeepsLabels masters rows s image
        → any_under (record { bytes = former.pattern }) rows ≡ any_old s }
    ensures none { (masters : MasterKeys)
        → HaveDistinctPatterns masters → masters.former ≡ None
        → (rows : List (Option Row)) (s : List (Option Entry)) (image : List ℕ)
        → KeepsLabels masters rows s image → any_old s ≡ false }
{}

/// The memory knows which labels are ahead.
pub fn labels_that_are_ahead()
    ensures { (masters : MasterKeys) (rows : List (Option Row)) (s : List (Option Entry))
        → Agrees masters rows s → any_ahead rows ≡ any_ahead_entry s }
{}

/// SET writes no byte of the store. Where no label is under the old master key, what stood for the labels stands for
/// them afterwards: a label that was ahead is current, and every other one old. The memory knows them once it is
/// turned.
pub fn labels_after_set()
    ensures store { (masters : MasterKeys) → HaveDistinctPatterns masters
        → HaveDistinctPatterns (after_turn masters)
        → (image : List ℕ) (s : List (Option Entry)) → any_old s ≡ false
        → StandsForLabels masters image s
        → StandsForLabels (after_turn masters) image (aged masters s) }
    ensures memory { (masters : MasterKeys) (rows : List (Option Row)) (image : List ℕ)
        (s : List (Option Entry)) → any_old s ≡ false → KeepsLabels masters rows s image
        → Agrees (after_turn masters) (map turned rows) (aged masters s) }
    ensures rows { (rows : List (Option Row)) (image : List ℕ)
        → HoldsRows rows image → HoldsRows (map turned rows) image }
{}

/// While no label is ahead, the new register may change: the store stands for the same labels, and the memory knows
/// them.
pub fn labels_while_none_is_ahead()
    ensures store { (masters next : MasterKeys) → next.current ≡ masters.current
        → next.former ≡ masters.former
        → (image : List ℕ) (s : List (Option Entry)) → any_ahead_entry s ≡ false
        → StandsForLabels masters image s → StandsForLabels next image s }
    ensures memory { (masters next : MasterKeys) → next.current ≡ masters.current
        → next.former ≡ masters.former
        → (rows : List (Option Row)) (s : List (Option Entry)) → any_ahead_entry s ≡ false
        → Agrees masters rows s → Agrees next rows s }
{}
