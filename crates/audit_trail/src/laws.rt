//! Laws of trails, the contracts of calls that do nothing.
ghost use Rattle.std.specs.Prelude.{◌≡◌, ◌⊎◌, ℕ, List, length};
ghost use Rattle.audit_trail.specs.RecordBody.{Spells};
ghost use Rattle.audit_trail.specs.TrailStands.{trail_size, IsTrail, StandsForTrail, IsFirstDamaged};
ghost use Rattle.audit_trail.specs.declared.entries.Entry.{Entry};

use crate::trail::{CELLS, TRAIL_LEN};

/// A trail has 4,096 cells of 1,536 bytes.
pub fn a_trail_has_its_size()
    ensures cells { CELLS ≡ 4096 }
    ensures bytes { TRAIL_LEN ≡ trail_size }
{}

/// A body spells one record at most.
pub fn a_body_spells_one_record()
    ensures number { (bytes : List ℕ) (m n : ℕ) (e f : Entry)
        → Spells bytes m e → Spells bytes n f → m ≡ n }
    ensures entry { (bytes : List ℕ) (m n : ℕ) (e f : Entry)
        → Spells bytes m e → Spells bytes n f → e ≡ f }
{}

/// The bytes of a trail stand for entries or have a first damaged cell, and never both. All lists of entries for which
/// they stand have one length, and no other cell is the first damaged one.
pub fn a_trail_is_sound_or_damaged()
    ensures either { (image : List ℕ) → ((next : ℕ) × StandsForTrail image next)
        ⊎ ((cell : ℕ) × IsFirstDamaged image cell) }
    ensures never_both { (image : List ℕ) (es : List Entry) (cell : ℕ)
        → IsTrail image es → IsFirstDamaged image cell → ⊥ }
    ensures one_length { (image : List ℕ) (es fs : List Entry)
        → IsTrail image es → IsTrail image fs → length es ≡ length fs }
    ensures one_cell { (image : List ℕ) (cell other : ℕ)
        → IsFirstDamaged image cell → IsFirstDamaged image other → cell ≡ other }
{}
