//! What a module can stand for.
ghost use Rattle.std.specs.Prelude.{◌≡◌, ◌<◌, ◌⊎◌, ℕ, List, Option};
ghost use Rattle.cca_roles.specs.RolesStand.{StandsForRoles, IsFirstDamaged, roles_in};
ghost use Rattle.cca_roles.specs.declared.roles.Role.{Role};

/// A module stands for at most one table of roles, and one that does has no damaged cell. Every module
/// stands for a table of roles or has a first damaged cell.
pub fn a_module_stands_for_one_table_of_roles()
    ensures one { (image : List ℕ) (s t : List (Option Role))
        → StandsForRoles image s → StandsForRoles image t → s ≡ t }
    ensures sound { (image : List ℕ) (s : List (Option Role)) (cell : ℕ)
        → StandsForRoles image s → IsFirstDamaged image cell → ⊥ }
    ensures whole { (image : List ℕ)
        → StandsForRoles image (roles_in image) ⊎ ((cell : ℕ) × IsFirstDamaged image cell) }
{}
