//! Names of roles.
ghost use Rattle.std.specs.Prelude.{◌≡◌};
ghost use Rattle.cca_roles.specs.RoleNames.{default_name, is_role_name};
ghost use Rattle.std.proofs.Common.{arith};
ghost use Rattle.cca_roles.specs.NameLaws.{role_short};

use crate::formed_texts::{Form, FormedText};
use crate::forms::is_role_name;

/// The form of a role's name.
pub struct RoleForm;

/// A role's name: 1 to 8 characters of A to Z and 0 to 9, of which the first is a letter.
pub type RoleName = FormedText<RoleForm, 8>;

impl Form<8> for RoleForm {
    ghost has = { is_role_name };

    ghost short = { (role_short, omega arith) };

    fn is(text: &[u8]) -> bool {
        is_role_name(text)
    }
}

/// DEFAULT, the role that each module has.
#[tactic(auto, unfolding(crate::specs::RoleNames::is_role_name))]
pub fn default_role() -> RoleName
    ensures { result ≡ default_name }
{
    RoleName::of(b"DEFAULT")
}
