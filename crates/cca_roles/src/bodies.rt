//! A role as the body of a cell.
ghost use Rattle.std.specs.Prelude.{◌≡◌, ◌≢◌, ◌↔◌, ◌≤◌, ◌<◌, Option, None, Some, IfSome, IsNone, IsTrue};
ghost use Rattle.cca_roles.specs.Points.{ArePoints};
ghost use Rattle.cca_roles.specs.RoleBody.{blank_body, name_in, points_in, role_in, slot_in};
ghost use Rattle.cca_roles.specs.RoleBody.{ReadsRole, ReadsPlace};
ghost use Rattle.cca_roles.specs.RoleNames.{IsRoleName};
ghost use Rattle.cca_roles.specs.declared.roles.Role.{Role};

use crate::access_points::AccessPoints;
use crate::names::{RoleName, default_role};
use crate::roles::Role;
use key_cells::is_zero;

/// What byte 0 is.
const VERSION: u8 = 1;

/// Writes the body of a role.
pub(crate) fn write_role(body: &mut [u8; 192], role: &Role)
    ensures { ReadsRole body.new role.now }
{
    let points = role.points.bits().to_be_bytes();
    body.fill(0);
    body[0] = VERSION;
    body[1] = role.name.length();
    body[2..10].copy_from_slice(role.name.filled());
    body[10..14].copy_from_slice(&points);
}

/// Writes the body of a cell that holds no role.
pub(crate) fn write_blank(body: &mut [u8; 192])
    ensures { body.new ≡ blank_body }
{
    body.fill(0);
}

fn is_blank(body: &[u8; 192]) -> bool
    ensures { IsTrue result ↔ (body.now ≡ blank_body) }
{
    is_zero(body)
}

/// Whether the body is that of the role.
fn is_body_of(body: &[u8; 192], role: &Role) -> bool
    ensures { IsTrue result ↔ ReadsRole body.now role.now }
{
    let mut spelled = [0; 192];
    write_role(&mut spelled, role);
    *body == spelled
}

/// The name that stands in a body.
fn name_in(body: &[u8; 192]) -> Option<RoleName>
    ensures found { IfSome result (λ name. name ≡ name_in body.now) }
    ensures none { IsNone result → IsRoleName (name_in body.now) → ⊥ }
{
    let length = body[1] as usize;
    if length > 8 {
        return None;
    }
    RoleName::read(&body[2..2 + length])
}

/// The points that stand in a body.
fn points_in(body: &[u8; 192]) -> Option<AccessPoints>
    ensures found { IfSome result (λ points. points ≡ points_in body.now) }
    ensures none { IsNone result → ArePoints (points_in body.now) → ⊥ }
{
    let mut bytes = [0; 4];
    bytes.copy_from_slice(&body[10..14]);
    AccessPoints::from_bits(u32::from_be_bytes(bytes))
}

/// The role of a body.
fn read_role(body: &[u8; 192]) -> Option<Role>
    ensures found { IfSome result (λ r. r ≡ role_in body.now) }
    ensures reads { IfSome result (ReadsRole body.now) }
    ensures none { IsNone result → (r : Role) → ReadsRole body.now r → ⊥ }
{
    let name = name_in(body)?;
    let points = points_in(body)?;
    let role = Role { name, points };
    if is_body_of(body, &role) {
        Some(role)
    } else {
        None
    }
}

/// What the body of a place after the first reads as: a role, or none where it is blank. The outer
/// answer is none where it reads as nothing.
pub(crate) fn read_slot(body: &[u8; 192], place: usize) -> Option<Option<Role>>
    requires { place ≢ 0 }
    ensures found { IfSome result (λ slot. slot ≡ slot_in place body.now) }
    ensures reads { IfSome result (ReadsPlace place body.now) }
    ensures none { IsNone result → (slot : Option Role) → ReadsPlace place body.now slot → ⊥ }
{
    if is_blank(body) {
        return Some(None);
    }
    match read_role(body) {
        Some(role) => Some(Some(role)),
        None => None,
    }
}

/// What the body of the first place reads as: DEFAULT, with every point where it is blank.
pub(crate) fn read_default(body: &[u8; 192]) -> Option<Role>
    ensures found { IfSome result (λ r. Some r ≡ slot_in 0 body.now) }
    ensures reads { IfSome result (λ r. ReadsPlace 0 body.now (Some r)) }
    ensures none { IsNone result → (slot : Option Role) → ReadsPlace 0 body.now slot → ⊥ }
{
    let default_name = default_role();
    if is_blank(body) {
        return Some(Role {
            name: default_name,
            points: AccessPoints::all(),
        });
    }
    let role = read_role(body)?;
    if role.name.is(&default_name) {
        Some(role)
    } else {
        None
    }
}
