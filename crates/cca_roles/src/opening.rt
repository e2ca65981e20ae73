//! Opening a module: the cells of its roles are read upwards.
ghost use Rattle.std.specs.Prelude.{◌≡◌, ◌≢◌, ◌+◌, ◌*◌, ◌≤◌, ◌<◌, ◌⊎◌, ℕ, Result, Err, OnOk, OnErr, IfErr};
ghost use Rattle.device_cells.specs.Cells.{body};
ghost use Rattle.device_cells.specs.Faults.{Rose};
ghost use Rattle.device_cells.specs.Medium.{Told, Keeps};
ghost use Rattle.cca_roles.specs.Changes.{HasRoleCause, KeepsAllButBody};
ghost use Rattle.cca_roles.specs.Opening.{Opens, IsRefused, OpenedTo};
ghost use Rattle.cca_roles.specs.Roles.{AreRoles, blank_roles};
ghost use Rattle.cca_roles.specs.RolesStand.{StandsForRoles, IsFirstDamaged, IsRoleCell};

use crate::bodies::{read_default, read_slot};
use crate::faults::RoleFault;
use crate::roles::{MODULE_LEN, Roles};
use device_cells::{Cell, Disk, read_cell};
use key_cells::Lease;

/// Reads cells 1 to 32 once each, upwards. Damaged names the first cell that reads as no role, or as one
/// whose name a lower cell holds. After an error the memory is as before.
pub fn open_roles<M: Disk>(
    module: &mut M,
    lease: &mut Lease,
    roles: &mut Roles,
) -> Result<(), RoleFault>
    requires size { (M.medium «module».old).size ≡ MODULE_LEN }
    ensures stands { OnOk result
        (Told (M.medium «module».new) (λ image. StandsForRoles image roles.new)) }
    ensures unopened { OnErr result (roles.new ≡ roles.old) }
    ensures damaged { (cell : ℕ) → result ≡ Err (RoleFault.Damaged cell)
        → Told (M.medium «module».old) (λ image. IsFirstDamaged image cell) }
    ensures exact { (Rose (M.faults «module».old) (M.faults «module».new) → ⊥)
        → Told (M.medium «module».old) (λ image. (cell : ℕ) → IsFirstDamaged image cell
        → result ≡ Err (RoleFault.Damaged cell)) }
    ensures faults { IfErr result (λ fault. (fault ≡ RoleFault.DiskFault)
        ⊎ ((cell : ℕ) × IsRoleCell cell × (fault ≡ RoleFault.Damaged cell))) }
    ensures keeps { Keeps (M.medium «module».old) (M.medium «module».new) }
    ensures cause { HasRoleCause (M.faults «module».old) (M.faults «module».new) result }
    ensures rest { KeepsAllButBody lease.old lease.new }
{
    let mut opened = Roles::new();
    open_default(module, lease, &mut opened)?;
    for place in 1..32 {
        open_place(module, lease, &mut opened, place)?;
    }
    *roles = opened;
    Ok(())
}

/// Reads cell 1.
fn open_default<M: Disk>(
    module: &mut M,
    lease: &mut Lease,
    roles: &mut Roles,
) -> Result<(), RoleFault>
    requires size { (M.medium «module».old).size ≡ MODULE_LEN }
    requires blank { roles.old ≡ blank_roles }
    ensures opened { OnOk result
        (Told (M.medium «module».old) (λ image. OpenedTo image 1 roles.new)) }
    ensures roles { AreRoles roles.new }
    ensures damaged { (cell : ℕ) → result ≡ Err (RoleFault.Damaged cell)
        → Told (M.medium «module».old) (λ image. IsFirstDamaged image cell) }
    ensures faults { IfErr result (λ fault.
        (fault ≡ RoleFault.DiskFault) ⊎ (fault ≡ RoleFault.Damaged 1)) }
    ensures keeps { Keeps (M.medium «module».old) (M.medium «module».new) }
    ensures cause { HasRoleCause (M.faults «module».old) (M.faults «module».new) result }
    ensures rest { KeepsAllButBody lease.old lease.new }
{
    if read_cell(module, Cell::new(1), lease.body_mut()).is_err() {
        return Err(RoleFault::DiskFault);
    }
    match read_default(lease.body()) {
        Some(role) => {
            roles.set_place(0, Some(role));
            Ok(())
        }
        None => Err(RoleFault::Damaged(1)),
    }
}

/// Reads the cell of a place after the first.
fn open_place<M: Disk>(
    module: &mut M,
    lease: &mut Lease,
    roles: &mut Roles,
    place: usize,
) -> Result<(), RoleFault>
    requires size { (M.medium «module».old).size ≡ MODULE_LEN }
    requires within { place < 32 }
    requires not_first { place ≢ 0 }
    requires roles { AreRoles roles.old }
    ensures opened { OnOk result (Told (M.medium «module».old)
        (λ image. Opens (body image (place + 1)) place roles.old roles.new)) }
    ensures roles { AreRoles roles.new }
    ensures damaged { (cell : ℕ) → result ≡ Err (RoleFault.Damaged cell)
        → (cell ≡ place + 1) × Told (M.medium «module».old)
        (λ image. IsRefused (body image (place + 1)) place roles.old) }
    ensures faults { IfErr result (λ fault.
        (fault ≡ RoleFault.DiskFault) ⊎ (fault ≡ RoleFault.Damaged (place + 1))) }
    ensures keeps { Keeps (M.medium «module».old) (M.medium «module».new) }
    ensures cause { HasRoleCause (M.faults «module».old) (M.faults «module».new) result }
    ensures rest { KeepsAllButBody lease.old lease.new }
{
    let cell = place as u16 + 1;
    if read_cell(module, Cell::new(cell), lease.body_mut()).is_err() {
        return Err(RoleFault::DiskFault);
    }
    match read_slot(lease.body(), place) {
        Some(slot) => {
            if roles.put(place, slot) {
                Ok(())
            } else {
                Err(RoleFault::Damaged(cell))
            }
        }
        None => Err(RoleFault::Damaged(cell)),
    }
}
