//! Changes of one role. Each writes one cell: a stop at any moment leaves the roles before or after.
ghost use Rattle.std.specs.Prelude.{◌≡◌, ◌≢◌, ◌↔◌, ◌⊎◌, ◌+◌, ◌*◌, ◌≤◌, ◌<◌, ℕ, Option, None, Some, Result, Ok, Err, set, IfErr, IfSome, IsNone, IsTrue};
ghost use Rattle.device_cells.specs.Medium.{Told, IsSettled};
ghost use Rattle.cca_roles.specs.Changes.{ChangesRoles, ReplacesBody, Remembers, HasRoleCause, KeepsAllButBody};
ghost use Rattle.cca_roles.specs.Directory.{AreApart};
ghost use Rattle.cca_roles.specs.RoleBody.{ReadsPlace, blank_body, role_body};
ghost use Rattle.cca_roles.specs.RoleNames.{default_name};
ghost use Rattle.cca_roles.specs.Roles.{names, name_of, define_place, after_define, define_refused};
ghost use Rattle.cca_roles.specs.Roles.{remove_place, after_remove, remove_refused};
ghost use Rattle.cca_roles.specs.RolesStand.{StandsForRoles};

use crate::access_points::AccessPoints;
use crate::bodies::{write_blank, write_role};
use crate::faults::RoleFault;
use crate::names::RoleName;
use crate::roles::{MODULE_LEN, Role, Roles};
use device_cells::{Cell, Disk, replace_cell};
use key_cells::Lease;

impl Roles {
    /// DEFINE: gives a role these points. A held name keeps its cell, and a new one goes into the lowest
    /// cell without a role. After `DiskFault` the roles are to be opened again.
    pub fn define<M: Disk>(
        &mut self,
        module: &mut M,
        lease: &mut Lease,
        name: &RoleName,
        points: AccessPoints,
    ) -> Result<(), RoleFault>
        requires size { (M.medium «module».old).size ≡ MODULE_LEN }
        requires settled { IsSettled (M.medium «module».old) }
        requires stands { Told (M.medium «module».old) (λ image. StandsForRoles image self.old) }

        ensures changed { ChangesRoles (define_place name.now self.old)
            self.old (after_define name.now points self.old)
            (M.medium «module».old) (M.medium «module».new) result }
        ensures written { result ≢ Err RoleFault.TableFull
            → ReplacesBody (define_place name.now self.old + 1) (role_body name.now points)
            (M.medium «module».old) (M.medium «module».new) result }
        ensures memory { Remembers
            self.old (after_define name.now points self.old) self.new result }
        ensures rest { KeepsAllButBody lease.old lease.new }
        ensures cause { HasRoleCause (M.faults «module».old) (M.faults «module».new) result }
        ensures faults { IfErr result (λ fault.
            (fault ≡ RoleFault.DiskFault) ⊎ (fault ≡ RoleFault.TableFull)) }

        // a full table refuses a new name, and nothing is touched
        ensures full { (result ≡ Err RoleFault.TableFull)
            ↔ IsTrue (define_refused name.now self.old) }
        ensures untouched { result ≡ Err RoleFault.TableFull → «module».new ≡ «module».old }
        ensures lease_untouched { result ≡ Err RoleFault.TableFull → lease.new ≡ lease.old }
    {
        let place = match self.define_place(name) {
            Some(place) => place,
            None => return Err(RoleFault::TableFull),
        };
        let role = Role {
            name: *name,
            points,
        };
        write_role(lease.body_mut(), &role);
        self.change(module, place, lease.body(), Some(role))
    }

    /// REMOVE: the role is no longer held. After `DiskFault` the roles are to be opened again.
    pub fn remove<M: Disk>(
        &mut self,
        module: &mut M,
        lease: &mut Lease,
        name: &RoleName,
    ) -> Result<(), RoleFault>
        requires size { (M.medium «module».old).size ≡ MODULE_LEN }
        requires settled { IsSettled (M.medium «module».old) }
        requires stands { Told (M.medium «module».old) (λ image. StandsForRoles image self.old) }
        requires name { name.now ≢ default_name }

        ensures changed { ChangesRoles (remove_place name.now self.old)
            self.old (after_remove name.now self.old)
            (M.medium «module».old) (M.medium «module».new) result }
        ensures written { result ≢ Err RoleFault.Unknown
            → ReplacesBody (remove_place name.now self.old + 1) blank_body
            (M.medium «module».old) (M.medium «module».new) result }
        ensures memory { Remembers self.old (after_remove name.now self.old) self.new result }
        ensures rest { KeepsAllButBody lease.old lease.new }
        ensures cause { HasRoleCause (M.faults «module».old) (M.faults «module».new) result }
        ensures faults { IfErr result (λ fault.
            (fault ≡ RoleFault.DiskFault) ⊎ (fault ≡ RoleFault.Unknown)) }

        // a name that isn't held is refused, and nothing is touched
        ensures unknown { (result ≡ Err RoleFault.Unknown)
            ↔ IsTrue (remove_refused name.now self.old) }
        ensures untouched { result ≡ Err RoleFault.Unknown → «module».new ≡ «module».old }
        ensures lease_untouched { result ≡ Err RoleFault.Unknown → lease.new ≡ lease.old }
    {
        let place = match self.place_of(name) {
            Some(place) => place,
            None => return Err(RoleFault::Unknown),
        };
        write_blank(lease.body_mut());
        self.change(module, place, lease.body(), None)
    }

    /// Where a role of this name is defined: in its place, or else in the lowest one that is free.
    fn define_place(&self, name: &RoleName) -> Option<usize>
        ensures place { IfSome result (λ place. place ≡ define_place name.now self.now) }
        ensures within { IfSome result (λ place. place < 32) }
        ensures none { IsNone result ↔ IsTrue (define_refused name.now self.now) }
        ensures first { IfSome result (λ place. place ≡ 0 → name.now ≡ default_name) }
        ensures apart { IfSome result
            (λ place. AreApart (set (names self.now) place (Some name.now))) }
    {
        match self.place_of(name) {
            Some(place) => Some(place),
            None => self.free_place(),
        }
    }

    /// Writes the body of the workbench into the cell of a place, and remembers what it holds.
    fn change<M: Disk>(
        &mut self,
        module: &mut M,
        place: usize,
        body: &[u8; 192],
        slot: Option<Role>,
    ) -> Result<(), RoleFault>
        requires within { place < 32 }
        requires size { (M.medium «module».old).size ≡ MODULE_LEN }
        requires settled { IsSettled (M.medium «module».old) }
        requires reads { ReadsPlace place body.now slot }
        requires first { place ≡ 0 → name_of slot ≡ Some default_name }
        requires apart { AreApart (set (names self.old) place (name_of slot)) }
        requires stands { Told (M.medium «module».old) (λ image. StandsForRoles image self.old) }
        ensures changed { ChangesRoles place self.old (set self.old place slot)
            (M.medium «module».old) (M.medium «module».new) result }
        ensures written { ReplacesBody (place + 1) body.now
            (M.medium «module».old) (M.medium «module».new) result }
        ensures memory { Remembers self.old (set self.old place slot) self.new result }
        ensures faults { IfErr result (λ fault. fault ≡ RoleFault.DiskFault) }
        ensures cause { HasRoleCause (M.faults «module».old) (M.faults «module».new) result }
    {
        if replace_cell(module, Cell::new(place as u16 + 1), body).is_err() {
            return Err(RoleFault::DiskFault);
        }
        self.set_place(place, slot);
        Ok(())
    }
}
