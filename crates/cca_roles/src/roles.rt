//! The roles that are held, as the memory knows them.
ghost use Rattle.std.specs.Prelude.{◌≡◌, ◌≢◌, ◌+◌, ◌≤◌, ◌<◌, None, Some, length, set};
ghost use Rattle.std.specs.Prelude.{IfSome, IsNone, IsTrue, IsFalse, option_map};
ghost use Rattle.cca_roles.specs.Directory.{place_of, free_place, AreApart, IsFresh, IsHeld};
ghost use Rattle.cca_roles.specs.Points.{includes};
ghost use Rattle.cca_roles.specs.Roles.{AreRoles, blank_roles, names, name_of, points_of};
ghost use Rattle.cca_roles.specs.RoleNames.{default_name};

use crate::access_points::AccessPoints;
use crate::names::{RoleName, default_role};
use std::marker::Model;

/// The bytes of a module: a cell for the master key registers, and one for each of 32 roles.
pub const MODULE_LEN: u64 = 50_688;

/// A role.
#[derive(Clone, Copy, Debug, PartialEq, Eq)]
pub struct Role {
    /// Its name.
    pub name: RoleName,
    /// What it may do.
    pub points: AccessPoints,
}

/// The roles of a module, each in its place. DEFAULT stands in the first.
#[derive(Drop)]
pub struct Roles {
    places: [Option<Role>; 32],
}

// Clauses see a list of 32 places.
impl Model for Roles {
    ghost use Rattle.std.specs.Prelude.{List, Option};
    ghost use Rattle.cca_roles.specs.Roles.{AreRoles};
    ghost use Rattle.cca_roles.specs.declared.roles.Role.{Role};

    ghost Value = { List (Option Role) };

    ghost view = { λ r. r.places };

    ghost invariant = { λ r. AreRoles r.places };
}

impl Roles {
    /// The roles of a blank module: DEFAULT with every point.
    pub fn new() -> Roles
        ensures { result ≡ blank_roles }
    {
        let mut places = [None; 32];
        places[0] = Some(Role {
            name: default_role(),
            points: AccessPoints::all(),
        });
        Roles { places }
    }

    /// Whether the role has these points; none where no role has the name.
    pub fn permits(&self, name: &RoleName, points: AccessPoints) -> Option<bool>
        ensures { result
            ≡ option_map (λ held. includes held points) (points_of name.now self.now) }
    {
        match points_in(&self.places, name) {
            Some(held) => Some(held.contains(points)),
            None => None,
        }
    }

    /// The place of a name.
    pub(crate) fn place_of(&self, name: &RoleName) -> Option<usize>
        ensures found { result ≡ place_of name.now (names self.now) }
        ensures within { IfSome result (λ place. place < 32) }
        ensures roles { AreRoles self.now }
    {
        find_in(&self.places, name)
    }

    /// The lowest place without a role.
    pub(crate) fn free_place(&self) -> Option<usize>
        ensures none { IsNone result → free_place (names self.now) ≡ 32 }
        ensures free { IfSome result (λ place. place ≡ free_place (names self.now)) }
        ensures within { IfSome result (λ place. place < 32) }
        ensures roles { AreRoles self.now }
    {
        free_in(&self.places)
    }

    /// Puts a role, or none, into a place where no other place holds its name.
    pub(crate) fn put(&mut self, place: usize, slot: Option<Role>) -> bool
        requires within { place < 32 }
        requires not_first { place ≢ 0 }
        ensures put { IsTrue result → self.new ≡ set self.old place slot }
        ensures held { IsFalse result → IsHeld (name_of slot) (names self.old) }
        ensures roles { AreRoles self.new }
    {
        let _places = &self.places;
        if self.holds_name_of(&slot) {
            return false;
        }
        self.set_place(place, slot);
        true
    }

    /// Whether a place holds the name of a role.
    fn holds_name_of(&self, slot: &Option<Role>) -> bool
        ensures held { IsTrue result → IsHeld (name_of slot.now) (names self.now) }
        ensures fresh { IsFalse result → IsFresh (name_of slot.now) (names self.now) }
    {
        match slot {
            Some(role) => self.place_of(&role.name).is_some(),
            None => false,
        }
    }

    /// Makes the role of a place another one.
    pub(crate) fn set_place(&mut self, place: usize, slot: Option<Role>)
        requires within { place < 32 }
        requires first { place ≡ 0 → name_of slot ≡ Some default_name }
        requires apart { AreApart (set (names self.old) place (name_of slot)) }
        ensures set { self.new ≡ set self.old place slot }
        ensures roles { AreRoles self.new }
    {
        self.places[place] = slot;
    }
}

/// The points of the first role with this name.
fn points_in(places: &[Option<Role>], name: &RoleName) -> Option<AccessPoints>
    ensures { result ≡ points_of name.now places.now }
{
    for place in 0..places.len() {
        if let Some(role) = &places[place] {
            if role.name.is(name) {
                return Some(role.points);
            }
        }
    }
    None
}

/// The first place with this name.
fn find_in(places: &[Option<Role>], name: &RoleName) -> Option<usize>
    ensures found { result ≡ place_of name.now (names places.now) }
    ensures within { IfSome result (λ place. place < length places.now) }
{
    for place in 0..places.len() {
        if let Some(role) = &places[place] {
            if role.name.is(name) {
                return Some(place);
            }
        }
    }
    None
}

/// The first place without a role.
fn free_in(places: &[Option<Role>]) -> Option<usize>
    ensures free { IfSome result (λ place. place ≡ free_place (names places.now)) }
    ensures within { IfSome result (λ place. place < length places.now) }
    ensures none { IsNone result → free_place (names places.now) ≡ length places.now }
{
    for place in 0..places.len() {
        if places[place].is_none() {
            return Some(place);
        }
    }
    None
}
