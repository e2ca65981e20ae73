//! What a verb leaves to be done.

use crate::refusals::Refusal;
use cca_roles::{AccessPoints, RoleName};
use master_registers::Action;
use record_bodies::{Label, Place, StoreAction};

/// What a verb leaves to be done.
#[derive(Clone, Copy)]
pub enum Effect {
    /// A rule of the verb is broken.
    Refused(Refusal),
    /// The reply has its fields.
    Shown,
    /// An action on the registers, with the key part in the workbench.
    Change(Action),
    /// A role gets these access control points.
    DefineRole(RoleName, AccessPoints),
    /// A role is no longer held.
    RemoveRole(RoleName),
    /// A label is held, with nothing in its record.
    Create(Label),
    /// The record at this place gets the key of this token; the reply has its fields.
    Write(Place, [u8; 64]),
    /// The label at this place is no longer held.
    Delete(Place),
    /// Every label becomes what the action makes of it.
    Reencipher(StoreAction),
}
