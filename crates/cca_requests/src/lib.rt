//! Requests, each judged, decided and carried out.
//!
//! A request goes through [`perform`]: the registers are loaded, the rules of the request as a whole and of its operands
//! are judged, its verb decides over what the operands stand for, and what the verb decided is carried out. Only the last
//! of these writes a disk.
#![tactic(auto)]

mod changes;
mod changing_module;
mod changing_store;
mod deciding;
mod effects;
mod endings;
mod performing;

pub use line_service::{Device, Stop};
pub use performing::perform;
