//! An audit trail: numbered records in the cells of a disk of their own, the newest of which are held.
#![tactic(auto)]

mod bodies;
mod entries;
mod faults;
mod fields;
mod laws;
mod opening;
mod trail;

pub use entries::Entry;
pub use faults::TrailFault;
pub use laws::{a_body_spells_one_record, a_trail_has_its_size, a_trail_is_sound_or_damaged};
pub use opening::open_trail;
pub use trail::{CELLS, TRAIL_LEN, Trail};
