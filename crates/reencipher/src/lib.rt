//! The store under a new master key, and ahead of one.
#![tactic(auto)]

mod laws;
mod running;
mod tokens;
mod turns;
mod writing;

pub use key_records::is_taken;
pub use laws::reruns_end_as_one_run;
pub use record_bodies::StoreAction;
pub use running::{ahead, drop_ahead, reencipher};
