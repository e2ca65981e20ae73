//! The key in a label's record, judged by what is needed of it, and the keys of a store, exported one by one for
//! another module.
#![tactic(auto)]

mod moving;
mod stored;
mod transport;

pub use moving::{Moved, unload_label};
pub use stored::judge_record;
pub use transport::judge_transport;
