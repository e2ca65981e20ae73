//! The verbs that generate keys, export and import them under transport keys, forbid their export, and change the
//! master key that they are under, over the clear keys that judged tokens stand for.
#![tactic(auto)]

mod changing;
mod exporting;
mod generating;
mod importing;
mod prohibiting;
mod writing;

pub use changing::{Target, a_new_token_is_current_once_set, token_change};
pub use exporting::export;
pub use generating::{Form, GenerateFault, Generated, generate, vector_for};
pub use importing::import;
pub use prohibiting::prohibit_export;
pub use writing::write_under;
