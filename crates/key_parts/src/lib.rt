//! The verbs that bring a key in by parts, each of which says nothing of the key, and that translate a key from one
//! transport key to another.
#![tactic(auto)]

mod combining;
mod laws;
mod places;
mod translating;

pub use combining::{combine_part, first_part};
pub use laws::{a_key_in_parts, the_other_parts_say_nothing};
pub use translating::translate;
