//! The three master key registers of a module: its cell 0, their places in the workbench, and the actions of a
//! key ceremony.
//!
//! The new register is empty, partly full or full, the current and the old one are empty or full. FIRST puts a part
//! into new, MIDDLE and LAST XOR a further part into it, CLEAR empties it, and SET moves current to old and new to
//! current.
#![tactic(auto)]

mod actions;
mod changes;
mod combining;
mod faults;
mod forms;
mod loading;
mod moves;
mod patterns;
mod prepared;
mod registers;

pub use actions::Action;
pub use changes::{clear, first, last, middle, set};
pub use combining::xor_secret;
pub use faults::{LoadFault, RegisterFault};
pub use loading::{a_body_reads_as_one, load};
pub use patterns::{Pattern, has_pattern, pattern_of};
pub use registers::{NewState, Registers};
