//! The words of a command line, and the lines of a demo with the count of their replies and its summary.
#![tactic(auto)]

mod counts;
mod demo_lines;
mod demo_text;
mod history;
mod moves;
mod summary;
mod tally;
mod unused;
mod words;

pub use demo_text::DemoText;
pub use moves::Move;
pub use summary::put_summary;
pub use tally::Tally;
pub use unused::Unused;
pub use words::{Command, Words};
