//! The command `unload`: the disks are opened, and the keys of the store moved to another module, by a request file for it and
//! a report of what is kept back.
#![tactic(auto)]

mod judging;
mod lines;
mod opening;
mod sending;
mod status;
mod telling;
mod unloading;
mod writing;

pub use command_words::Move;
pub use judging::judge_move;
pub use opening::open_disks;
pub use status::{Status, status_of};
pub use unloading::{MoveStatus, unload};
pub use writing::{MoveFault, write_move};
