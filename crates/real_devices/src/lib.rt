//! The real devices of the program: its files, locked, and the random source of the system; and why the
//! program ends otherwise than well, which is what a device that can't be had is told as.
#![tactic(auto)]

mod fault;
mod files;
mod streams;

pub use fault::Fault;
pub use files::{Folder, MODULE_LEN, STORE_LEN, TRAIL_LEN};
