//! The devices that the program stands on: byte sources and sinks, random bytes and disks that may fail, over std's
//! streams and files, and the cells of a disk.
#![tactic(auto)]

mod blank;
mod cell;
mod disk;
mod entropy;
mod errors;
mod faults;
mod file_disk;
mod sink;
mod source;
mod steps;
mod streams;

pub use blank::BlankEntropy;
pub use cell::{BODY_LEN, CELL_LEN, Cell, SECTOR_LEN, read_cell, replace_cell, settle};
pub use disk::Disk;
pub use entropy::Entropy;
pub use errors::{Failed, NoMemory};
pub use faults::count_one;
pub use file_disk::FileDisk;
pub use sink::Sink;
pub use source::Source;
pub use steps::Steps;
pub use streams::{StreamEntropy, StreamSink, StreamSource};
