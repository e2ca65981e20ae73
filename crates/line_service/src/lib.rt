//! Lines: the buffer that takes them from a source of bytes, the one in which a reply line is written, and their service
//! one after another, for any machine that answers lines. All memory of a buffer is taken when it is made.
#![tactic(auto)]

mod desk;
mod devices;
mod lines;
mod reply;
mod running;
mod sending;
mod serving;
mod stops;

pub use desk::Desk;
pub use devices::{Shown, ShownOutside};
pub use lines::{
    INPUT_LIMIT, LINE_LIMIT, LineBuffer, LineFault, Taken, a_fault_loses_no_byte_of_a_line,
    read_line,
};
pub use reply::{REPLY_ROOM, ReplyBuffer};
pub use running::serve;
pub use sending::send;
pub use serving::{Served, answer_taken, serve_one};
pub use stops::{Device, Stop};
