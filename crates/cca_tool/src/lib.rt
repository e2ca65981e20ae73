//! `cca`: requests in, replies out.
#![tactic(auto)]

mod auditing;
mod command;
mod coprocessor;
mod demo;
mod session;
mod showing;

pub use auditing::{AuditStatus, an_audited_run_notes_each_line, run_audited};
pub use cca_requests::perform;
pub use command::run;
pub use command_words::{Command, Words};
pub use line_service::{Device, Served, Stop};
pub use session::Session;
pub use showing::show_trail;
pub use store_unload::{MoveStatus, Status, unload};
pub use verb_script::Taken;
