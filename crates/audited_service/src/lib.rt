//! Lines served one after another, each recorded on a trail before its reply is sent; what the trail says of a request line and
//! of its reply; and the records that a trail holds, as lines of text.
#![tactic(auto)]

mod auditing;
mod entries;
mod laws;
mod line_scribe;
mod lines;
mod listing;
mod recording;
mod running;
mod scribe;

pub use entries::{line_entry, long_line_entry};
pub use laws::a_session_with_entries_is_the_session;
pub use line_scribe::LineScribe;
pub use listing::{ListFault, list_trail};
pub use recording::record_line;
pub use running::serve_audited;
pub use scribe::Scribe;
