//! Request lines: the grammar of the verbs, and the request that a line spells.
#![tactic(auto)]

mod digits;
mod fields;
mod labels;
mod laws;
mod parsing;
mod parts;
mod request;
mod rows;
mod values;
mod words;

pub use digits::decode;
pub use labels::named_label;
pub use laws::a_line_spells_one_request;
pub use line_service::{
    LINE_LIMIT, LineBuffer, LineFault, REPLY_ROOM, ReplyBuffer, Taken, read_line,
};
pub use parsing::parse_request;
pub use request::{FormFault, Request};
pub use rows::RequestName;
