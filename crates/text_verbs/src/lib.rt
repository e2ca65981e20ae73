//! What each verb over a text decides, over what its operands stand for.
//!
//! [`text_work`] tells what a request asks of a text, and [`over_text`] has the verb decide. No verb here sees a disk or
//! draws random bytes.
#![tactic(auto)]

mod code_segments;
mod codes;
mod segments;
mod texts;
mod whole_texts;
mod works;

pub use codes::Purpose;
pub use works::{TextWork, over_text, text_work};
