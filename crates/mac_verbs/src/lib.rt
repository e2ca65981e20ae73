//! The verbs that make and verify a message authentication code, over the clear key that a judged token stands for.
#![tactic(auto)]

mod codes;

pub use codes::{mac_generate, mac_verify};
