//! The rules that a request is judged by, and the calls that name the first one that an operand breaks. And the keys of
//! judged tokens in the workbench: put into a place, their schedules, the token that is written for a key, and the parity
//! of key bytes.
#![tactic(auto)]

mod classes;
mod combining;
mod judging;
mod lengths;
mod needs;
mod opening;
mod parity;
mod rules;
mod scheduling;
mod types;
mod writing;

pub use cca_vectors::{KeyType, Usage};
pub use classes::Classes;
pub use combining::judge_part;
pub use judging::{Judged, judge_key, judge_stored, token_rule};
pub use key_tokens::{Age, Asked};
pub use lengths::{MacRule, TextUse, judge_mac, judge_text};
pub use needs::{EVERY_CLASS, Need, any_key, exported_key, transport_key};
pub use opening::open_key;
pub use parity::{set_even_parity, set_odd_parity};
pub use rules::Rule;
pub use scheduling::schedule_key;
pub use types::{judge_length, judge_pair, judge_size};
pub use writing::write_current;
