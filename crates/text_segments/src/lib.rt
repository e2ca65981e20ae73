//! Texts of any length in segments, enciphered, deciphered or given a message authentication code under the clear key
//! that a judged token stands for. The caller keeps the chain between two segments.
#![tactic(auto)]

mod chains;
mod ciphering;
mod codes;
mod laws;
mod modes;
mod places;
mod segments;

pub use chains::Chain;
pub use codes::last_mac;
pub use laws::{cut_codes_are_whole, cut_texts_are_whole};
pub use modes::Mode;
pub use segments::{last_text, segment};
