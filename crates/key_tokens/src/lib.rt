//! Key tokens: 64 bytes that carry an enciphered key with its control vector.
#![tactic(auto)]

mod denoting;
mod key_token;
mod reading;
mod validation;
mod writing;

pub use denoting::tokens_denote_one_key;
pub use key_token::{Age, Asked, Kind, Token, TokenFault};
pub use multi_encipher::Sealed;
pub use reading::read_token;
pub use validation::tvv;
pub use writing::write_token;
