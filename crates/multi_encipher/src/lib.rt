//! Multiple encipherment: the halves of a key, each enciphered by itself under the three keys of a bundle, each XORed
//! with the control vector of that half.
#![tactic(auto)]

mod halves;
mod mixing;
mod sealing;

pub use halves::{Sealed, Under};
pub use mixing::put_schedule;
pub use sealing::{seal, seal_is_one_to_one, unseal};
