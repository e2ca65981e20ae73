//! The verbs that encipher and decipher a text, test a key, import a clear key and draw random bytes, over the clear
//! key that a judged token stands for.
#![tactic(auto)]

mod ciphering;
mod importing;
mod padding;
mod random;
mod testing;

pub use ciphering::{decipher, decipher_blocks, encipher, encipher_blocks};
pub use importing::clear_key_import;
pub use padding::{Pad, clear_text};
pub use random::{RandomForm, random_number};
pub use testing::key_test;
