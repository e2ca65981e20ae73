//! DES and triple DES (FIPS 46-3) of a block, and the key schedule.
#![tactic(auto)]

mod blocks;
mod box_tables;
mod cipher;
mod final_tables;
mod gathering;
mod initial_tables;
mod key_schedule;
mod key_tables;
mod laws;
mod table_rows;
mod words;

pub use blocks::{
    Halves, decipher_block, decipher_two, decipher_word, ded, ded_two, ded_word, ede, ede_word,
    encipher_block, encipher_next, final_block, initial_halves,
};
pub use key_schedule::{schedule, xor_schedule};
pub use laws::{
    deciphering_undoes_enciphering, ded_undoes_ede, ded_undoes_ede_of_bytes, key_schedule_is_linear,
};
pub use words::word_at;
