//! Deciphering in a chain (FIPS 81) by DES and triple DES of FIPS 46-3, 128 blocks side by side.

mod boxes;
mod chains;
mod ciphers;
mod rounds;
mod transposition;

pub(crate) use chains::{decipher_end, decipher_part};
