//! Key tokens and the bodies of records, each from the tables of their formats. Every sealed word and pattern is from
//! other implementations of triple DES and SHA-1, Python's package `cryptography` and its library.

/// The key 0123456789abcdef under the master keys that count up and down.
pub(crate) const CURRENT: [u64; 8] = [
    0x0100_0000_0000_c000,
    0xcf5f_3c92_01ae_70a9,
    0xa2f7_dc8b_cb6e_c00c,
    0,
    0,
    0,
    0,
    0x4075_09d2,
];

pub(crate) const OLD: [u64; 8] = [
    0x0100_0000_0000_c000,
    0x246f_e01f_94fd_ae31,
    0xb137_c311_403a_081b,
    0,
    0,
    0,
    0,
    0xabe0_197c,
];

/// The words of a token, of which some are others.
pub(crate) fn with_words(words: [u64; 8], others: &[(usize, u64)]) -> [u64; 8] {
    let mut changed = words;
    for (at, word) in others {
        changed[at % 8] = *word;
    }
    changed
}

/// A token by its words.
pub(crate) fn bytes_of(words: &[u64; 8]) -> [u8; 64] {
    let mut bytes = [0; 64];
    for at in 0..8 {
        bytes[8 * at..8 * at + 8].copy_from_slice(&words[at].to_be_bytes());
    }
    bytes
}

/// A token of a kind with a pattern, the enciphered halves of its key, its control vector and its validation value.
pub(crate) fn token_of(
    kind: u8,
    pattern: u64,
    sealed: [u64; 2],
    vector: [u64; 2],
    value: u64,
) -> [u8; 64] {
    let mut bytes = bytes_of(&[
        0xc000, pattern, sealed[0], sealed[1], vector[0], vector[1], 0, value,
    ]);
    bytes[0] = kind;
    bytes
}

/// The body of a record.
pub(crate) fn body_of(kind: u8, text: &[u8], token: &[u8; 64]) -> [u8; 192] {
    let mut body = [0; 192];
    body[0] = kind;
    let length = text.len().min(64);
    body[1] = length as u8;
    for at in 0..length {
        body[2 + at] = text[at];
    }
    body[66..130].copy_from_slice(token);
    body
}

/// The body of a key with two tokens: of the second one its pattern and its halves.
pub(crate) fn both_of(text: &[u8], first: &[u8; 64], second: &[u8; 64]) -> [u8; 192] {
    let mut body = body_of(3, text, first);
    body[130..154].copy_from_slice(&second[8..32]);
    body
}

/// A body with the byte at one place another one.
pub(crate) fn with_byte(body: [u8; 192], at: usize, byte: u8) -> [u8; 192] {
    let mut changed = body;
    changed[at % 192] = byte;
    changed
}
