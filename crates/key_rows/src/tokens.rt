//! Tokens that are read and written, and tokens with one byte or one bit changed.
use cca_vectors::Class;
use key_tokens::{Asked, Kind, TokenFault, read_token, tvv, write_token};

/// A single-length DATA key under a transport key, with a zero control vector.
const DATA_TOKEN: [u32; 16] = [
    0x0200_0000,
    0x0000_c000,
    0,
    0,
    0x8ca6_4de9,
    0xc1b1_23a7,
    0,
    0,
    0,
    0,
    0,
    0,
    0,
    0,
    0,
    0x5058_3190,
];

/// The DATA token with the other flag.
const SHORT_TOKEN: [u32; 16] = [
    0x0200_0000,
    0x0000_8000,
    0,
    0,
    0x8ca6_4de9,
    0xc1b1_23a7,
    0,
    0,
    0,
    0,
    0,
    0,
    0,
    0,
    0,
    0x5057_f190,
];

/// A double-length EXPORTER key under a transport key.
const EXPORTER_TOKEN: [u32; 16] = [
    0x0200_0000,
    0x0000_c000,
    0,
    0,
    0x1111_1111,
    0x1111_1111,
    0x2222_2222,
    0x2222_2222,
    0x0041_7d00,
    0x0341_0000,
    0x0041_7d00,
    0x0321_0000,
    0,
    0,
    0,
    0x6f4c_2066,
];

/// The same with halves that are guaranteed unique.
const UNIQUE_TOKEN: [u32; 16] = [
    0x0200_0000,
    0x0000_c000,
    0,
    0,
    0x1111_1111,
    0x1111_1111,
    0x2222_2222,
    0x2222_2222,
    0x0041_7d00,
    0x03c0_0000,
    0x0041_7d00,
    0x03a0_0000,
    0,
    0,
    0,
    0x704a_2066,
];

fn bytes_of(words: &[u32; 16]) -> [u8; 64] {
    let mut bytes = [0; 64];
    for i in 0..16 {
        bytes[4 * i..4 * i + 4].copy_from_slice(&words[i].to_be_bytes());
    }
    bytes
}

/// The token with its validation value made anew.
fn validated(mut bytes: [u8; 64]) -> [u8; 64] {
    let value = tvv(&bytes).to_be_bytes();
    bytes[60..].copy_from_slice(&value);
    bytes
}

/// The DATA token as an internal one with the pattern of a master key.
const INTERNAL_TOKEN: [u32; 16] = [
    0x0100_0000,
    0x0000_c000,
    0x5a5a_5a5a,
    0x5a5a_5a5a,
    0x8ca6_4de9,
    0xc1b1_23a7,
    0,
    0,
    0,
    0,
    0,
    0,
    0,
    0,
    0,
    0x040c_e644,
];

/// The kind, the pattern, the enciphered halves, the halves of the control vector, the class and the length of a token.
type Said = (Kind, u64, [u64; 2], [u64; 2], Class, usize);

/// What a token says, or the fault of it.
fn said(words: &[u32; 16], asked: Asked) -> Result<Said, TokenFault> {
    match read_token(&bytes_of(words), asked) {
        Ok(token) => Ok((
            token.kind,
            u64::from_be_bytes(token.pattern),
            [
                u64::from_be_bytes(token.sealed.left),
                u64::from_be_bytes(token.sealed.right),
            ],
            [
                u64::from_be_bytes(token.vector.left()),
                u64::from_be_bytes(token.vector.right()),
            ],
            token.vector.class(),
            token.vector.length(),
        )),
        Err(fault) => Err(fault),
    }
}

const DATA: [u64; 2] = [0x8ca6_4de9_c1b1_23a7, 0];

const ONES_TWOS: [u64; 2] = [0x1111_1111_1111_1111, 0x2222_2222_2222_2222];

const DOUBLE: [u64; 2] = [0x0041_7d00_0341_0000, 0x0041_7d00_0321_0000];

const UNIQUE: [u64; 2] = [0x0041_7d00_03c0_0000, 0x0041_7d00_03a0_0000];

const PATTERN: u64 = 0x5a5a_5a5a_5a5a_5a5a;

/// Tokens, the kind that is asked for, and what they say. An internal token keeps the pattern of its master key, and no
/// kind is read where the other is asked for.
const READ: [([u32; 16], Asked, Result<Said, TokenFault>); 7] = [
    (
        DATA_TOKEN,
        Asked::External,
        Ok((Kind::External, 0, DATA, [0, 0], Class::Data, 8)),
    ),
    (
        EXPORTER_TOKEN,
        Asked::Either,
        Ok((Kind::External, 0, ONES_TWOS, DOUBLE, Class::Exporter, 16)),
    ),
    (
        UNIQUE_TOKEN,
        Asked::Either,
        Ok((Kind::External, 0, ONES_TWOS, UNIQUE, Class::Exporter, 16)),
    ),
    (
        INTERNAL_TOKEN,
        Asked::Internal,
        Ok((Kind::Internal, PATTERN, DATA, [0, 0], Class::Data, 8)),
    ),
    (
        INTERNAL_TOKEN,
        Asked::Either,
        Ok((Kind::Internal, PATTERN, DATA, [0, 0], Class::Data, 8)),
    ),
    (INTERNAL_TOKEN, Asked::External, Err(TokenFault::Kind)),
    (DATA_TOKEN, Asked::Internal, Err(TokenFault::Kind)),
];

#[test]
fn tokens_are_read(rt: HostRuntime) {
    for (words, asked, wanted) in &READ {
        assert!(rt; said(words, *asked) == *wanted, "{words:?}");
    }
}

/// Words of a token that are changed, among them its validation value, and the fault then.
type Changed = ([u32; 16], &'static [(usize, u32)], Option<TokenFault>);

/// The DATA token with one word changed, and with other halves and vectors; and the EXPORTER token with an odd byte.
const CHANGED: [Changed; 10] = [
    (
        DATA_TOKEN,
        &[(0, 0x0300_0000), (15, 0x5058_3190)],
        Some(TokenFault::Kind),
    ),
    (
        DATA_TOKEN,
        &[(1, 0x0100_c000), (15, 0x5158_3190)],
        Some(TokenFault::Version),
    ),
    (
        DATA_TOKEN,
        &[(1, 0x0000_4000), (15, 0x5057_b190)],
        Some(TokenFault::Flag),
    ),
    (DATA_TOKEN, &[(1, 0x0000_8000), (15, 0x5057_f190)], None),
    (
        DATA_TOKEN,
        &[(1, 0x0000_c001), (15, 0x5058_3191)],
        Some(TokenFault::Reserved),
    ),
    (DATA_TOKEN, &[(15, 0x5058_3191)], Some(TokenFault::Tvv)),
    (
        DATA_TOKEN,
        &[(6, 0x0000_0001), (15, 0x5058_3191)],
        Some(TokenFault::Form),
    ),
    (
        DATA_TOKEN,
        &[
            (4, 0x1111_1111),
            (5, 0x1111_1111),
            (8, 0x0000_7d00),
            (15, 0x2423_5f22),
        ],
        Some(TokenFault::AntiVariant),
    ),
    (
        DATA_TOKEN,
        &[
            (4, 0x1111_1111),
            (5, 0x1111_1111),
            (8, 0x0000_7d00),
            (9, 0x0360_0000),
            (15, 0x2783_5f22),
        ],
        Some(TokenFault::Form),
    ),
    (
        EXPORTER_TOKEN,
        &[(8, 0x0041_7c00), (10, 0x0041_7c00), (15, 0x6f4c_1e66)],
        Some(TokenFault::Parity),
    ),
];

/// The words with some of them others.
fn with_words(words: &[u32; 16], others: &[(usize, u32)]) -> [u32; 16] {
    let mut changed = *words;
    for (at, word) in others {
        changed[*at % 16] = *word;
    }
    changed
}

#[test]
fn words_that_are_changed(rt: HostRuntime) {
    for (words, others, fault) in &CHANGED {
        let found = said(&with_words(words, others), Asked::Either).err();
        assert!(rt; found == *fault, "{others:?}");
    }
}

/// What the EXPORTER token breaks with one byte complemented and its validation value made anew.
fn fault_at(byte: usize) -> Option<TokenFault> {
    match byte {
        0 => Some(TokenFault::Kind),
        4 => Some(TokenFault::Version),
        6 => Some(TokenFault::Flag),
        16..=31 => None,
        35 | 36 | 43 | 44 => Some(TokenFault::AntiVariant),
        32..=47 => Some(TokenFault::Form),
        _ => Some(TokenFault::Reserved),
    }
}

/// The fault of a token's bytes.
fn fault_of(bytes: &[u8; 64]) -> Option<TokenFault> {
    read_token(bytes, Asked::Either).err()
}

#[test]
fn one_byte_complemented(rt: HostRuntime) {
    let token = bytes_of(&EXPORTER_TOKEN);
    for at in 0..60 {
        let mut changed = token;
        changed[at] = !changed[at];
        let stale = if at == 0 {
            TokenFault::Kind
        } else {
            TokenFault::Tvv
        };
        let found = (fault_of(&changed), fault_of(&validated(changed)));
        assert!(rt; found == (Some(stale), fault_at(at)), "byte {at}");
    }
}

#[test]
fn one_bit_of_the_vector_changed(rt: HostRuntime) {
    let token = bytes_of(&EXPORTER_TOKEN);
    for bit in 0..128 {
        let mut changed = token;
        changed[32 + bit / 8] ^= 1 << (bit % 8);
        let found = fault_of(&validated(changed));
        assert!(rt; found == Some(TokenFault::Parity), "bit {bit}");
    }
}

/// The DATA token with both of its flags, and the EXPORTER tokens: what is read, and what is written.
const WRITTEN: [([u32; 16], [u32; 16]); 4] = [
    (EXPORTER_TOKEN, EXPORTER_TOKEN),
    (UNIQUE_TOKEN, UNIQUE_TOKEN),
    (DATA_TOKEN, DATA_TOKEN),
    (SHORT_TOKEN, DATA_TOKEN),
];

#[test]
fn tokens_are_written(rt: HostRuntime) {
    for (words, written) in &WRITTEN {
        let token = read_token(&bytes_of(words), Asked::Either).expect(&rt, "a token");
        assert!(rt; write_token(&token) == bytes_of(written));
    }
}
