//! Published texts under DES and triple DES, texts with padding, test values, imported keys and random bytes.
ghost use Rattle.std.specs.Prelude.{◌≡◌, IsSome};
ghost use Rattle.verb_rules.specs.Keys.{HasHalves};

use crate::sealed_keys::{judged_key, put_text, vector};
use cipher_verbs::{
    Pad, RandomForm, clear_key_import, decipher, encipher, key_test, random_number,
};
use key_cells::{Lease, MasterPlace, Workbench};
use key_tokens::{Token, read_token};
use master_registers::{NewState, Registers, pattern_of};
use slot_disk::MemoryEntropy;
use std::process::Abort;
use verb_rules::{Asked, Judged, Rule, TextUse, judge_text};

/// A master key of three equal parts, each the vector of a DATA key: XORed with it they are zero.
fn put_master(lease: &mut Lease) {
    let master = lease.master_mut(MasterPlace::Current);
    for part in 0..3 {
        master[8 * part..8 * part + 8].copy_from_slice(&0x0000_7d00_0300_0000u64.to_be_bytes());
    }
}

fn registers(lease: &Lease) -> Registers
    ensures { IsSome result.current_pattern }
{
    Registers {
        new_state: NewState::Empty,
        current_pattern: Some(pattern_of(lease, MasterPlace::Current)),
        old_pattern: None,
    }
}

fn encipher_text(rt: &impl Abort, lease: &mut Lease, key: &Judged, start: u64, padding: Pad)
    requires { HasHalves key.now }
{
    match judge_text(padding.use_of(), lease.text().len()) {
        Ok(()) => encipher(lease, key, &start.to_be_bytes(), padding),
        Err(_) => panic!(rt; "a text of a wrong length"),
    }
}

fn decipher_text(
    rt: &impl Abort,
    lease: &mut Lease,
    key: &Judged,
    start: u64,
    padding: Pad,
) -> Result<(), Rule>
    requires { HasHalves key.now }
{
    match judge_text(TextUse::Decipher, lease.text().len()) {
        Ok(()) => decipher(lease, key, &start.to_be_bytes(), padding),
        Err(_) => panic!(rt; "a text of a wrong length"),
    }
}

/// The halves of a key and of its control vector, a start, a text, and its blocks under the key.
struct Enciphered {
    key: [u64; 2],
    vector: [u64; 2],
    start: u64,
    padding: Pad,
    text: &'static [u8],
    blocks: &'static [u64],
}

const SINGLE: [u64; 2] = [0x0123_4567_89ab_cdef, 0];

const DOUBLE: [u64; 2] = [0x0123_4567_89ab_cdef, 0xfedc_ba98_7654_3210];

const DOUBLE_VECTOR: [u64; 2] = [0x0000_7d00_0341_0000, 0x0000_7d00_0321_0000];

const START: u64 = 0x1234_5678_90ab_cdef;

/// A text under DES and under triple DES: the first result is published, the second one is OpenSSL's. Then texts with
/// padding under a key of zeros: two whose padded block XORed with the start is zero, and a whole block, which is padded by
/// eight bytes, by OpenSSL.
const ENCIPHERED: [Enciphered; 5] = [
    Enciphered {
        key: SINGLE,
        vector: [0, 0],
        start: START,
        padding: Pad::None,
        text: b"Now is the time for all ",
        blocks: &[
            0xe5c7_cdde_872b_f27c,
            0x43e9_3400_8c38_9c0f,
            0x6837_8849_9a7c_05f6,
        ],
    },
    Enciphered {
        key: DOUBLE,
        vector: DOUBLE_VECTOR,
        start: START,
        padding: Pad::None,
        text: b"Now is the time for all ",
        blocks: &[
            0xf85d_4ab9_2066_789e,
            0x1d04_3067_1f28_ae7a,
            0xb962_7d35_385d_2e24,
        ],
    },
    Enciphered {
        key: [0, 0],
        vector: [0, 0],
        start: 0x4142_4344_4546_0002,
        padding: Pad::X923,
        text: b"ABCDEF",
        blocks: &[0x8ca6_4de9_c1b1_23a7],
    },
    Enciphered {
        key: [0, 0],
        vector: [0, 0],
        start: 0x0000_0000_0000_0008,
        padding: Pad::X923,
        text: b"",
        blocks: &[0x8ca6_4de9_c1b1_23a7],
    },
    Enciphered {
        key: [0, 0],
        vector: [0, 0],
        start: START,
        padding: Pad::X923,
        text: b"8 bytes.",
        blocks: &[0xb151_754d_f671_54c6, 0x4693_c301_6619_55fa],
    },
];

/// Whether a text is these blocks.
fn are_blocks(text: &[u8], blocks: &[u64]) -> bool {
    for i in 0..blocks.len().min(512) {
        if text.get(8 * i..8 * i + 8) != Some(blocks[i].to_be_bytes().as_slice()) {
            return false;
        }
    }
    text.len() / 8 == blocks.len()
}

fn has_text(lease: &Lease, text: &[u8]) -> bool {
    lease.text() == text
}

/// Enciphers the text and deciphers it again.
fn goes_both_ways(rt: &impl Abort, row: &Enciphered) {
    let mut bench = Workbench::new();
    let mut lease = Lease::open(&mut bench);
    let vector = vector(rt, row.vector[0], row.vector[1]);
    let key = judged_key(&mut lease, row.key[0], row.key[1], &vector);
    put_text(rt, &mut lease, row.text);
    encipher_text(rt, &mut lease, &key, row.start, row.padding);
    assert!(rt; are_blocks(lease.text(), row.blocks));
    let found = decipher_text(rt, &mut lease, &key, row.start, row.padding);
    assert!(rt; found == Ok(()));
    assert!(rt; has_text(&lease, row.text));
}

#[test]
fn texts_both_ways(rt: HostRuntime) {
    for row in &ENCIPHERED {
        goes_both_ways(&rt, row);
    }
}

/// A last byte of 0 is no count of padding: the text is empty then.
#[test]
fn wrong_padding(rt: HostRuntime) {
    let mut bench = Workbench::new();
    let mut lease = Lease::open(&mut bench);
    let key = judged_key(&mut lease, 0, 0, &vector(&rt, 0, 0));
    put_text(&rt, &mut lease, &0x8ca6_4de9_c1b1_23a7u64.to_be_bytes());
    let found = decipher_text(&rt, &mut lease, &key, 0, Pad::X923);
    assert!(rt; found == Err(Rule::PadCount));
    assert!(rt; lease.text().len() == 0);
}

#[test]
fn keys_are_tested(rt: HostRuntime) {
    let mut bench = Workbench::new();
    let mut lease = Lease::open(&mut bench);
    let key = judged_key(&mut lease, SINGLE[0], SINGLE[1], &vector(&rt, 0, 0));
    assert!(rt; key_test(&mut lease, &key) == [0xd5, 0xd4, 0x4f, 0xf7]);
}

/// The token of a key that is imported under the master key, with the registers then.
fn imported(rt: &impl Abort) -> (Token, Registers) {
    let mut bench = Workbench::new();
    let mut lease = Lease::open(&mut bench);
    put_master(&mut lease);
    let held = registers(&lease);
    let token = clear_key_import(&mut lease, &held);
    (
        read_token(&token, Asked::Internal).expect(rt, "a key token"),
        held,
    )
}

/// The parts of the master key XORed with the vector of a DATA key are zero.
#[test]
fn a_zero_key_is_imported(rt: HostRuntime) {
    let (token, held) = imported(&rt);
    assert!(rt; u64::from_be_bytes(token.sealed.left) == 0x8ca6_4de9_c1b1_23a7);
    assert!(rt; token.sealed.right == [0; 8]);
    assert!(rt; u64::from_be_bytes(token.vector.left()) == 0x0000_7d00_0300_0000);
    match held.current_pattern {
        Some(pattern) => assert!(rt; token.pattern == pattern.bytes),
        None => panic!(rt; "no pattern"),
    }
}

const EIGHT: [u8; 8] = [0x80, 0x81, 0x82, 0x83, 0xff, 0xfe, 0x7f, 0x01];

/// Bytes that are drawn, the form, and the answer.
const DRAWN: [([u8; 8], RandomForm, [u8; 8]); 5] = [
    ([0; 8], RandomForm::Random, [0; 8]),
    ([0; 8], RandomForm::Even, [0; 8]),
    ([0; 8], RandomForm::Odd, [1; 8]),
    (
        EIGHT,
        RandomForm::Even,
        [0x81, 0x81, 0x82, 0x82, 0xff, 0xff, 0x7e, 0x00],
    ),
    (
        EIGHT,
        RandomForm::Odd,
        [0x80, 0x80, 0x83, 0x83, 0xfe, 0xfe, 0x7f, 0x01],
    ),
];

/// Random bytes come in one fill: a second one would fail.
#[test]
fn random_bytes(rt: HostRuntime) {
    for (drawn, form, wanted) in DRAWN {
        let mut entropy = MemoryEntropy::new(rt.alloc(), &drawn).expect(&rt, "random bytes");
        entropy.fail_at(1);
        assert!(rt; random_number(form, &mut entropy) == Ok(wanted));
        assert!(rt; random_number(form, &mut entropy).is_err());
    }
}
