//! Published codes under a single-length key, and codes under a double-length key.
ghost use Rattle.std.specs.Prelude.{◌≤◌, length};
ghost use Rattle.verb_rules.specs.Keys.{HasHalves};

use crate::sealed_keys::{judged_key, put_text, vector};
use key_cells::{Lease, Workbench};
use mac_verbs::{mac_generate, mac_verify};
use std::process::Abort;
use verb_rules::{Judged, MacRule, TextUse, judge_mac, judge_text};

/// The halves of a key and of its control vector, a text, and its code.
struct Coded {
    rule: MacRule,
    key: [u64; 2],
    vector: [u64; 2],
    text: &'static [u8],
    code: u64,
}

/// The first code is published, the second one is that of zeros under a key of ones, and the third one was made by
/// OpenSSL's DES.
const CODED: [Coded; 3] = [
    Coded {
        rule: MacRule::X99,
        key: [0x0123_4567_89ab_cdef, 0],
        vector: [0x0005_4d00_0300_0000, 0],
        text: b"7654321 Now is the time for ",
        code: 0xf1d3_0f68_4931_2ca4,
    },
    Coded {
        rule: MacRule::X919,
        key: [0x0101_0101_0101_0101, 0x0101_0101_0101_0101],
        vector: [0x0005_4d00_0341_0000, 0x0005_4d00_0321_0000],
        text: &[0; 8],
        code: 0x8ca6_4de9_c1b1_23a7,
    },
    Coded {
        rule: MacRule::X919,
        key: [0x0123_4567_89ab_cdef, 0xfedc_ba98_7654_3210],
        vector: [0x0005_4d00_0341_0000, 0x0005_4d00_0321_0000],
        text: b"7654321 Now is the time for ",
        code: 0xae4b_45b1_b527_642f,
    },
];

/// The code of the text.
fn code(rt: &impl Abort, lease: &mut Lease, key: &Judged, rule: MacRule) -> u64
    requires { HasHalves key.now }
{
    match (
        judge_text(TextUse::Mac, lease.text().len()),
        judge_mac(rule, key.token.vector.length()),
    ) {
        (Ok(()), Ok(())) => u64::from_be_bytes(mac_generate(lease, key, rule)),
        _ => panic!(rt; "a text or a key of a wrong length"),
    }
}

/// Whether these bytes are verified as the code of the text.
fn is_code(rt: &impl Abort, lease: &mut Lease, key: &Judged, rule: MacRule, mac: &[u8]) -> bool
    requires halves { HasHalves key.now }
    requires least { 4 ≤ length mac.now }
    requires most { length mac.now ≤ 8 }
{
    match (
        judge_text(TextUse::Mac, lease.text().len()),
        judge_mac(rule, key.token.vector.length()),
    ) {
        (Ok(()), Ok(())) => mac_verify(lease, key, rule, mac),
        _ => panic!(rt; "a text or a key of a wrong length"),
    }
}

/// Bits of a code that are turned, how many bytes of it are given, and whether they are verified.
const CHECKED: [(u64, usize, bool); 5] = [
    (0, 8, true),
    (0, 4, true),
    (1, 6, true),
    (1, 8, false),
    (1 << 63, 4, false),
];

/// The code of the row, which is verified whole and by its first four and six bytes, and not where a byte that counts is
/// another one.
fn is_coded(rt: &impl Abort, row: &Coded) {
    let mut bench = Workbench::new();
    let mut lease = Lease::open(&mut bench);
    let vector = vector(rt, row.vector[0], row.vector[1]);
    let key = judged_key(&mut lease, row.key[0], row.key[1], &vector);
    put_text(rt, &mut lease, row.text);
    assert!(rt; code(rt, &mut lease, &key, row.rule) == row.code);
    for (turned, count, same) in CHECKED {
        let mac = (row.code ^ turned).to_be_bytes();
        assert!(rt; 4 <= count && count <= 8);
        assert!(rt; is_code(rt, &mut lease, &key, row.rule, &mac[..count]) == same);
    }
}

#[test]
fn codes_of_both_lengths(rt: HostRuntime) {
    for row in &CODED {
        is_coded(&rt, row);
    }
}
