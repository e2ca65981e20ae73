//! Known answers of chains by triple DES and by DES, of every kind of length, and of the message authentication codes.
ghost use Rattle.std.specs.Prelude.{◌≡◌, ◌≤◌, length};
ghost use Rattle.key_cells.specs.Lease.{bench_of};

use des_core::{
    cbc_decipher, cbc_decipher_single, cbc_encipher, cbc_encipher_single, cbc_mac, schedule,
    x919_mac,
};
use key_cells::{Lease, Schedule, Secret, Workbench};
use std::process::Abort;

/// The initial value of the example of cipher block chaining in FIPS 81.
const START: [u8; 8] = [0x12, 0x34, 0x56, 0x78, 0x90, 0xab, 0xcd, 0xef];

/// Three keys.
const KEYS: [u64; 3] = [
    0x0123_4567_89ab_cdef,
    0x2345_6789_abcd_ef01,
    0x4567_89ab_cdef_0123,
];

/// How many blocks of the long text, and the last of them enciphered in a chain under these keys, by
/// OpenSSL 3.0 as des-ede3-cbc. The last block rests on all before it. Texts of 36 blocks are deciphered pair by
/// pair, those of 37 in lanes, and those of more than 128 in parts.
const LONG_CHAINS: [(usize, u64); 7] = [
    (36, 0x9570_0298_6135_5b89),
    (37, 0x116b_6c84_00b1_bd0d),
    (127, 0x6324_a515_d200_989f),
    (128, 0xba6a_2b84_1c7f_cb0c),
    (129, 0x3416_c2a6_30ef_3bf7),
    (165, 0x0c26_9ee6_3f7d_f22f),
    (512, 0xba41_b5af_a223_14a6),
];

/// The same by DES alone, under the first of these keys, by OpenSSL 3.0 as des-cbc.
const SINGLE_CHAINS: [(usize, u64); 10] = [
    (1, 0xd93d_e8af_2b12_16c3),
    (2, 0xe438_f631_3ac4_233c),
    (36, 0xd723_918f_ed78_478a),
    (37, 0xfaa2_7678_c6cf_68aa),
    (127, 0x6c51_ae8d_fd55_b21f),
    (128, 0x5888_90ae_c74d_e267),
    (129, 0xfda9_5f08_9f6f_c0fc),
    (165, 0x4f6f_3924_caac_98e9),
    (256, 0xffdb_dabb_696b_81bd),
    (512, 0x52ed_b69f_cc91_e574),
];

/// The text of the example in FIPS 113.
const MAC_TEXT: [u8; 28] = *b"7654321 Now is the time for ";

/// How many bytes of that text, its code X9.9-1 under the key 0123456789abcdef, and its code X9.19OPT under
/// that key and 23456789abcdef01. The whole text's X9.9-1 is that of FIPS 113; the others were made by
/// OpenSSL 3.0, as des-cbc and des-ecb.
const MACS: [(usize, u64, u64); 8] = [
    (1, 0x198e_f386_cbb9_4f99, 0xe351_01c1_5c3d_a5a0),
    (7, 0xa292_9bf5_4ded_e1c4, 0x2acd_3ba8_8142_19ac),
    (8, 0x21fb_1936_93a1_6c28, 0x4e06_7e1a_2eb6_e6b8),
    (9, 0x1544_aa78_2efd_ccd6, 0xa622_37c6_85ac_1a6d),
    (16, 0x6c46_3f0c_b716_7a6f, 0xce61_e383_7f1e_f633),
    (20, 0x4185_b46b_fac5_d897, 0xb9c0_7e3a_3aa0_7964),
    (27, 0xd235_197d_44ef_6d0c, 0x5ad6_c4bc_b9fe_cdea),
    (28, 0xf1d3_0f68_4931_2ca4, 0xae05_8012_0b87_580a),
];

fn schedule_of(key: u64) -> Schedule {
    let mut bytes = key.to_be_bytes();
    let mut out = Schedule::new();
    schedule(&Secret::guard(&mut bytes), &mut out);
    out
}

fn put_text(lease: &mut Lease, text: &[u8])
    requires { length text.now ≤ 4096 }
    ensures { (bench_of lease.new).text.size ≡ length text.now }
{
    lease.set_text_length(text.len());
    lease.text_mut().copy_from_slice(text);
}

/// 512 blocks, of which no two are alike.
fn long_text() -> [u8; 4096] {
    let mut text = [0; 4096];
    for at in 0..4096 {
        text[at] = (at % 251) as u8 ^ (at / 251) as u8;
    }
    text
}

/// Puts the three schedules.
fn put_schedules(lease: &mut Lease) {
    *lease.schedules_mut() = [
        schedule_of(KEYS[0]),
        schedule_of(KEYS[1]),
        schedule_of(KEYS[2]),
    ];
}

/// Enciphers a text: the last block is as wanted.
fn encipher(rt: &impl Abort, lease: &mut Lease, text: &[u8], last: u64)
    requires { length text.now ≤ 4096 }
{
    put_text(lease, text);
    assert!(rt; lease.text().len() % 8 == 0);
    cbc_encipher(lease, &START);
    assert!(rt; lease.text().ends_with(&last.to_be_bytes()));
}

/// Deciphers what the bench holds: it is the text.
fn decipher(rt: &impl Abort, lease: &mut Lease, chain: &[u8; 8], text: &[u8]) {
    assert!(rt; lease.text().len() % 8 == 0);
    cbc_decipher(lease, chain);
    assert!(rt; lease.text() == text);
}

/// Takes the first 280 bytes away from the text of the bench, and answers the last eight of these.
fn cut_segment(rt: &impl Abort, lease: &mut Lease) -> [u8; 8] {
    let mut sealed = [0; 4096];
    let count = lease.text().len();
    assert!(rt; 280 <= count && count <= 4096);
    sealed[..count].copy_from_slice(lease.text());
    put_text(lease, &sealed[280..count]);
    let mut chain = [0; 8];
    chain.copy_from_slice(&sealed[272..280]);
    chain
}

/// Enciphers a text and deciphers it, whole and from its second segment on.
fn goes_both_ways(rt: &impl Abort, text: &[u8], last: u64) {
    assert!(rt; 280 <= text.len() && text.len() <= 4096);
    let mut bench = Workbench::new();
    let mut lease = Lease::open(&mut bench);
    put_schedules(&mut lease);
    encipher(rt, &mut lease, text, last);
    decipher(rt, &mut lease, &START, text);
    encipher(rt, &mut lease, text, last);
    let chain = cut_segment(rt, &mut lease);
    decipher(rt, &mut lease, &chain, &text[280..]);
}

#[test]
fn long_chains_hold_both_ways_whole_and_in_two_segments(rt: HostRuntime) {
    let text = long_text();
    for (count, last) in LONG_CHAINS {
        assert!(rt; count <= 512);
        goes_both_ways(&rt, &text[..8 * count], last);
    }
}

/// Enciphers a text by DES under the first of three schedules, and deciphers it.
fn goes_both_ways_alone(rt: &impl Abort, text: &[u8], last: u64)
    requires { length text.now ≤ 4096 }
{
    let mut bench = Workbench::new();
    let mut lease = Lease::open(&mut bench);
    put_schedules(&mut lease);
    put_text(&mut lease, text);
    assert!(rt; lease.text().len() % 8 == 0);
    cbc_encipher_single(&mut lease, &START);
    assert!(rt; lease.text().ends_with(&last.to_be_bytes()));
    assert!(rt; lease.text().len() % 8 == 0);
    cbc_decipher_single(&mut lease, &START);
    assert!(rt; lease.text() == text);
}

#[test]
fn chains_by_des_alone_hold_both_ways(rt: HostRuntime) {
    let text = long_text();
    for (count, last) in SINGLE_CHAINS {
        assert!(rt; count <= 512);
        goes_both_ways_alone(&rt, &text[..8 * count], last);
    }
}

#[test]
fn codes_of_texts_of_every_kind_of_length_hold(rt: HostRuntime) {
    let left = schedule_of(0x0123_4567_89ab_cdef);
    let right = schedule_of(0x2345_6789_abcd_ef01);
    for (length, x99, x919) in MACS {
        assert!(rt; length > 0 && length <= 28);
        let text = &MAC_TEXT[..length];
        let found = (cbc_mac(&left, text), x919_mac(&left, &right, text));
        assert!(rt;
            found == (x99.to_be_bytes(), x919.to_be_bytes()),
            "{length}"
        );
    }
}
