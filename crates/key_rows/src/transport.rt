//! Tokens under the master key of the bytes 01 to 18 and others, made by another program with the triple DES and SHA-1 of
//! Python's libraries.
ghost use Rattle.std.specs.Prelude.{IsSome};

use crate::given_keys::{bytes_of, judged, put_masters, transport};
use cca_vectors::Length;
use key_cells::{Lease, Workbench};
use key_transport::{Form, GenerateFault, Target, export, generate, import, token_change};
use master_registers::Registers;
use slot_disk::MemoryEntropy;
use std::alloc::Global;
use std::process::Abort;
use verb_rules::{Asked, KeyType};

/// A token of an EXPORTER key, 0123456789abcdeffedcba9876543210, under the current master key, and under the old one.
const EXPORTER: [u64; 8] = [
    0x0100_0000_0000_c000,
    0x083b_f102_5be3_4c44,
    0xcc18_1871_6b9d_a9c5,
    0x01b6_610f_dd6a_87e2,
    0x0041_7d00_0341_0000,
    0x0041_7d00_0321_0000,
    0,
    0x0000_0000_82db_a26d,
];

const OLD_EXPORTER: [u64; 8] = [
    0x0100_0000_0000_c000,
    0x440b_0b63_ce6d_6e33,
    0xa928_b80c_6bc6_9e43,
    0x14a6_60f6_d8fb_6b70,
    0x0041_7d00_0341_0000,
    0x0041_7d00_0321_0000,
    0,
    0x0000_0000_1cef_564b,
];

/// An IMPORTER key, 1032547698badcfeefcdab8967452301.
const IMPORTER: [u64; 8] = [
    0x0100_0000_0000_c000,
    0x083b_f102_5be3_4c44,
    0xcc4e_9ef9_afd3_57f6,
    0xc9db_9513_3238_9be8,
    0x0042_7d00_0341_0000,
    0x0042_7d00_0321_0000,
    0,
    0x0000_0000_e43d_1f30,
];

/// An EXPORTER and an IMPORTER key of sixteen bytes 01.
const ONES_EXPORTER: [u64; 8] = [
    0x0100_0000_0000_c000,
    0x083b_f102_5be3_4c44,
    0x8325_3c73_4f66_c2f5,
    0xec54_a6d6_4f5c_92d7,
    0x0041_7d00_0341_0000,
    0x0041_7d00_0321_0000,
    0,
    0x0000_0000_7a42_305b,
];

const ONES_IMPORTER: [u64; 8] = [
    0x0100_0000_0000_c000,
    0x083b_f102_5be3_4c44,
    0x7080_8c1b_5b42_8061,
    0xec04_d6ca_7fee_e67e,
    0x0042_7d00_0341_0000,
    0x0042_7d00_0321_0000,
    0,
    0x0000_0000_a3bd_c10a,
];

/// A key of zeros with the all-zero vector, and its external token under a transport key of sixteen bytes 01.
const ZERO: [u64; 8] = [
    0x0100_0000_0000_c000,
    0x083b_f102_5be3_4c44,
    0xc7b6_4ccc_cdb0_d304,
    0,
    0,
    0,
    0,
    0x0000_0000_fa87_1d16,
];

const ZERO_OUT: [u64; 8] = [
    0x0200_0000_0000_c000,
    0,
    0x8ca6_4de9_c1b1_23a7,
    0,
    0,
    0,
    0,
    0x0000_0000_5058_3190,
];

/// A DATA key, a1b2c3d4e5f60718, under the current, the old and the new master key.
const SINGLE: [u64; 8] = [
    0x0100_0000_0000_c000,
    0x083b_f102_5be3_4c44,
    0x167c_afed_468d_05d4,
    0,
    0x0000_7d00_0300_0000,
    0,
    0,
    0x0000_0000_c52a_3007,
];

const OLD_SINGLE: [u64; 8] = [
    0x0100_0000_0000_c000,
    0x440b_0b63_ce6d_6e33,
    0xc8c1_4702_f584_f2c2,
    0,
    0x0000_7d00_0300_0000,
    0,
    0,
    0x0000_0000_d4bf_f05a,
];

const NEW_SINGLE: [u64; 8] = [
    0x0100_0000_0000_c000,
    0x3e58_811d_15db_69c3,
    0x8287_7005_5544_9689,
    0,
    0x0000_7d00_0300_0000,
    0,
    0,
    0x0000_0000_3001_2e6e,
];

/// A DATA key, a1b2c3d4e5f607182938475665748392, under the current, the old and the new master key.
const DOUBLE: [u64; 8] = [
    0x0100_0000_0000_c000,
    0x083b_f102_5be3_4c44,
    0x2f2f_b598_2590_df29,
    0x05d7_1619_d135_5333,
    0x0000_7d00_0341_0000,
    0x0000_7d00_0321_0000,
    0,
    0x0000_0000_974f_f553,
];

const OLD_DOUBLE: [u64; 8] = [
    0x0100_0000_0000_c000,
    0x440b_0b63_ce6d_6e33,
    0x3ffa_1141_1e26_a5eb,
    0xbf99_56de_55e3_7fc4,
    0x0000_7d00_0341_0000,
    0x0000_7d00_0321_0000,
    0,
    0x0000_0000_8d79_c164,
];

const NEW_DOUBLE: [u64; 8] = [
    0x0100_0000_0000_c000,
    0x3e58_811d_15db_69c3,
    0x1124_5fe2_c24f_8874,
    0x404f_40a9_1eb1_a270,
    0x0000_7d00_0341_0000,
    0x0000_7d00_0321_0000,
    0,
    0x0000_0000_8e0c_704f,
];

/// The random bytes that keys are generated from.
const RANDOM: [u8; 16] = [
    0x00, 0x11, 0x22, 0x33, 0x44, 0x55, 0x66, 0x77, 0x88, 0x99, 0xaa, 0xbb, 0xcc, 0xdd, 0xee, 0xff,
];

/// A key, a transport key, and the key under it.
const EXPORTED: [[[u64; 8]; 3]; 4] = [
    [ZERO, ONES_EXPORTER, ZERO_OUT],
    [
        SINGLE,
        EXPORTER,
        [
            0x0200_0000_0000_c000,
            0,
            0xf380_7f9d_f067_3f29,
            0,
            0x0000_7d00_0300_0000,
            0,
            0,
            0x0000_0000_e8e8_fbc6,
        ],
    ],
    [
        OLD_DOUBLE,
        EXPORTER,
        [
            0x0200_0000_0000_c000,
            0,
            0x57ef_661e_8e45_b08e,
            0xa55d_dd6a_b95e_7aee,
            0x0000_7d00_0341_0000,
            0x0000_7d00_0321_0000,
            0,
            0x0000_0000_4d55_2904,
        ],
    ],
    [
        DOUBLE,
        OLD_EXPORTER,
        [
            0x0200_0000_0000_c000,
            0,
            0x57ef_661e_8e45_b08e,
            0xa55d_dd6a_b95e_7aee,
            0x0000_7d00_0341_0000,
            0x0000_7d00_0321_0000,
            0,
            0x0000_0000_4d55_2904,
        ],
    ],
];

/// A key under a transport key, that key, and the key under the master key.
const IMPORTED: [[[u64; 8]; 3]; 3] = [
    [ZERO_OUT, ONES_IMPORTER, ZERO],
    [
        [
            0x0200_0000_0000_c000,
            0,
            0x229d_fb21_b972_ff6d,
            0,
            0x0000_7d00_0300_0000,
            0,
            0,
            0x0000_0000_e112_378e,
        ],
        IMPORTER,
        SINGLE,
    ],
    [
        [
            0x0200_0000_0000_c000,
            0,
            0x6ca9_343d_19f6_dd73,
            0x4dc5_d2af_f022_09a9,
            0x0000_7d00_0341_0000,
            0x0000_7d00_0321_0000,
            0,
            0x0000_0000_cceb_a808,
        ],
        IMPORTER,
        DOUBLE,
    ],
];

/// A token, the register whose key it is to be under, and the token under it.
const CHANGED: [([u64; 8], Target, [u64; 8]); 5] = [
    (SINGLE, Target::Current, SINGLE),
    (OLD_SINGLE, Target::Current, SINGLE),
    (OLD_DOUBLE, Target::Current, DOUBLE),
    (SINGLE, Target::New, NEW_SINGLE),
    (OLD_DOUBLE, Target::New, NEW_DOUBLE),
];

/// Keys of both lengths, under the current and the old master key, under transport keys that are under these.
#[test]
fn keys_are_exported(rt: HostRuntime) {
    let mut bench = Workbench::new();
    let mut lease = Lease::open(&mut bench);
    let held = put_masters(&mut lease);
    for [key, transport_key, wanted] in &EXPORTED {
        let key = judged(&rt, &held, Asked::Internal, key);
        let exporter = transport(&rt, &held, transport_key);
        assert!(rt; export(&mut lease, &key, &exporter) == bytes_of(wanted));
    }
}

#[test]
fn keys_are_imported(rt: HostRuntime) {
    let mut bench = Workbench::new();
    let mut lease = Lease::open(&mut bench);
    let held = put_masters(&mut lease);
    for [source, transport_key, wanted] in &IMPORTED {
        let source = judged(&rt, &held, Asked::External, source);
        let importer = transport(&rt, &held, transport_key);
        assert!(rt; import(&mut lease, &held, &source, &importer) == bytes_of(wanted));
    }
}

#[test]
fn tokens_are_changed(rt: HostRuntime) {
    let mut bench = Workbench::new();
    let mut lease = Lease::open(&mut bench);
    let held = put_masters(&mut lease);
    for (token, target, wanted) in &CHANGED {
        let token = judged(&rt, &held, Asked::Internal, token);
        assert!(rt; token_change(&mut lease, &held, &token, *target) == bytes_of(wanted));
    }
}

/// A right half that is the same as the first eight random bytes, their low-order bits aside.
const SAME: [u8; 8] = [0x01, 0x10, 0x22, 0x33, 0x45, 0x54, 0x66, 0x76];

/// The first eight random bytes, so many right halves that are the same, and then others, each of its own.
fn random_with(rt: &impl Abort, alloc: Global, same: usize) -> MemoryEntropy {
    let mut bytes = [0; 80];
    bytes[..8].copy_from_slice(&RANDOM[..8]);
    for i in 0..9 {
        let half = &mut bytes[8 + 8 * i..16 + 8 * i];
        if i < same {
            half.copy_from_slice(&SAME);
        } else {
            half.copy_from_slice(&RANDOM[8..]);
            half[7] = 0xe0 + 2 * i as u8;
        }
    }
    MemoryEntropy::new(alloc, &bytes).expect(rt, "random bytes")
}

/// The token of a MAC key with unique halves.
fn make_mac(
    lease: &mut Lease,
    held: &Registers,
    entropy: &mut MemoryEntropy,
) -> Result<[u8; 64], GenerateFault>
    requires { IsSome held.now.current_pattern }
{
    match generate(
        lease,
        held,
        Form::Op,
        Length::Unique,
        KeyType::Mac,
        KeyType::Mac,
        None,
        None,
        entropy,
    ) {
        Ok(made) => Ok(made.first),
        Err(fault) => Err(fault),
    }
}

/// How many right halves are the same as the left one, how many fills there are, of which one more would fail, and the
/// token. The eighth right half is the last.
const DRAWN: [(usize, u64, Option<[u64; 8]>); 4] = [
    (
        0,
        1,
        Some([
            0x0100_0000_0000_c000,
            0x083b_f102_5be3_4c44,
            0xb3c4_6f65_2365_ce33,
            0xa7ef_ab71_e4c0_c550,
            0x0005_4d00_03c0_0000,
            0x0005_4d00_03a0_0000,
            0,
            0x0000_0000_d065_459f,
        ]),
    ),
    (
        1,
        2,
        Some([
            0x0100_0000_0000_c000,
            0x083b_f102_5be3_4c44,
            0xb3c4_6f65_2365_ce33,
            0xff6e_4766_f746_9617,
            0x0005_4d00_03c0_0000,
            0x0005_4d00_03a0_0000,
            0,
            0x0000_0000_3a69_b25b,
        ]),
    ),
    (
        7,
        8,
        Some([
            0x0100_0000_0000_c000,
            0x083b_f102_5be3_4c44,
            0xb3c4_6f65_2365_ce33,
            0xc5b0_86b0_b6b1_52e5,
            0x0005_4d00_03c0_0000,
            0x0005_4d00_03a0_0000,
            0,
            0x0000_0000_c016_ae73,
        ]),
    ),
    (8, 8, None),
];

#[test]
fn right_halves_are_drawn_again(rt: HostRuntime) {
    let mut bench = Workbench::new();
    let mut lease = Lease::open(&mut bench);
    let held = put_masters(&mut lease);
    for (same, fills, words) in &DRAWN {
        let mut entropy = random_with(&rt, rt.alloc(), *same);
        entropy.fail_at(*fills);
        let made = make_mac(&mut lease, &held, &mut entropy);
        let wanted = match words {
            Some(words) => Ok(bytes_of(words)),
            None => Err(GenerateFault::Repeated),
        };
        assert!(rt; made == wanted, "{same}");
    }
}
