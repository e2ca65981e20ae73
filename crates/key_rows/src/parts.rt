//! Tokens under the master key of the bytes 01 to 18 and others, made by another program with the triple DES of OpenSSL and
//! the SHA-1 of Python's library.
ghost use Rattle.std.specs.Prelude.{IsSome};

use crate::given_keys::{bytes_of, judged, put_masters, transport};
use key_cells::{KeyPlace, Lease, Workbench};
use key_parts::{combine_part, first_part, translate};
use master_registers::Registers;
use std::process::Abort;
use verb_rules::{Asked, KeyType, judge_size};

/// A part, and the token of the key so far after it. The last eight bytes of the place count for a double-length key alone.
struct Step {
    part: [u64; 2],
    token: [u64; 8],
}

/// The DATA key 0123456789abcdef in two parts, of which the first is all ones.
const DATA: [Step; 2] = [
    Step {
        part: [0xffff_ffff_ffff_ffff, 0xa5a5_a5a5_a5a5_a5a5],
        token: [
            0x0100_0000_0000_c000,
            0x083b_f102_5be3_4c44,
            0x1cb5_4b29_cf09_bd62,
            0,
            0x0000_7d00_0309_0000,
            0,
            0,
            0x0000_0000_53e8_82d1,
        ],
    },
    Step {
        part: [0xfedc_ba98_7654_3210, 0xa5a5_a5a5_a5a5_a5a5],
        token: [
            0x0100_0000_0000_c000,
            0x083b_f102_5be3_4c44,
            0x8292_d66f_a813_459c,
            0,
            0x0000_7d00_0300_0000,
            0,
            0,
            0x0000_0000_92c6_9651,
        ],
    },
];

/// The CIPHER key 016745ab89efcdcf in three parts.
const CIPHER: [Step; 3] = [
    Step {
        part: [0x1111_1111_1111_1111, 0xa5a5_a5a5_a5a5_a5a5],
        token: [
            0x0100_0000_0000_c000,
            0x083b_f102_5be3_4c44,
            0x4b46_e5b2_f64e_8301,
            0,
            0x0003_7100_0309_0000,
            0,
            0,
            0x0000_0000_a9c1_d6f9,
        ],
    },
    Step {
        part: [0x2222_2222_2222_2222, 0xa5a5_a5a5_a5a5_a5a5],
        token: [
            0x0100_0000_0000_c000,
            0x083b_f102_5be3_4c44,
            0x967f_f1ce_8bf7_673a,
            0,
            0x0003_7100_0309_0000,
            0,
            0,
            0x0000_0000_8aa3_c74e,
        ],
    },
    Step {
        part: [0x3254_7698_badc_fefc, 0xa5a5_a5a5_a5a5_a5a5],
        token: [
            0x0100_0000_0000_c000,
            0x083b_f102_5be3_4c44,
            0x201b_05ee_61ec_4ec2,
            0,
            0x0003_7100_0300_0000,
            0,
            0,
            0x0000_0000_ea2a_c2f6,
        ],
    },
];

/// The EXPORTER key 0123456789abcdeffedcba9876543210 in two parts.
const EXPORTER: [Step; 2] = [
    Step {
        part: [0x0011_2233_4455_6677, 0x8899_aabb_ccdd_eeff],
        token: [
            0x0100_0000_0000_c000,
            0x083b_f102_5be3_4c44,
            0xee0b_c71a_365b_47d8,
            0x2883_29d1_baa5_1a05,
            0x0041_7d00_0348_0000,
            0x0041_7d00_0328_0000,
            0,
            0x0000_0000_73a2_4a0e,
        ],
    },
    Step {
        part: [0x0132_6754_cdfe_ab98, 0x7645_1023_ba89_dcef],
        token: [
            0x0100_0000_0000_c000,
            0x083b_f102_5be3_4c44,
            0xcc18_1871_6b9d_a9c5,
            0x01b6_610f_dd6a_87e2,
            0x0041_7d00_0341_0000,
            0x0041_7d00_0321_0000,
            0,
            0x0000_0000_82db_a26d,
        ],
    },
];

/// The MAC key f1d3b597795b3d1f0e2c4a6886a4c2e0 in three parts.
const MAC: [Step; 3] = [
    Step {
        part: [0x0011_2233_4455_6677, 0x8899_aabb_ccdd_eeff],
        token: [
            0x0100_0000_0000_c000,
            0x083b_f102_5be3_4c44,
            0x8629_4247_af0b_19c8,
            0x5903_d8fb_070e_7185,
            0x0005_4d00_0348_0000,
            0x0005_4d00_0328_0000,
            0,
            0x0000_0000_00e1_3dd5,
        ],
    },
    Step {
        part: [0x0f1e_2d3c_4b5a_6978, 0x8796_a5b4_c3d2_e1f0],
        token: [
            0x0100_0000_0000_c000,
            0x083b_f102_5be3_4c44,
            0x9504_2678_5de9_3ca8,
            0xd02a_811b_6e99_cb11,
            0x0005_4d00_0348_0000,
            0x0005_4d00_0328_0000,
            0,
            0x0000_0000_9d4c_4692,
        ],
    },
    Step {
        part: [0xfedc_ba98_7654_3210, 0x0123_4567_89ab_cdef],
        token: [
            0x0100_0000_0000_c000,
            0x083b_f102_5be3_4c44,
            0x5190_5d79_d11f_1dfc,
            0x9140_9552_780f_5d96,
            0x0005_4d00_0341_0000,
            0x0005_4d00_0321_0000,
            0,
            0x0000_0000_978c_05a3,
        ],
    },
];

/// The first part of the DATA key under the old master key.
const OLD_PART: [u64; 8] = [
    0x0100_0000_0000_c000,
    0x440b_0b63_ce6d_6e33,
    0x6ccf_f938_1582_2366,
    0,
    0x0000_7d00_0309_0000,
    0,
    0,
    0x0000_0000_98d4_d334,
];

/// IKEYXLAT and OKEYXLAT keys of sixteen bytes 01.
const ONES_IN: [u64; 8] = [
    0x0100_0000_0000_c000,
    0x083b_f102_5be3_4c44,
    0xf8e8_c0b6_105f_98f0,
    0xf607_adbc_e5c8_9961,
    0x0042_4200_0341_0000,
    0x0042_4200_0321_0000,
    0,
    0x0000_0000_511f_2209,
];

const ONES_OUT: [u64; 8] = [
    0x0100_0000_0000_c000,
    0x083b_f102_5be3_4c44,
    0x3545_c832_1aa0_358e,
    0xbe7a_863c_c81e_2760,
    0x0041_4200_0341_0000,
    0x0041_4200_0321_0000,
    0,
    0x0000_0000_4283_2ca2,
];

/// The IKEYXLAT key 1032547698badcfeefcdab8967452301, and the OKEYXLAT key 0123456789abcdeffedcba9876543210.
const KEY_IN: [u64; 8] = [
    0x0100_0000_0000_c000,
    0x083b_f102_5be3_4c44,
    0x4868_281b_8d8e_f638,
    0xc9e8_e2d5_20b4_84f2,
    0x0042_4200_0341_0000,
    0x0042_4200_0321_0000,
    0,
    0x0000_0000_2c9b_0760,
];

const KEY_OUT: [u64; 8] = [
    0x0100_0000_0000_c000,
    0x083b_f102_5be3_4c44,
    0x5fce_5adf_1dfa_8b2c,
    0x5f65_8f02_0090_0dd6,
    0x0041_4200_0341_0000,
    0x0041_4200_0321_0000,
    0,
    0x0000_0000_49c3_0429,
];

/// A key of zeros with the all-zero vector, under a transport key of sixteen bytes 01, and under the OKEYXLAT key.
const ZERO: [u64; 8] = [
    0x0200_0000_0000_c000,
    0,
    0x8ca6_4de9_c1b1_23a7,
    0,
    0,
    0,
    0,
    0x0000_0000_5058_3190,
];

const ZERO_AFTER: [u64; 8] = [
    0x0200_0000_0000_c000,
    0,
    0x08d7_b4fb_629d_0885,
    0,
    0,
    0,
    0,
    0x0000_0000_6d75_7d80,
];

/// A double-length MAC key that may not be exported, under the IKEYXLAT and the OKEYXLAT key.
const CLOSED: [u64; 8] = [
    0x0200_0000_0000_c000,
    0,
    0x1df0_afa8_19b1_49db,
    0xf13b_1eaa_dfc3_6692,
    0x0005_0c00_0341_0000,
    0x0005_0c00_0321_0000,
    0,
    0x0000_0000_110d_56bf,
];

const CLOSED_AFTER: [u64; 8] = [
    0x0200_0000_0000_c000,
    0,
    0xc0f8_fa85_ee8c_c445,
    0xd295_fe6f_879d_c881,
    0x0005_0c00_0341_0000,
    0x0005_0c00_0321_0000,
    0,
    0x0000_0000_1226_5dba,
];

fn put_part(lease: &mut Lease, part: &[u64; 2]) {
    let place = lease.key_mut(KeyPlace::Fresh);
    place[..8].copy_from_slice(&part[0].to_be_bytes());
    place[8..].copy_from_slice(&part[1].to_be_bytes());
}

/// The token of a first part; zeros where the type doesn't have the length.
fn begun(lease: &mut Lease, held: &Registers, kind: KeyType, length: usize) -> [u8; 64]
    requires { IsSome held.now.current_pattern }
{
    match judge_size(kind, length) {
        Ok(()) => first_part(lease, held, kind, length),
        Err(_) => [0; 64],
    }
}

/// The token of a key part with a further part.
fn continued(
    rt: &impl Abort,
    lease: &mut Lease,
    held: &Registers,
    before: &[u64; 8],
    last: bool,
) -> [u8; 64]
    requires { IsSome held.now.current_pattern }
{
    let key = judged(rt, held, Asked::Internal, before);
    assert!(rt; key.token.vector.is_part());
    combine_part(lease, held, &key, last)
}

/// Brings a key in by its parts: each token is as wanted.
fn bring_in(rt: &impl Abort, kind: KeyType, length: usize, steps: &[Step]) {
    let mut bench = Workbench::new();
    let mut lease = Lease::open(&mut bench);
    let held = put_masters(&mut lease);
    for (number, step) in steps.iter().enumerate() {
        put_part(&mut lease, &step.part);
        let token = if number == 0 {
            begun(&mut lease, &held, kind, length)
        } else {
            let last = number + 1 == steps.len();
            continued(rt, &mut lease, &held, &steps[number - 1].token, last)
        };
        assert!(rt; token == bytes_of(&step.token), "part {number}");
    }
}

#[test]
fn keys_of_both_lengths_in_two_and_three_parts(rt: HostRuntime) {
    bring_in(&rt, KeyType::Data, 8, &DATA);
    bring_in(&rt, KeyType::Cipher, 8, &CIPHER);
    bring_in(&rt, KeyType::Exporter, 16, &EXPORTER);
    bring_in(&rt, KeyType::Mac, 16, &MAC);
}

/// A key whose first part is still under the old master key is under the current one after the next.
#[test]
fn a_part_under_the_old_master_key(rt: HostRuntime) {
    let mut bench = Workbench::new();
    let mut lease = Lease::open(&mut bench);
    let held = put_masters(&mut lease);
    put_part(&mut lease, &DATA[1].part);
    let token = continued(&rt, &mut lease, &held, &OLD_PART, true);
    assert!(rt; token == bytes_of(&DATA[1].token));
}

/// A token, two transport keys, and the token under the second one.
const TRANSLATED: [[[u64; 8]; 4]; 3] = [
    [ZERO, ONES_IN, ONES_OUT, ZERO],
    [ZERO, ONES_IN, KEY_OUT, ZERO_AFTER],
    [CLOSED, KEY_IN, KEY_OUT, CLOSED_AFTER],
];

/// Also where the vector forbids export.
#[test]
fn keys_are_translated(rt: HostRuntime) {
    let mut bench = Workbench::new();
    let mut lease = Lease::open(&mut bench);
    let held = put_masters(&mut lease);
    for [token, one, two, wanted] in &TRANSLATED {
        let token = judged(&rt, &held, Asked::External, token);
        let one = transport(&rt, &held, one);
        let two = transport(&rt, &held, two);
        assert!(rt; translate(&mut lease, &token, &one, &two) == bytes_of(wanted));
    }
}
