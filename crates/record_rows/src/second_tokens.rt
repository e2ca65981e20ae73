//! Records of keys with two tokens: damaged ones, and what they show.

use crate::bodies::{CURRENT, OLD, both_of, bytes_of, with_byte, with_words};
use crate::masters::{counting, module_after_set, module_image, module_of, module_with_new};
use crate::stores::{Stop, opened, place_of, store_of, sure_label};
use key_cells::{Lease, Workbench};
use key_records::RecordFault;
use std::alloc::Global;
use std::process::Abort;

/// The key 0123456789abcdef under the new master key, which is the 24 bytes from 40 on.
pub(crate) const NEW: [u64; 8] = [
    0x0100_0000_0000_c000,
    0x50cb_d61a_87a9_b516,
    0x4d5d_cec5_a1d1_1c72,
    0,
    0,
    0,
    0,
    0xc8a5_3667,
];

/// The key 0123456789abcdeffedcba9876543210 under the current and the new master key.
const DOUBLE: [u64; 8] = [
    0x0100_0000_0000_c000,
    0xcf5f_3c92_01ae_70a9,
    0x68b9_8146_32da_7f0e,
    0xbb7a_fda9_2cae_4250,
    0x0000_7d00_0341_0000,
    0x0000_7d00_0321_0000,
    0,
    0x5c2e_a788,
];

const DOUBLE_NEW: [u64; 8] = [
    0x0100_0000_0000_c000,
    0x50cb_d61a_87a9_b516,
    0xfffa_b8a2_e60b_df34,
    0x49d6_1048_11c2_2ce4,
    0x0000_7d00_0341_0000,
    0x0000_7d00_0321_0000,
    0,
    0x2178_1a32,
];

/// Under the new master key the left half of the key 0123456789abcdcf, and the right half of
/// 0123456789abcdeffedcba9876543211.
const OTHER_LEFT: u64 = 0x007f_6902_de7a_24ac;

const OTHER_RIGHT: u64 = 0x94c5_9991_ae4d_cf93;

/// A token under a master key that no register holds.
pub(crate) const UNHELD: [u64; 8] = [
    0x0100_0000_0000_c000,
    0x5a5a_5a5a_5a5a_5a5a,
    0xa2f7_dc8b_cb6e_c00c,
    0,
    0,
    0,
    0,
    0x241c_114b,
];

/// The two tokens of a key, as the body of a record.
pub(crate) fn two_of(text: &[u8], first: &[u64; 8], second: &[u64; 8]) -> [u8; 192] {
    both_of(text, &bytes_of(first), &bytes_of(second))
}

/// The module of these tests, whose new register is full.
pub(crate) fn full_module() -> [u8; 1536] {
    module_with_new(counting(0x40, 1))
}

/// A module with the same current key, or the one after SET.
#[derive(Clone, Copy, Debug)]
enum Module {
    Full,
    Partial,
    Empty,
    AfterSet,
}

fn image_of(module: Module) -> [u8; 1536] {
    match module {
        Module::Full => full_module(),
        Module::Partial => module_of(
            (1, counting(0x40, 1)),
            counting(0, 1),
            (1, counting(23, 255)),
        ),
        Module::Empty => module_image(),
        Module::AfterSet => module_after_set(counting(0x40, 1)),
    }
}

/// What the label KEY, whose record is in cell 5, shows: whether it is ahead, and the token that it is under.
type Shown = Result<(bool, [u8; 64]), Stop>;

/// What the label shows whose record has this body.
fn shows(rt: &impl Abort, alloc: Global, module: Module, body: [u8; 192]) -> Shown {
    let mut store = store_of(rt, alloc, &[(5, body)], 0);
    let mut bench = Workbench::new();
    let mut lease = Lease::open(&mut bench);
    let records = opened(alloc, &image_of(module), &mut store, &mut lease)?;
    let place = place_of(&records, &sure_label(rt, b"KEY"))?;
    let mut token = [0; 64];
    match records.read(&mut store, &mut lease, place, &mut token) {
        Ok(true) => Ok((records.is_ahead(place), token)),
        Ok(false) => Err(Stop::Token),
        Err(fault) => Err(Stop::Read(fault)),
    }
}

/// A module, the two tokens of a key, whether it is ahead, and the token that it is under.
type Pair = (Module, [u64; 8], [u64; 8], bool, [u64; 8]);

const PAIRS: [Pair; 9] = [
    (Module::Full, CURRENT, NEW, true, CURRENT),
    (Module::Full, DOUBLE, DOUBLE_NEW, true, DOUBLE),
    (Module::Full, OLD, CURRENT, false, CURRENT),
    (Module::Full, UNHELD, CURRENT, false, CURRENT),
    (Module::Full, UNHELD, OLD, false, OLD),
    (Module::Full, CURRENT, OLD, false, OLD),
    (Module::Empty, CURRENT, OLD, false, OLD),
    (Module::AfterSet, CURRENT, NEW, false, NEW),
    (Module::AfterSet, DOUBLE, DOUBLE_NEW, false, DOUBLE_NEW),
];

/// Two tokens of a key: the second is looked at first, and the first one further only where no register but the new one
/// holds the second.
#[test]
fn two_tokens(rt: HostRuntime) {
    for (module, first, second, ahead, token) in PAIRS {
        let found = shows(&rt, rt.alloc(), module, two_of(b"KEY", &first, &second));
        let wanted = Ok((ahead, bytes_of(&token)));
        assert!(rt; found == wanted, "{first:?} {second:?}");
    }
}

/// Pairs of tokens that read as no record.
fn broken_tokens() -> [(Module, [u64; 8], [u64; 8]); 14] {
    let full = Module::Full;
    let other_flag = [(0, 0x0100_0000_0000_8000), (7, 0x4074_c9d2)];
    let external = [(0, 0x0200_0000_0000_c000), (1, 0), (7, 0x7067_5c97)];
    let other_vector = [(4, 0x0100_0000_0000_0000), (7, 0x4175_09d2)];
    [
        // a pattern of no register, also where the new one isn't full
        (full, CURRENT, UNHELD),
        (Module::Empty, CURRENT, NEW),
        (Module::Partial, CURRENT, NEW),
        // a first token that isn't under the current master key
        (full, OLD, NEW),
        (full, UNHELD, NEW),
        (full, NEW, NEW),
        // another clear key
        (full, CURRENT, with_words(NEW, &[(2, OTHER_LEFT)])),
        (full, DOUBLE, with_words(DOUBLE_NEW, &[(3, OTHER_RIGHT)])),
        // a right half of a key with one
        (full, CURRENT, with_words(NEW, &[(3, 1)])),
        (full, UNHELD, with_words(CURRENT, &[(3, 1)])),
        // a first token with another flag or validation value, an external one, and one with a vector that is none
        (full, with_words(CURRENT, &other_flag), OLD),
        (full, with_words(CURRENT, &[(7, 0x4075_09d3)]), OLD),
        (full, with_words(CURRENT, &external), OLD),
        (full, with_words(CURRENT, &other_vector), OLD),
    ]
}

/// Bodies of tokens of a key that read as no record: bytes outside the table, and a null record and a record with one
/// token that have a second one.
fn broken_pairs() -> [[u8; 192]; 6] {
    let ahead = two_of(b"KEY", &CURRENT, &NEW);
    let turned = two_of(b"KEY", &UNHELD, &OLD);
    [
        with_byte(ahead, 154, 1),
        with_byte(turned, 191, 1),
        with_byte(ahead, 0, 1),
        with_byte(two_of(b"KEY", &[0; 8], &NEW), 0, 1),
        with_byte(ahead, 0, 2),
        with_byte(turned, 0, 4),
    ]
}

#[test]
fn damaged_second_forms(rt: HostRuntime) {
    let damaged = Err(Stop::Open(RecordFault::Damaged(5)));
    for (module, first, second) in broken_tokens() {
        let found = shows(&rt, rt.alloc(), module, two_of(b"KEY", &first, &second));
        assert!(rt; found == damaged, "{first:?} {second:?}");
    }
    for body in broken_pairs() {
        let found = shows(&rt, rt.alloc(), Module::Full, body);
        assert!(rt; found == damaged, "{body:?}");
    }
}
