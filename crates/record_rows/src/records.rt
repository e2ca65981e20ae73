//! The records of labels by their bytes, what they show, and a fault at each call of the disk.

use crate::bodies::{body_of, bytes_of, with_byte, with_words};
use crate::changing::{Change, carry_out};
use crate::masters::module_image;
use crate::stores::{Stop, cell_body, opened, place_of, store_of, sure_label};
use key_cells::{Lease, Workbench};
use key_records::{Label, RecordFault, STORE_LEN};
use slot_disk::{Disk, MemoryDisk};
use std::alloc::Global;
use std::process::Abort;

/// A single-length DATA key under the current master key, with the flag and the validation value to be put in.
const DATA_TOKEN: [u64; 8] = [
    0x0100_0000_0000_0000,
    0xcf5f_3c92_01ae_70a9,
    0x8ca6_4de9_c1b1_23a7,
    0,
    0,
    0,
    0,
    0,
];

/// The token with a flag, a pattern and a validation value.
fn token_with(flag: u64, pattern: u64, value: u64) -> [u8; 64] {
    let first = 0x0100_0000_0000_0000 | flag;
    bytes_of(&with_words(DATA_TOKEN, &[(0, first), (1, pattern), (7, value)]))
}

/// The token with flag X'C0', the one with flag X'80', one under the old master key, and one under no master key here.
fn tokens() -> [[u8; 64]; 4] {
    let current = DATA_TOKEN[1];
    [
        token_with(0xc000, current, 0x2065_decb),
        token_with(0x8000, current, 0x2065_9ecb),
        token_with(0xc000, 0x246f_e01f_94fd_ae31, 0x08c5_bfe0),
        token_with(0xc000, 0x5a5a_5a5a_5a5a_5a5a, 0x040c_e644),
    ]
}

/// What a label shows of its record.
fn shown<D: Disk>(
    alloc: Global,
    store: &mut D,
    label: &Label,
) -> Result<Result<Option<[u8; 64]>, RecordFault>, Stop> {
    let mut bench = Workbench::new();
    let mut lease = Lease::open(&mut bench);
    let records = opened(alloc, &module_image(), store, &mut lease)?;
    let place = place_of(&records, label)?;
    let mut token = [0xff; 64];
    match records.read(store, &mut lease, place, &mut token) {
        Ok(true) => Ok(Ok(Some(token))),
        Ok(false) => Ok(Ok(None)),
        Err(fault) => Ok(Err(fault)),
    }
}

/// Carries a change out, after which the cell has this body.
fn changes_cell(
    rt: &impl Abort,
    alloc: Global,
    store: &mut MemoryDisk,
    change: Change,
    cell: u16,
    body: &[u8; 192],
) {
    let done = carry_out(alloc, &module_image(), store, change);
    assert!(rt; done == Ok((1, false)), "{change:?}");
    assert!(rt; cell_body(rt, store, cell) == *body, "{change:?}");
}

/// A change, the cell that it changes, the body there then, and a label with the token that it shows.
type Row = (Change, u16, [u8; 192], Label, Option<[u8; 64]>);

/// Each change writes the body of the format into its cell, and a token is kept with flag X'C0'.
fn changes_of(a: Label, b: Label) -> [Row; 5] {
    let [with_flag, without_flag, old, _] = tokens();
    let null_a = body_of(1, b"A", &[0; 64]);
    let null_b = body_of(1, b"KEY.B", &[0; 64]);
    let with_b = body_of(2, b"KEY.B", &with_flag);
    let old_a = body_of(2, b"A", &old);
    [
        (Change::Create(a), 0, null_a, a, None),
        (Change::Create(b), 1, null_b, b, None),
        (
            Change::Write(b, without_flag),
            1,
            with_b,
            b,
            Some(with_flag),
        ),
        (Change::Write(a, old), 0, old_a, a, Some(old)),
        (Change::Delete(a), 0, [0; 192], b, Some(with_flag)),
    ]
}

/// A restart shows what was changed.
#[test]
fn changes(rt: HostRuntime) {
    let mut store = MemoryDisk::new(rt.alloc(), STORE_LEN, 100).expect(&rt, "a disk");
    let rows = changes_of(sure_label(&rt, b"A"), sure_label(&rt, b"KEY.B"));
    for (change, cell, body, label, token) in rows {
        changes_cell(&rt, rt.alloc(), &mut store, change, cell, &body);
        let found = shown(rt.alloc(), &mut store, &label);
        assert!(rt; found == Ok(Ok(token)), "{change:?}");
    }
}

/// What opening a store comes to, whose cells have these bodies.
fn opens(rt: &impl Abort, alloc: Global, bodies: &[(usize, [u8; 192])]) -> Result<(), Stop> {
    let mut store = store_of(rt, alloc, bodies, 1);
    let mut bench = Workbench::new();
    let mut lease = Lease::open(&mut bench);
    match opened(alloc, &module_image(), &mut store, &mut lease) {
        Ok(_) => Ok(()),
        Err(stop) => Err(stop),
    }
}

/// Bodies of the fifth cell that read as no record, and of another cell.
fn broken_bodies() -> [([u8; 192], usize, [u8; 192]); 19] {
    let [token, without_flag, _, nobody] = tokens();
    let key = body_of(2, b"KEY", &token);
    let null = body_of(1, b"NULL", &[0; 64]);
    [
        // another kind, lengths that there aren't, a label that is none or isn't filled with zeros
        (with_byte(key, 0, 3), 6, null),
        (with_byte(key, 0, 7), 6, null),
        (with_byte(key, 1, 0), 6, null),
        (with_byte(key, 1, 2), 6, null),
        (with_byte(key, 1, 65), 6, null),
        (with_byte(key, 2, b'k'), 6, null),
        (with_byte(key, 65, b'A'), 6, null),
        // a null record with a token, and a key without
        (with_byte(key, 0, 1), 6, null),
        (with_byte(null, 0, 2), 6, key),
        // a token with another flag, validation value or pattern
        (body_of(2, b"KEY", &without_flag), 6, null),
        (with_byte(key, 129, 0), 6, null),
        (body_of(2, b"KEY", &nobody), 6, null),
        // bytes outside the table
        (with_byte(key, 130, 1), 6, null),
        (with_byte(null, 130, 1), 6, key),
        (with_byte(null, 191, 1), 6, key),
        // a label twice, and two damaged cells
        (key, 3, key),
        (body_of(1, b"KEY", &[0; 64]), 3, key),
        (with_byte(key, 0, 7), 1000, with_byte(null, 0, 7)),
        (with_byte(key, 0, 7), 1023, null),
    ]
}

/// Bodies that read as no record, and labels that stand twice: the first damaged cell is named.
#[test]
fn damaged_cells(rt: HostRuntime) {
    let [token, _, old, _] = tokens();
    let null = body_of(1, b"NULL", &[0; 64]);
    for key in [token, old] {
        let bodies = [(5, body_of(2, b"KEY", &key)), (1023, null)];
        assert!(rt; opens(&rt, rt.alloc(), &bodies) == Ok(()), "{key:?}");
    }
    for (body, other, beside) in broken_bodies() {
        let found = opens(&rt, rt.alloc(), &[(5, body), (other, beside)]);
        let wanted = Err(Stop::Open(RecordFault::Damaged(5)));
        assert!(rt; found == wanted, "{body:?} {other}");
    }
}

const NOT_OPENED: Stop = Stop::Open(RecordFault::DiskFault);

const FAILED: Stop = Stop::Change(RecordFault::DiskFault);

/// A store is opened by two reads for each of 1,024 cells, and a record is read by two more. Neither is made twice, also
/// where it fails.
#[test]
fn a_record_is_read_once(rt: HostRuntime) {
    let [token, ..] = tokens();
    let key = sure_label(&rt, b"KEY");
    let failed = Ok(Err(RecordFault::DiskFault));
    for (call, wanted) in [
        (0, Err(NOT_OPENED)),
        (2047, Err(NOT_OPENED)),
        (2048, failed),
        (2049, failed),
        (2050, Ok(Ok(Some(token)))),
    ] {
        let mut store = store_of(&rt, rt.alloc(), &[(0, body_of(2, b"KEY", &token))], 0);
        store.fail_at(call);
        let found = shown(rt.alloc(), &mut store, &key);
        assert!(rt; found == wanted, "at call {call}");
    }
}

/// The call that fails, what the change answers, and why the label A shows nothing then, if so.
type Faulty = (u64, Result<(u32, bool), Stop>, Option<Stop>);

/// A sync to settle, two reads for each of 1,024 cells, and for the change a read, two writes and a sync after each.
const FAULTS: [Faulty; 9] = [
    (0, Err(Stop::Settle), Some(Stop::Unknown)),
    (1, Err(NOT_OPENED), Some(Stop::Unknown)),
    (2048, Err(NOT_OPENED), Some(Stop::Unknown)),
    (2049, Err(FAILED), Some(Stop::Unknown)),
    (2050, Err(FAILED), Some(Stop::Unknown)),
    (2051, Err(FAILED), Some(Stop::Unknown)),
    (2052, Err(FAILED), Some(Stop::Unknown)),
    (2053, Err(FAILED), None),
    // it made no further call
    (2054, Ok((1, false)), Some(NOT_OPENED)),
];

/// A fault at each call leaves the labels before or after.
#[test]
fn a_fault_at_each_call(rt: HostRuntime) {
    let a = sure_label(&rt, b"A");
    for (call, wanted, left) in FAULTS {
        let mut store = MemoryDisk::new(rt.alloc(), STORE_LEN, 20).expect(&rt, "a disk");
        store.fail_at(call);
        let done = carry_out(rt.alloc(), &module_image(), &mut store, Change::Create(a));
        assert!(rt; done == wanted, "at call {call}");
        let found = shown(rt.alloc(), &mut store, &a);
        assert!(rt; found.err() == left, "at call {call}");
    }
}
