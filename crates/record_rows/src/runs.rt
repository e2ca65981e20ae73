//! A store under a new master key and ahead of one, with labels of each kind.

use crate::bodies::{CURRENT, OLD, body_of, both_of, bytes_of, token_of};
use crate::changing::{Change, carry_out};
use crate::masters::{counting, module_with_new};
use crate::stores::{Stop, cell_body, store_of};
use key_records::RecordFault;
use reencipher::StoreAction;
use slot_disk::MemoryDisk;
use std::alloc::Global;
use std::process::Abort;

/// The DATA key 0123456789abcdef under the old and the current master key, and the EXPORTER key
/// 0123456789abcdeffedcba9876543210 under both.
fn tokens() -> [[u8; 64]; 4] {
    let exporter = [0x0041_7d00_0341_0000, 0x0041_7d00_0321_0000];
    [
        bytes_of(&OLD),
        bytes_of(&CURRENT),
        token_of(
            1,
            OLD[1],
            [0xbc13_535a_b2e7_8214, 0xefdd_0708_25ef_47b5],
            exporter,
            0x461a_6c7b,
        ),
        token_of(
            1,
            CURRENT[1],
            [0xb622_2624_bf95_91dd, 0x6ac6_abb0_4651_2613],
            exporter,
            0xffc2_f0ff,
        ),
    ]
}

const NEW: u64 = 0x8b8d_2b13_69c2_d526;

/// The two keys of these tests under a third master key, whose 24 bytes are the multiples of 3.
fn new_tokens() -> [[u8; 64]; 2] {
    let exporter = [0x0041_7d00_0341_0000, 0x0041_7d00_0321_0000];
    [
        token_of(1, NEW, [0x4e0b_37f3_bd0f_b6de, 0], [0, 0], 0x016b_af0a),
        token_of(
            1,
            NEW,
            [0xc3c3_bbad_8c03_d559, 0x19ac_a0ca_c0d5_7772],
            exporter,
            0x277f_637b,
        ),
    ]
}

/// A module with three master keys.
fn module_of_three() -> [u8; 1536] {
    module_with_new(counting(0, 3))
}

/// A label of each kind: A has one token under the current master key, N is null, B has one token under the old one, D
/// is ahead, C is current by its second token, and E is old by its second token.
fn kinds() -> [[u8; 192]; 6] {
    let [old, current, old_exporter, current_exporter] = tokens();
    let [_, new_exporter] = new_tokens();
    [
        body_of(2, b"A", &current),
        body_of(1, b"N", &[0; 64]),
        body_of(2, b"B", &old_exporter),
        both_of(b"D", &current_exporter, &new_exporter),
        both_of(b"C", &old, &current),
        both_of(b"E", &new_exporter, &old_exporter),
    ]
}

/// These labels with other bodies of the keys of A, B, D, C and E.
fn kinds_with(keys: [[u8; 192]; 5]) -> [[u8; 192]; 6] {
    let [a, b, d, c, e] = keys;
    [a, body_of(1, b"N", &[0; 64]), b, d, c, e]
}

/// The tokens of a label's key under the current and the new master key: A and C have the DATA key.
fn tokens_of(label: u8) -> [[u8; 64]; 2] {
    let [_, current, _, current_exporter] = tokens();
    let [new, new_exporter] = new_tokens();
    if label == b'A' || label == b'C' {
        [current, new]
    } else {
        [current_exporter, new_exporter]
    }
}

/// A label with one token, under the current master key.
fn one(label: u8) -> [u8; 192] {
    let [current, _] = tokens_of(label);
    body_of(2, &[label], &current)
}

/// A label that is ahead.
fn two(label: u8) -> [u8; 192] {
    let [current, new] = tokens_of(label);
    both_of(&[label], &current, &new)
}

/// The labels after REENCIPHER, AHEAD and DROP, each of them alone.
fn renewed() -> [[u8; 192]; 6] {
    let [a, _, _, d, c, _] = kinds();
    kinds_with([a, one(b'B'), d, c, one(b'E')])
}

fn prepared() -> [[u8; 192]; 6] {
    let [_, _, b, d, _, e] = kinds();
    kinds_with([two(b'A'), b, d, two(b'C'), e])
}

fn dropped() -> [[u8; 192]; 6] {
    let [a, _, b, _, c, e] = kinds();
    kinds_with([a, b, one(b'D'), c, e])
}

/// The labels after AHEAD and after DROP, after REENCIPHER.
fn all_prepared() -> [[u8; 192]; 6] {
    kinds_with([two(b'A'), two(b'B'), two(b'D'), two(b'C'), two(b'E')])
}

fn all_dropped() -> [[u8; 192]; 6] {
    kinds_with([one(b'A'), one(b'B'), one(b'D'), one(b'C'), one(b'E')])
}

/// A store of labels of each kind.
fn store_of_kinds(rt: &impl Abort, alloc: Global) -> MemoryDisk {
    let mut bodies = [(0, [0; 192]); 6];
    for (cell, body) in kinds().iter().enumerate() {
        bodies[cell % 6] = (cell, *body);
    }
    store_of(rt, alloc, &bodies, 100)
}

/// Carries an action out: how many labels it changed, and whether one is ahead then.
fn run(alloc: Global, store: &mut MemoryDisk, action: StoreAction) -> Result<(u32, bool), Stop> {
    carry_out(alloc, &module_of_three(), store, Change::Run(action))
}

/// Whether the first six cells select these bodies.
fn selects(rt: &impl Abort, store: &mut MemoryDisk, cells: &[[u8; 192]; 6]) -> bool {
    for cell in 0..6u16 {
        if cell_body(rt, store, cell) != cells[usize::from(cell)] {
            return false;
        }
    }
    true
}

/// Carries an action out on a store of labels of each kind.
fn alone(
    rt: &impl Abort,
    alloc: Global,
    action: StoreAction,
    wanted: (u32, bool),
    cells: &[[u8; 192]; 6],
) {
    let mut store = store_of_kinds(rt, alloc);
    assert!(rt; run(alloc, &mut store, action) == Ok(wanted));
    assert!(rt; selects(rt, &mut store, cells));
}

/// Carries an action out twice: the second time it changes nothing.
fn twice(
    rt: &impl Abort,
    alloc: Global,
    store: &mut MemoryDisk,
    action: StoreAction,
    wanted: (u32, bool),
    cells: &[[u8; 192]; 6],
) {
    assert!(rt; run(alloc, store, action) == Ok(wanted));
    assert!(rt; run(alloc, store, action) == Ok((0, wanted.1)));
    assert!(rt; selects(rt, store, cells));
}

/// Each action changes the labels that it is for, once, and leaves the others as they stand.
#[test]
fn labels_of_each_kind(rt: HostRuntime) {
    let alloc = rt.alloc();
    alone(&rt, alloc, StoreAction::Ahead, (2, true), &prepared());
    alone(&rt, alloc, StoreAction::Drop, (1, false), &dropped());
    let mut store = store_of_kinds(&rt, alloc);
    twice(
        &rt,
        alloc,
        &mut store,
        StoreAction::Renew,
        (2, true),
        &renewed(),
    );
    twice(
        &rt,
        alloc,
        &mut store,
        StoreAction::Ahead,
        (4, true),
        &all_prepared(),
    );
    twice(
        &rt,
        alloc,
        &mut store,
        StoreAction::Drop,
        (5, false),
        &all_dropped(),
    );
}

const FAILED: Result<(u32, bool), Stop> = Err(Stop::Run(RecordFault::DiskFault));

/// The calls of an action that fail, and the first that isn't made any more. A sync and two reads for each of 1,024 cells
/// open a store. Each label that may be changed is two reads, and one that is changed a read, and twice a write and a sync.
const CALLS: [(StoreAction, u64, Result<(u32, bool), Stop>); 9] = [
    (StoreAction::Renew, 2049, FAILED),
    (StoreAction::Renew, 2070, FAILED),
    (StoreAction::Renew, 2071, Ok((2, true))),
    (StoreAction::Ahead, 2049, FAILED),
    (StoreAction::Ahead, 2068, FAILED),
    (StoreAction::Ahead, 2069, Ok((2, true))),
    (StoreAction::Drop, 2049, FAILED),
    (StoreAction::Drop, 2055, FAILED),
    (StoreAction::Drop, 2056, Ok((1, false))),
];

#[test]
fn an_action_makes_so_many_calls(rt: HostRuntime) {
    for (action, call, wanted) in CALLS {
        let mut store = store_of_kinds(&rt, rt.alloc());
        store.fail_at(call);
        let found = run(rt.alloc(), &mut store, action);
        assert!(rt; found == wanted, "{action:?} at call {call}");
    }
}
