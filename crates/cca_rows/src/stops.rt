//! A stop within a change of the store, whatever it leaves of what was written last.

use crate::runs::{CALLS, Failing, MODULE_SIZE, Pair, blank, disk_of, left, run_on};
use slot_disk::{MemoryDisk, Torn};
use std::alloc::Global;
use std::process::Abort;

const NONE: &[u8] = b"OK count=0 labels=\n";

const ONE: &[u8] = b"OK count=1 labels=K\n";

// Whether these are the labels of a store that a stop leaves after so many writes and syncs.
fn lists(
    rt: &impl Abort,
    alloc: Global,
    store: &MemoryDisk,
    noted: u64,
    torn: Torn,
    labels: &[u8],
) -> bool {
    let mut pair = Pair {
        module: disk_of(rt, alloc, MODULE_SIZE),
        store: left(rt, alloc, store, noted, torn, CALLS),
    };
    let request = b"CSNBKRL role=DEFAULT prefix=";
    let (_, sink) = run_on(rt, alloc, &["run"], request, Failing::None, &mut pair);
    sink.bytes() == labels
}

// Opening notes a sync, and the change the write of a body, a sync, the write of a selector and a sync.
const LEFT: [(u64, Torn, &[u8]); 9] = [
    (1, Torn::New, NONE),
    (2, Torn::New, NONE),
    (2, Torn::Fill(165), NONE),
    (3, Torn::New, NONE),
    (4, Torn::Old, NONE),
    (4, Torn::New, ONE),
    (4, Torn::Fill(164), NONE),
    (4, Torn::Fill(165), ONE),
    (5, Torn::Old, ONE),
];

#[test]
fn a_stop_leaves_a_label_or_none(rt: HostRuntime) {
    let request = b"CSNBKRC role=DEFAULT label=K";
    let mut pair = blank(&rt, rt.alloc());
    let _run = run_on(&rt, rt.alloc(), &["run"], request, Failing::None, &mut pair);
    assert!(rt; pair.store.noted() == 5);
    for (noted, torn, labels) in LEFT {
        let found = lists(&rt, rt.alloc(), &pair.store, noted, torn, labels);
        assert!(rt; found, "{torn:?} at {noted}");
    }
}
