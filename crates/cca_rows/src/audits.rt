//! An audited run with the call of a number of its trail failing: the replies, and the records that are shown then.

use crate::runs::{
    CALLS, MODULE_SIZE, STORE_SIZE, blank, disk_of, ends_of, left, sent, sink_of, words_of,
};
use audit_trail::TRAIL_LEN;
use cca_tool::{AuditStatus, Status, run_audited, show_trail};
use key_cells::Workbench;
use slot_disk::{Disk, MemoryDisk, Torn};
use std::alloc::Global;
use std::process::Abort;

const REQUESTS: &[u8] = b"CSNBMKP role=DEFAULT action=CLEAR\nCSNBRNG role=DEFAULT form=ODD\nx\n";

const REPLIES: &[u8] = b"OK new=empty\nOK random=0101010101010101\nNO 01 -\n";

const RECORDS: &[u8] = b"0 00 DEFAULT CSNBMKP -\n1 00 DEFAULT CSNBRNG -\n2 01 - - -\n";

// How an audited run over blank disks ends, and how many bytes of its replies are sent.
fn audited(rt: &impl Abort, alloc: Global, trail: &mut MemoryDisk) -> (AuditStatus, usize) {
    let words = words_of(rt, alloc, &["audit"]);
    let mut ends = ends_of(rt, alloc, REQUESTS, 1_000);
    let mut pair = blank(rt, alloc);
    assert!(rt; pair.module.size() == MODULE_SIZE && pair.store.size() == STORE_SIZE);
    assert!(rt; trail.size() == TRAIL_LEN);
    let status = run_audited(
        alloc,
        &words,
        &mut Workbench::new(),
        &mut ends.source,
        &mut ends.sink,
        &mut pair.module,
        &mut pair.store,
        &mut ends.entropy,
        trail,
    );
    (status, sent(rt, &ends.sink, REPLIES))
}

// How many bytes are shown of what a run left of a trail.
fn shown(rt: &impl Abort, alloc: Global, trail: &MemoryDisk) -> usize {
    let words = words_of(rt, alloc, &["trail"]);
    let mut sink = sink_of(rt, alloc);
    let mut trail = left(rt, alloc, trail, trail.noted(), Torn::New, CALLS);
    assert!(rt; trail.size() == TRAIL_LEN);
    let status = show_trail(alloc, &words, &mut sink, &mut trail);
    assert!(rt; status == DONE);
    sent(rt, &sink, RECORDS)
}

// How an audited run ends, a call of whose trail fails, and how many bytes are sent and shown.
fn ended(rt: &impl Abort, alloc: Global, call: u64) -> (AuditStatus, usize, usize) {
    let mut trail = disk_of(rt, alloc, TRAIL_LEN);
    trail.fail_at(call);
    let (status, replied) = audited(rt, alloc, &mut trail);
    (status, replied, shown(rt, alloc, &trail))
}

const DONE: AuditStatus = AuditStatus::Run(Status::Done);

const FAULT: AuditStatus = AuditStatus::TrailFault;

// A sync and two reads of each cell open a blank trail. A record is a read, and twice a write and a sync, before its reply.
const ENDS: [(u64, AuditStatus, usize, usize); 9] = [
    (0, FAULT, 0, 0),
    (8_192, FAULT, 0, 0),
    (8_193, FAULT, 0, 0),
    (8_194, FAULT, 0, 0),
    // the last sync of a record: it reads as written
    (8_197, FAULT, 0, 23),
    (8_198, FAULT, 13, 23),
    (8_202, FAULT, 13, 46),
    (8_207, FAULT, 40, 57),
    (8_208, DONE, 48, 57),
];

#[test]
fn a_trail_takes_so_many_calls(rt: HostRuntime) {
    for (call, status, replied, recorded) in ENDS {
        let found = ended(&rt, rt.alloc(), call);
        assert!(rt; found == (status, replied, recorded), "at call {call}");
    }
}
