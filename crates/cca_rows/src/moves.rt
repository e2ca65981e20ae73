//! A store that is moved to another module, with one call of one device failing. The tokens here were made by another
//! program's triple DES and SHA-1 from the clear keys, after the definition of a token; each key that is drawn has the bytes 01.

use crate::runs::{
    CALLS, Failing, MODULE_SIZE, Pair, STORE_SIZE, blank, left_of, run_on, sent, sink_of, words_of,
};
use cca_tool::{MoveStatus, Status, unload};
use key_cells::Workbench;
use slot_disk::{Disk, MemorySink};
use std::alloc::Global;
use std::process::Abort;

// A master key, two transport keys, and the key of zeros, which came under a transport key.
const REQUESTS: &[u8] = b"\
CSNBMKP role=DEFAULT action=FIRST part=0102030405060708090a0b0c0d0e0f101112131415161718
CSNBMKP role=DEFAULT action=LAST part=000000000000000000000000000000000000000000000000
CSNBMKP role=DEFAULT action=SET
CSNBKRC role=DEFAULT label=IMP
CSNBKRC role=DEFAULT label=EXP
CSNBKRC role=DEFAULT label=ZERO
CSNBKGN role=DEFAULT form=OP length=16 type1=IMPORTER to=L:IMP
CSNBKGN role=DEFAULT form=OP length=16 type1=EXPORTER to=L:EXP
CSNBKIM role=DEFAULT token=020000000000c00000000000000000008ca64de9c1b123a700000000000000000000000000000000000000000000000000000000000000000000000050583190 transport=L:IMP to=L:ZERO
";

// The command that moves the keys under EXP to a module that holds the transport key under IMP.
const MOVE: [&str; 5] = ["unload", "DEFAULT", "EXP", "DEFAULT", "IMP"];

// The file: lines of 31 and 181 bytes for EXP, and of 32 and 182 for ZERO.
const FILE: &[u8] = b"\
CSNBKRC role=DEFAULT label=EXP
CSNBKIM role=DEFAULT token=020000000000c000000000000000000023f2c4edba8eb3cb23246490b3c57f7400417d000341000000417d0003210000000000000000000000000000be5116bc transport=L:IMP to=L:EXP
CSNBKRC role=DEFAULT label=ZERO
CSNBKIM role=DEFAULT token=020000000000c00000000000000000008ca64de9c1b123a700000000000000000000000000000000000000000000000000000000000000000000000050583190 transport=L:IMP to=L:ZERO
";

const REPORT: &[u8] = b"kept IMP target\n";

// The device that fails at the call of a number.
#[derive(Clone, Copy, Debug)]
enum Fault {
    File(u64),
    Report(u64),
    Module(u64),
    Store(u64),
}

// A file, a report and a pair.
#[derive(Drop)]
struct Move {
    file: MemorySink,
    report: MemorySink,
    pair: Pair,
}

// Makes the call of the device fail.
fn fail(fault: Fault, to: &mut Move) {
    match fault {
        Fault::File(call) => to.file.fail_at(call),
        Fault::Report(call) => to.report.fail_at(call),
        Fault::Module(call) => to.pair.module.fail_at(call),
        Fault::Store(call) => to.pair.store.fail_at(call),
    }
}

// Each disk notes one call, the sync that opens it: a write, or a further sync, would fail.
fn prepared(rt: &impl Abort, alloc: Global, from: &Pair, fault: Fault) -> Move {
    let mut to = Move {
        file: sink_of(rt, alloc),
        report: sink_of(rt, alloc),
        pair: left_of(rt, alloc, from),
    };
    fail(fault, &mut to);
    to
}

// How the move of a pair ends, and how many bytes of the file and of the report are sent.
fn moved(rt: &impl Abort, alloc: Global, from: &Pair, fault: Fault) -> (MoveStatus, usize, usize) {
    let words = words_of(rt, alloc, &MOVE);
    let mut to = prepared(rt, alloc, from, fault);
    assert!(rt; to.pair.module.size() == MODULE_SIZE && to.pair.store.size() == STORE_SIZE);
    let status = unload(
        alloc,
        &words,
        &mut Workbench::new(),
        &mut to.file,
        &mut to.report,
        &mut to.pair.module,
        &mut to.pair.store,
    );
    (
        status,
        sent(rt, &to.file, FILE),
        sent(rt, &to.report, REPORT),
    )
}

const DONE: MoveStatus = MoveStatus::Run(Status::Done);

const NO_WRITE: MoveStatus = MoveStatus::Run(Status::WriteFault);

const NO_MODULE: MoveStatus = MoveStatus::Run(Status::ModuleFault);

const NO_STORE: MoveStatus = MoveStatus::Run(Status::StoreFault);

// The calls of a move that fail, the first that isn't made any more, and how many bytes are sent before.
const ENDS: [(Fault, MoveStatus, usize, usize); 15] = [
    // two writes for each label that is moved, and one for the label that is kept, in ascending order
    (Fault::File(0), NO_WRITE, 0, 0),
    (Fault::File(1), NO_WRITE, 31, 0),
    (Fault::File(2), NO_WRITE, 212, 16),
    (Fault::File(4), DONE, 426, 16),
    (Fault::Report(0), MoveStatus::ReportFault, 212, 0),
    (Fault::Report(1), DONE, 426, 16),
    // a sync and two reads of each cell open the module, and two more give its registers
    (Fault::Module(0), NO_MODULE, 0, 0),
    (Fault::Module(66), NO_MODULE, 0, 0),
    (Fault::Module(67), DONE, 426, 16),
    // a sync and two reads of each cell open the store; then a record is two reads, of the transport key once more
    (Fault::Store(0), NO_STORE, 0, 0),
    (Fault::Store(2_048), NO_STORE, 0, 0),
    (Fault::Store(2_050), NO_STORE, 0, 0),
    (Fault::Store(2_052), NO_STORE, 0, 0),
    (Fault::Store(2_054), NO_STORE, 212, 16),
    (Fault::Store(2_055), DONE, 426, 16),
];

#[test]
fn a_move_makes_so_many_calls(rt: HostRuntime) {
    let mut from = blank(&rt, rt.alloc());
    let _run = run_on(
        &rt,
        rt.alloc(),
        &["run"],
        REQUESTS,
        Failing::None,
        &mut from,
    );
    assert!(rt; from.store.noted() < CALLS);
    for (fault, status, count, told) in ENDS {
        let found = moved(&rt, rt.alloc(), &from, fault);
        assert!(rt; found == (status, count, told), "{fault:?}");
    }
}
