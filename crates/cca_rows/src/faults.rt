//! Runs and a demo with one call of one device failing, and runs that meet no such call: so many calls are made.

use crate::runs::{Failing, blank, run_on, sent};
use cca_tool::Status;
use std::alloc::Global;
use std::process::Abort;

// A request that changes the module, one that draws random bytes, one that changes the store, and one that defines a role.
const REQUESTS: &[u8] = b"\
CSNBMKP role=DEFAULT action=CLEAR
CSNBRNG role=DEFAULT form=ODD
CSNBKRC role=DEFAULT label=K
CSUAACI role=DEFAULT action=DEFINE name=TELLER points=0000000f
";

const REPLIES: &[u8] = b"OK new=empty\nOK random=0101010101010101\nOK\nOK\n";

// How a run over blank disks ends, and how many bytes of its replies are sent.
fn ended(
    rt: &impl Abort,
    alloc: Global,
    words: &[&str],
    input: &[u8],
    failing: Failing,
) -> (Status, usize) {
    let (status, sink) = run_on(rt, alloc, words, input, failing, &mut blank(rt, alloc));
    (status, sent(rt, &sink, REPLIES))
}

#[test]
fn an_empty_input_has_no_reply(rt: HostRuntime) {
    assert!(rt; ended(&rt, rt.alloc(), &["run"], b"", Failing::None) == (Status::Done, 0));
}

// The calls of a run that fail, the first that isn't made any more, and how many bytes are sent before.
const ENDS: [(Failing, Status, usize); 26] = [
    // a read gives all lines, and one shows the end; each reply is a write; a key of eight bytes is drawn at once
    (Failing::Source(0), Status::ReadFault, 0),
    (Failing::Source(1), Status::ReadFault, 46),
    (Failing::Source(2), Status::Done, 46),
    (Failing::Sink(0), Status::WriteFault, 0),
    (Failing::Sink(3), Status::WriteFault, 43),
    (Failing::Sink(4), Status::Done, 46),
    (Failing::Entropy(0), Status::EntropyFault, 13),
    (Failing::Entropy(1), Status::Done, 46),
    // a sync and two reads of each cell open the module
    (Failing::Module(0), Status::ModuleFault, 0),
    (Failing::Module(66), Status::ModuleFault, 0),
    // each request is two reads, and its change a read, and twice a write and a sync
    (Failing::Module(67), Status::ModuleFault, 0),
    (Failing::Module(73), Status::ModuleFault, 0),
    (Failing::Module(74), Status::ModuleFault, 13),
    (Failing::Module(75), Status::ModuleFault, 13),
    (Failing::Module(76), Status::ModuleFault, 40),
    (Failing::Module(77), Status::ModuleFault, 40),
    (Failing::Module(78), Status::ModuleFault, 43),
    (Failing::Module(84), Status::ModuleFault, 43),
    (Failing::Module(85), Status::Done, 46),
    // a sync and two reads of each cell open the store
    (Failing::Store(0), Status::StoreFault, 0),
    (Failing::Store(1), Status::StoreFault, 0),
    (Failing::Store(2_048), Status::StoreFault, 0),
    // then the label is held by a read, and twice a write and a sync
    (Failing::Store(2_049), Status::StoreFault, 40),
    (Failing::Store(2_051), Status::StoreFault, 40),
    (Failing::Store(2_053), Status::StoreFault, 40),
    (Failing::Store(2_054), Status::Done, 46),
];

#[test]
fn a_run_makes_so_many_calls(rt: HostRuntime) {
    for (failing, status, count) in ENDS {
        let found = ended(&rt, rt.alloc(), &["run"], REQUESTS, failing);
        assert!(rt; found == (status, count), "{failing:?}");
    }
}

// A demo sends its one line at its end.
#[test]
fn a_demo_that_fails_sends_nothing(rt: HostRuntime) {
    for (failing, status) in [
        (Failing::Sink(0), Status::WriteFault),
        (Failing::Module(70), Status::ModuleFault),
        (Failing::Store(9), Status::StoreFault),
    ] {
        let found = ended(&rt, rt.alloc(), &["demo", "3"], b"x\n", failing);
        assert!(rt; found == (status, 0), "{failing:?}");
    }
}
