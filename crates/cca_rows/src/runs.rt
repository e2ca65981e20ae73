//! Runs over two disks, with one call of one device failing, and how they end. A call that gives no value for want of memory
//! ends its test.

use cca_tool::{Status, Words, run};
use key_cells::Workbench;
use slot_disk::{Disk, MemoryDisk, MemoryEntropy, MemorySink, MemorySource, Torn};
use std::alloc::Global;
use std::process::Abort;

// The bytes of a module.
pub(crate) const MODULE_SIZE: u64 = 50_688;

// The bytes of a store.
pub(crate) const STORE_SIZE: u64 = 1_572_864;

// The writes and syncs that a disk here notes.
pub(crate) const CALLS: u64 = 200;

// A device, of which the call of a number fails.
#[derive(Clone, Copy, Debug)]
pub(crate) enum Failing {
    None,
    Source(u64),
    Sink(u64),
    Entropy(u64),
    Module(u64),
    Store(u64),
}

// A module and its store.
#[derive(Drop)]
pub(crate) struct Pair {
    pub(crate) module: MemoryDisk,
    pub(crate) store: MemoryDisk,
}

// The devices of a run but for its disks.
#[derive(Drop)]
pub(crate) struct Ends {
    pub(crate) source: MemorySource,
    pub(crate) sink: MemorySink,
    pub(crate) entropy: MemoryEntropy,
}

// A disk of zeros.
pub(crate) fn disk_of(rt: &impl Abort, alloc: Global, size: u64) -> MemoryDisk {
    MemoryDisk::new(alloc, size, CALLS).expect(rt, "a disk")
}

// A pair that has served no request.
pub(crate) fn blank(rt: &impl Abort, alloc: Global) -> Pair {
    Pair {
        module: disk_of(rt, alloc, MODULE_SIZE),
        store: disk_of(rt, alloc, STORE_SIZE),
    }
}

// A sink with more room than the replies here need.
pub(crate) fn sink_of(rt: &impl Abort, alloc: Global) -> MemorySink {
    MemorySink::new(alloc, 4_096).expect(rt, "a sink")
}

// An input that is read in pieces of so many bytes.
pub(crate) fn source_of(
    rt: &impl Abort,
    alloc: Global,
    input: &[u8],
    piece: usize,
) -> MemorySource {
    assert!(rt; piece > 0);
    MemorySource::new(alloc, input, piece).expect(rt, "a source")
}

// Random bytes that are zeros.
pub(crate) fn zeros_of(rt: &impl Abort, alloc: Global) -> MemoryEntropy {
    MemoryEntropy::new(alloc, &[0; 100]).expect(rt, "random bytes")
}

pub(crate) fn ends_of(rt: &impl Abort, alloc: Global, input: &[u8], piece: usize) -> Ends {
    Ends {
        source: source_of(rt, alloc, input, piece),
        sink: sink_of(rt, alloc),
        entropy: zeros_of(rt, alloc),
    }
}

// How many bytes of these a sink got: it got others in no case.
pub(crate) fn sent(rt: &impl Abort, sink: &MemorySink, whole: &[u8]) -> usize {
    assert!(rt; whole.starts_with(sink.bytes()));
    sink.bytes().len()
}

// What a stop leaves of a disk after so many writes and syncs, with room to note others.
pub(crate) fn left(
    rt: &impl Abort,
    alloc: Global,
    disk: &MemoryDisk,
    noted: u64,
    torn: Torn,
    room: u64,
) -> MemoryDisk {
    assert!(rt; noted <= disk.noted());
    disk.crash(alloc, noted, torn, room).expect(rt, "a disk")
}

// What a stop leaves of a pair after all its calls, with room to note one further call of each disk.
pub(crate) fn left_of(rt: &impl Abort, alloc: Global, pair: &Pair) -> Pair {
    Pair {
        module: left(rt, alloc, &pair.module, pair.module.noted(), Torn::New, 1),
        store: left(rt, alloc, &pair.store, pair.store.noted(), Torn::New, 1),
    }
}

pub(crate) fn words_of(rt: &impl Abort, alloc: Global, list: &[&str]) -> Words {
    let mut words = Words::new(alloc);
    for word in list {
        words.push(word).expect(rt, "a word");
    }
    words
}

// Makes the call of the device fail.
fn fail(failing: Failing, ends: &mut Ends, pair: &mut Pair) {
    match failing {
        Failing::None => {}
        Failing::Source(call) => ends.source.fail_at(call),
        Failing::Sink(call) => ends.sink.fail_at(call),
        Failing::Entropy(call) => ends.entropy.fail_at(call),
        Failing::Module(call) => pair.module.fail_at(call),
        Failing::Store(call) => pair.store.fail_at(call),
    }
}

// Runs a command over a pair: how it ends, and what it sends to.
pub(crate) fn run_on(
    rt: &impl Abort,
    alloc: Global,
    words: &[&str],
    input: &[u8],
    failing: Failing,
    pair: &mut Pair,
) -> (Status, MemorySink) {
    let words = words_of(rt, alloc, words);
    let mut ends = ends_of(rt, alloc, input, 1_000);
    fail(failing, &mut ends, pair);
    assert!(rt; pair.module.size() == MODULE_SIZE && pair.store.size() == STORE_SIZE);
    let status = run(
        alloc,
        &words,
        &mut Workbench::new(),
        &mut ends.source,
        &mut ends.sink,
        &mut pair.module,
        &mut pair.store,
        &mut ends.entropy,
    );
    (status, ends.sink)
}
