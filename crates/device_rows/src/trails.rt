//! A trail that is listed: its lines from the bytes of records, and a fault at each call of a device.
use audit_trail::{TRAIL_LEN, TrailFault};
use audited_service::{ListFault, list_trail};
use line_service::ReplyBuffer;
use slot_disk::{Disk, MemoryDisk, MemorySink};
use std::alloc::Global;
use std::process::Abort;

/// The first bytes of three records, each from the table of the format: of a request that names a label, of a line that
/// is none, and of a refused request that names no label. All bytes after them are zeros.
const RECORDS: [&[u8]; 3] = [
    b"\x01\0\0\0\0\0\0\0\0\0DEFAULT\0CSNBKRC\0\0\0\x05KEY.A",
    b"\x01\x02\0\0\0\0\0\0\0\x01",
    b"\x01\x1e\0\0\0\0\0\0\0\x02R2345678REENCIPHER",
];

/// How they are listed.
const LINES: &[u8] = b"0 00 DEFAULT CSNBKRC KEY.A\n1 02 - - -\n2 30 R2345678 REENCIPHER -\n";

/// A device that fails at a call, or that has room for so many bytes.
#[derive(Clone, Copy, Debug)]
enum Failing {
    Trail(u64),
    Sink(u64),
    Room(usize),
}

/// The bytes of a trail with these records.
fn image_of(rt: &impl Abort, alloc: Global) -> Vec<u8> {
    let mut image = vec![in alloc; 0u8; TRAIL_LEN as usize].expect(rt, "an image");
    for (cell, record) in RECORDS.iter().enumerate() {
        let at = 1_536 * (cell % 3) + 512;
        if record.len() <= 192 && at + 192 <= image.len() {
            image[at..at + record.len()].copy_from_slice(record);
        }
    }
    image
}

/// A trail with these bytes, which fails so.
fn trail_of(rt: &impl Abort, alloc: Global, image: &[u8], failing: Failing) -> MemoryDisk {
    let mut trail = MemoryDisk::from_image(alloc, image, 1).expect(rt, "a disk");
    if let Failing::Trail(call) = failing {
        trail.fail_at(call);
    }
    trail
}

/// A sink that fails so, or that has this room.
fn sink_of(rt: &impl Abort, alloc: Global, failing: Failing) -> MemorySink {
    let room = match failing {
        Failing::Room(room) => room,
        _ => 100,
    };
    let mut sink = MemorySink::new(alloc, room).expect(rt, "a sink");
    if let Failing::Sink(call) = failing {
        sink.fail_at(call);
    }
    sink
}

/// What listing this trail answers, and how many bytes of its lines are sent.
fn listed(
    rt: &impl Abort,
    alloc: Global,
    image: &[u8],
    failing: Failing,
) -> (Result<(), ListFault>, usize) {
    let mut trail = trail_of(rt, alloc, image, failing);
    let mut sink = sink_of(rt, alloc, failing);
    assert!(rt; trail.size() == TRAIL_LEN);
    let mut line = ReplyBuffer::new(alloc).expect(rt, "a line");
    let answer = list_trail(&mut line, &mut sink, &mut trail);
    assert!(rt; LINES.starts_with(sink.bytes()));
    (answer, sink.bytes().len())
}

const NO_TRAIL: Result<(), ListFault> = Err(ListFault::Trail(TrailFault::DiskFault));

const NO_SINK: Result<(), ListFault> = Err(ListFault::WriteFault);

/// A sync opens a trail, with two reads of each cell that are made twice where there are records. Then each record is two
/// reads, and its line one write. The disk has room for one note: a second sync would fail.
const LISTED: [(Failing, Result<(), ListFault>, usize); 12] = [
    (Failing::Trail(0), NO_TRAIL, 0),
    (Failing::Trail(8_193), NO_TRAIL, 0),
    (Failing::Trail(16_384), NO_TRAIL, 0),
    (Failing::Trail(16_386), NO_TRAIL, 0),
    (Failing::Trail(16_387), NO_TRAIL, 27),
    (Failing::Trail(16_390), NO_TRAIL, 38),
    (Failing::Trail(16_391), Ok(()), 65),
    (Failing::Sink(0), NO_SINK, 0),
    (Failing::Sink(2), NO_SINK, 38),
    (Failing::Sink(3), Ok(()), 65),
    (Failing::Room(0), NO_SINK, 0),
    (Failing::Room(64), NO_SINK, 64),
];

#[test]
fn a_trail_is_listed(rt: HostRuntime) {
    let image = image_of(&rt, rt.alloc());
    for (failing, wanted, sent) in LISTED {
        let found = listed(&rt, rt.alloc(), &image, failing);
        assert!(rt; found == (wanted, sent), "{failing:?}");
    }
}
