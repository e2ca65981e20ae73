//! Lines of a source whose reads fail.
use line_service::{LineBuffer, LineFault, Taken, read_line};
use slot_disk::MemorySource;

/// What each call answers of two lines and a part of one, where the bytes come one by one and the sixth read fails; and the
/// line that it shows.
const CALLS: [(Result<Taken, LineFault>, &[u8]); 5] = [
    (Ok(Taken::Line), b"ONE"),
    (Err(LineFault::ReadFault), b""),
    (Ok(Taken::Line), b"TWO"),
    (Ok(Taken::Line), b"END"),
    (Ok(Taken::End), b""),
];

/// A line is whole though a read fails inside it.
#[test]
fn a_line_is_whole_after_a_fault(rt: HostRuntime) {
    let mut source = MemorySource::new(rt.alloc(), b"ONE\nTWO\nEND", 1).expect(&rt, "a source");
    source.fail_at(5);
    let mut lines = LineBuffer::new(rt.alloc()).expect(&rt, "a buffer");
    for (wanted, line) in CALLS {
        let taken = read_line(&mut source, &mut lines);
        assert!(rt; taken == wanted && lines.line() == line);
    }
}
