//! Records that another program changed after the store was opened: each change leaves a body that may stand in a
//! cell, and still the record that is read again is damaged.
ghost use Rattle.key_records.specs.declared.records.TheConstants.{STORE_LEN};
ghost use Rattle.device_cells.specs.SilentMedium.{silent};

use crate::bodies::{CURRENT, OLD, body_of, bytes_of, with_byte};
use crate::second_tokens::{NEW, UNHELD, full_module, two_of};
use crate::stores::{opened, place_of, store_of, sure_label};
use key_cells::{Lease, Workbench};
use key_records::{RecordFault, STORE_LEN};
use slot_disk::{Disk, Failed, MemoryDisk};
use std::alloc::Global;
use std::process::Abort;

/// The bytes of a store, and others after so many reads. It tells none of them.
#[derive(Drop)]
struct ChangedStore {
    before: MemoryDisk,
    after: MemoryDisk,
    reads: u64,
}

/// Reads from a disk that has these bytes.
fn read_of(disk: &mut MemoryDisk, at: u64, out: &mut [u8]) {
    if at <= disk.size() && out.len() as u64 <= disk.size() - at {
        let _read = disk.read(at, out);
    }
}

impl Disk for ChangedStore {
    ghost medium = { λ _. silent STORE_LEN };

    ghost faults = { λ _. 0 };

    fn size(&self) -> u64 {
        STORE_LEN
    }

    fn read(&mut self, at: u64, out: &mut [u8]) -> Result<(), Failed> {
        if self.reads == 0 {
            read_of(&mut self.after, at, out);
        } else {
            self.reads -= 1;
            read_of(&mut self.before, at, out);
        }
        Ok(())
    }

    fn write(&mut self, _at: u64, _piece: &[u8]) -> Result<(), Failed> {
        Ok(())
    }

    fn sync(&mut self) -> Result<(), Failed> {
        Ok(())
    }
}

/// A null record.
fn null_of(text: &[u8]) -> [u8; 192] {
    body_of(1, text, &[0; 64])
}

/// A key with one token.
fn one_of(text: &[u8], token: &[u64; 8]) -> [u8; 192] {
    body_of(2, text, &bytes_of(token))
}

/// What is left in place of a token where none is answered.
const UNTOUCHED: [u8; 64] = [0xa5; 64];

/// A key A, a null record N, a key B that is ahead and a key T that is under its second token.
fn some_bodies() -> [(usize, [u8; 192]); 4] {
    [
        (0, one_of(b"A", &CURRENT)),
        (1, null_of(b"N")),
        (2, two_of(b"B", &CURRENT, &NEW)),
        (3, two_of(b"T", &UNHELD, &OLD)),
    ]
}

/// A store of which a cell has another body once it was opened, by 2,048 reads.
fn changed_store(rt: &impl Abort, alloc: Global, cell: u16, body: [u8; 192]) -> ChangedStore {
    let mut changed = some_bodies();
    changed[usize::from(cell) % 4].1 = body;
    ChangedStore {
        before: store_of(rt, alloc, &some_bodies(), 0),
        after: store_of(rt, alloc, &changed, 0),
        reads: 2048,
    }
}

/// What a read of a label answers once a cell has another body, and the 64 bytes that it leaves.
fn read_changed(
    rt: &impl Abort,
    alloc: Global,
    text: &[u8],
    cell: u16,
    body: [u8; 192],
) -> (Result<bool, RecordFault>, [u8; 64]) {
    let mut store = changed_store(rt, alloc, cell, body);
    let mut bench = Workbench::new();
    let mut lease = Lease::open(&mut bench);
    let records = opened(alloc, &full_module(), &mut store, &mut lease).expect(rt, "opened");
    let place = place_of(&records, &sure_label(rt, text)).expect(rt, "found");
    let mut token = UNTOUCHED;
    let found = records.read(&mut store, &mut lease, place, &mut token);
    (found, token)
}

/// Labels with their cells, and bodies that come there.
fn other_bodies() -> [(&'static [u8], u16, [u8; 192]); 12] {
    [
        // another label
        (b"A", 0, one_of(b"C", &CURRENT)),
        (b"N", 1, null_of(b"M")),
        (b"T", 3, two_of(b"A", &UNHELD, &OLD)),
        // the same label, with another kind of record
        (b"A", 0, null_of(b"A")),
        (b"N", 1, one_of(b"N", &CURRENT)),
        (b"B", 2, one_of(b"B", &CURRENT)),
        // no record, and a byte outside the table
        (b"B", 2, [0; 192]),
        (b"A", 0, with_byte(one_of(b"A", &CURRENT), 191, 1)),
        // a token under the pattern of another register
        (b"A", 0, one_of(b"A", &OLD)),
        (b"A", 0, two_of(b"A", &CURRENT, &NEW)),
        (b"B", 2, two_of(b"B", &CURRENT, &OLD)),
        (b"T", 3, two_of(b"T", &UNHELD, &CURRENT)),
    ]
}

/// A change of another cell is nothing to the label.
#[test]
fn a_record_that_changed_after_opening(rt: HostRuntime) {
    for (text, cell, body) in other_bodies() {
        let found = read_changed(&rt, rt.alloc(), text, cell, body);
        let wanted = (Err(RecordFault::Damaged(cell)), UNTOUCHED);
        assert!(rt; found == wanted, "{text:?} {body:?}");
    }
    let found = read_changed(&rt, rt.alloc(), b"A", 1, null_of(b"M"));
    assert!(rt; found == (Ok(true), bytes_of(&CURRENT)));
}
