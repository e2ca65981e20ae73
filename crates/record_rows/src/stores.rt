//! Stores with records, and what is found in them.
ghost use Rattle.std.specs.Prelude.{◌≡◌, IfOk, IsSome};
ghost use Rattle.record_bodies.specs.Directory.{label_at};
ghost use Rattle.record_bodies.specs.Entries.{row_directory};
ghost use Rattle.record_bodies.specs.StoreStands.{HoldsRows};
ghost use Rattle.key_records.specs.declared.records.TheConstants.{STORE_LEN};
ghost use Rattle.device_cells.specs.Medium.{Keeps, Told};

use crate::masters::load_masters;
use key_cells::Lease;
use key_records::{Label, Place, RecordFault, Records, STORE_LEN, open_records};
use slot_disk::{Cell, Disk, MemoryDisk, Steps, read_cell};
use std::alloc::Global;
use std::process::Abort;

/// Why a step before the one that is looked at, or this one itself, didn't come to its end.
#[derive(Clone, Copy, Debug, PartialEq, Eq)]
pub(crate) enum Stop {
    Memory,
    /// The disk has another size than a store.
    Size,
    Settle,
    Load,
    Open(RecordFault),
    /// No cell holds the label, or the text is no label.
    Unknown,
    /// The token is none that is kept.
    Token,
    Change(RecordFault),
    /// The new master key isn't one that the store may be prepared for.
    Taken,
    Run(RecordFault),
    Read(RecordFault),
}

/// The records of a store, as they are opened, where the disk has the size of one.
pub(crate) fn opened<D: Disk>(
    alloc: Global,
    module: &[u8; 1536],
    store: &mut D,
    lease: &mut Lease,
) -> Result<Records, Stop>
    ensures size { IfOk result (λ _. (D.medium store.old).size ≡ STORE_LEN) }
    ensures holds { IfOk result (λ records. Told (D.medium store.new) (HoldsRows records)) }
    ensures keeps { Keeps (D.medium store.old) (D.medium store.new) }
{
    if store.size() != STORE_LEN {
        return Err(Stop::Size);
    }
    let held = load_masters(alloc, module, lease)?;
    let Ok(mut records) = Records::new(alloc) else {
        return Err(Stop::Memory);
    };
    match open_records(store, lease, &held, &mut records) {
        Ok(()) => Ok(records),
        Err(fault) => Err(Stop::Open(fault)),
    }
}

/// The label, in a test that ends where it is none.
pub(crate) fn sure_label(rt: &impl Abort, text: &[u8]) -> Label {
    Label::read(text).expect(rt, "a label")
}

/// Where a label is held.
pub(crate) fn place_of(records: &Records, label: &Label) -> Result<Place, Stop>
    ensures { IfOk result (λ place. IsSome (label_at (row_directory records.now) place)) }
{
    let mut steps: Steps<()> = Steps::new();
    records.find(label, &mut steps).ok_or(Stop::Unknown)
}

/// Puts a body where the first selector points.
fn put_body(image: &mut [u8], cell: usize, body: &[u8; 192]) {
    let at = 1536 * (cell % 1024) + 512;
    if at + 192 <= image.len() {
        image[at..at + 192].copy_from_slice(body);
    }
}

/// A store whose cells have these bodies, with room to note so many writes and syncs.
pub(crate) fn store_of(
    rt: &impl Abort,
    alloc: Global,
    bodies: &[(usize, [u8; 192])],
    room: u64,
) -> MemoryDisk {
    let mut image = vec![in alloc; 0u8; STORE_LEN as usize].expect(rt, "an image");
    for (cell, body) in bodies {
        put_body(&mut image, *cell, body);
    }
    MemoryDisk::from_image(alloc, &image, room).expect(rt, "a disk")
}

/// The selected body of a cell of a store.
pub(crate) fn cell_body(rt: &impl Abort, store: &mut MemoryDisk, cell: u16) -> [u8; 192] {
    let mut found = [0xff; 192];
    assert!(rt; store.size() == STORE_LEN && cell <= 1023);
    assert!(rt; read_cell(store, Cell::new(cell), &mut found).is_ok());
    found
}
