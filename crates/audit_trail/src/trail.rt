//! A trail: records are appended, and those that are held are read.
ghost use Rattle.std.specs.Prelude.{◌≡◌, ◌↔◌, ◌⊎◌, ◌+◌, ◌-◌, ◌*◌, ◌%◌, ◌^◌, ◌≤◌, ◌<◌, ℕ, Ok, Err, OnErr, OnOk, IfOk, IfErr, IsOk, IsTrue, true, false};
ghost use Rattle.device_cells.specs.Cells.{body};
ghost use Rattle.device_cells.specs.Medium.{Told, IsSettled, Keeps};
ghost use Rattle.audit_trail.specs.Changes.{AppendsEntry, TrailLeft, Remembers};
ghost use Rattle.audit_trail.specs.Entries.{IsEntry};
ghost use Rattle.audit_trail.specs.RecordBody.{Spells};
ghost use Rattle.audit_trail.specs.TrailStands.{trail_size, StandsForTrail, IsHeld};
ghost use Rattle.audit_trail.specs.declared.entries.Entry.{Entry as AnyEntry};

use crate::bodies::{read_entry, write_record};
use crate::entries::Entry;
use crate::faults::TrailFault;
use device_cells::{Cell, Disk, read_cell, replace_cell};
use std::marker::Model;

/// How many records are held: the cells of a trail.
pub const CELLS: u16 = 4_096;

/// The same, beside numbers of records.
pub(crate) const HELD: u64 = CELLS as u64;

/// The bytes of a trail: a cell for each record that is held.
pub const TRAIL_LEN: u64 = 6_291_456;

/// Numbers of records are below this.
pub(crate) const NUMBERS: u64 = 1 << 63;

/// What the memory knows of a trail: the number that the next record gets.
#[derive(Debug, Drop)]
pub struct Trail {
    next: u64,
}

// Clauses see that number.
impl Model for Trail {
    ghost use Rattle.std.specs.Prelude.{ℕ, ◌≤◌, ◌^◌};

    ghost Value = { ℕ };

    ghost view = { λ t. t.next };

    ghost invariant = { λ t. t.next ≤ 2 ^ 63 };
}

/// The cell of the record with this number.
pub(crate) fn cell_of(number: u64) -> u16
    ensures { result ≡ number % 4096 }
{
    (number % HELD) as u16
}

/// Writes the record of the next number.
fn put_record<T: Disk>(trail: &mut T, next: u64, entry: &Entry) -> Result<(), TrailFault>
    requires size { (T.medium trail.old).size ≡ trail_size }
    requires settled { IsSettled (T.medium trail.old) }
    requires stands { Told (T.medium trail.old) (λ image. StandsForTrail image next) }
    requires below { next < 2 ^ 63 }
    requires entry { IsEntry entry.now }

    ensures appended { AppendsEntry next entry.now
        (T.medium trail.old) (T.medium trail.new) result }
    ensures stands { OnOk result
        (Told (T.medium trail.new) (λ image. StandsForTrail image (next + 1))) }
    ensures fault { IfErr result (λ fault. fault ≡ TrailFault.DiskFault) }
    ensures left { TrailLeft (T.medium trail.old) (T.medium trail.new)
        (T.faults trail.old) (T.faults trail.new)
        (IsOk result) (result ≡ Err TrailFault.DiskFault) }
{
    let mut body = [0; 192];
    write_record(&mut body, next, entry);
    match replace_cell(trail, Cell::new(cell_of(next)), &body) {
        Ok(()) => Ok(()),
        Err(_) => Err(TrailFault::DiskFault),
    }
}

/// Reads the cell of a number into `bytes`, and the record of that number into `out`. Damaged comes where the body that
/// was read doesn't spell it; then, and after a fault of the disk, `out` is as before.
fn read_held<T: Disk>(
    trail: &mut T,
    number: u64,
    bytes: &mut [u8; 192],
    out: &mut Entry,
) -> Result<(), TrailFault>
    requires { (T.medium trail.old).size ≡ trail_size }

    // By the body that was read, whatever the trail tells of its bytes.
    ensures own { OnOk result (Spells bytes.new number out.new) }
    ensures damaged { (cell : ℕ) → result ≡ Err (TrailFault.Damaged cell)
        → (cell ≡ number % 4096) × ((e : AnyEntry) → Spells bytes.new number e → ⊥) }
    // That body, where the trail tells them.
    ensures told { (result ≡ Err TrailFault.DiskFault → ⊥)
        → Told (T.medium trail.old) (λ image. bytes.new ≡ body image (number % 4096)) }
    ensures unread { OnErr result (out.new ≡ out.old) }
    ensures faults { IfErr result (λ fault.
        (fault ≡ TrailFault.DiskFault) ⊎ (fault ≡ TrailFault.Damaged (number % 4096))) }
    ensures keeps { Keeps (T.medium trail.old) (T.medium trail.new) }
    ensures left { TrailLeft (T.medium trail.old) (T.medium trail.new)
        (T.faults trail.old) (T.faults trail.new)
        (IsSettled (T.medium trail.old)) (result ≡ Err TrailFault.DiskFault) }
{
    match read_cell(trail, Cell::new(cell_of(number)), bytes) {
        Ok(()) => match read_entry(bytes, number) {
            Some(entry) => {
                *out = entry;
                Ok(())
            }
            None => Err(TrailFault::Damaged(cell_of(number))),
        },
        Err(_) => Err(TrailFault::DiskFault),
    }
}

impl Trail {
    /// A trail without any record.
    pub fn new() -> Trail
        ensures { result ≡ 0 }
    {
        Trail { next: 0 }
    }

    /// A trail whose newest record has this number.
    pub(crate) fn after(number: u64) -> Trail
        requires { number < 2 ^ 63 }
        ensures { result ≡ number + 1 }
    {
        Trail { next: number + 1 }
    }

    /// The number that the next record gets.
    pub fn next_number(&self) -> u64
        ensures number { result ≡ self.now }
        ensures low { self.now ≤ 2 ^ 63 }
    {
        self.next
    }

    /// Whether the record of this number is one of those that are held.
    fn holds(&self, number: u64) -> bool
        ensures { IsTrue result ↔ IsHeld number self.now }
    {
        number < self.next && self.next - number <= HELD
    }

    /// Writes the next record. A stop at any moment leaves the records before, or these with the new one. After
    /// `DiskFault` the trail is to be opened again.
    pub fn append<T: Disk>(&mut self, trail: &mut T, entry: &Entry) -> Result<(), TrailFault>
        requires size { (T.medium trail.old).size ≡ trail_size }
        requires settled { IsSettled (T.medium trail.old) }
        requires stands { Told (T.medium trail.old) (λ image. StandsForTrail image self.old) }
        requires entry { IsEntry entry.now }

        ensures appended { AppendsEntry self.old entry.now
            (T.medium trail.old) (T.medium trail.new) result }
        ensures memory { Remembers self.old self.new result }
        ensures stands { OnOk result
            (Told (T.medium trail.new) (λ image. StandsForTrail image self.new)) }
        ensures full { (result ≡ Err TrailFault.Full) ↔ (self.old ≡ 2 ^ 63) }
        ensures untouched { result ≡ Err TrailFault.Full → trail.new ≡ trail.old }
        ensures faults { IfErr result (λ fault.
            (fault ≡ TrailFault.DiskFault) ⊎ (fault ≡ TrailFault.Full)) }
        ensures left { TrailLeft (T.medium trail.old) (T.medium trail.new)
            (T.faults trail.old) (T.faults trail.new)
            (IsOk result) (result ≡ Err TrailFault.DiskFault) }
    {
        if self.next == NUMBERS {
            return Err(TrailFault::Full);
        }
        put_record(trail, self.next, entry)?;
        self.next += 1;
        Ok(())
    }

    /// Reads the record of a number into `out`, and answers whether it is held. Where it isn't, or after an error,
    /// `out` is as before.
    pub fn read_entry<T: Disk>(
        &self,
        trail: &mut T,
        number: u64,
        out: &mut Entry,
    ) -> Result<bool, TrailFault>
        requires size { (T.medium trail.old).size ≡ trail_size }
        requires stands { Told (T.medium trail.old) (λ image. StandsForTrail image self.now) }

        ensures held { IfOk result (λ held. IsTrue held ↔ IsHeld number self.now) }
        ensures unheld { (IsHeld number self.now → ⊥)
            → (result ≡ Ok false) × (trail.new ≡ trail.old) }
        ensures spelled { result ≡ Ok true → Told (T.medium trail.old)
            (λ image. Spells (body image (number % 4096)) number out.new) }
        // What is answered has the forms of an entry, whatever the trail tells of its bytes.
        ensures whole { result ≡ Ok true → IsEntry out.new }
        ensures unread { (result ≡ Ok true → ⊥) → out.new ≡ out.old }
        // A trail that tells its bytes doesn't turn out damaged.
        ensures damaged { (cell : ℕ) → result ≡ Err (TrailFault.Damaged cell)
            → (cell ≡ number % 4096) × IsHeld number self.now × Told (T.medium trail.old) (λ c. ⊥) }
        ensures faults { IfErr result (λ fault.
            (fault ≡ TrailFault.DiskFault) ⊎ (fault ≡ TrailFault.Damaged (number % 4096))) }
        ensures keeps { Keeps (T.medium trail.old) (T.medium trail.new) }
        ensures left { TrailLeft (T.medium trail.old) (T.medium trail.new)
            (T.faults trail.old) (T.faults trail.new)
            (IsSettled (T.medium trail.old)) (result ≡ Err TrailFault.DiskFault) }
    {
        self.read_number(trail, number, &mut [0; 192], out)
    }

    // The same of a trail that may hold anything: the cell of a number that is held is read into `bytes`, and that is
    // judged.
    fn read_number<T: Disk>(
        &self,
        trail: &mut T,
        number: u64,
        bytes: &mut [u8; 192],
        out: &mut Entry,
    ) -> Result<bool, TrailFault>
        requires { (T.medium trail.old).size ≡ trail_size }

        ensures held { IfOk result (λ held. IsTrue held ↔ IsHeld number self.now) }
        ensures unheld { (IsHeld number self.now → ⊥)
            → (result ≡ Ok false) × (trail.new ≡ trail.old) }
        // By the body that was read, whatever the trail tells of its bytes.
        ensures own { result ≡ Ok true → Spells bytes.new number out.new }
        ensures damaged { (cell : ℕ) → result ≡ Err (TrailFault.Damaged cell)
            → (cell ≡ number % 4096) × IsHeld number self.now
            × ((e : AnyEntry) → Spells bytes.new number e → ⊥) }
        // That body, where the trail tells them.
        ensures told { (result ≡ Ok false → ⊥) → (result ≡ Err TrailFault.DiskFault → ⊥)
            → Told (T.medium trail.old) (λ image. bytes.new ≡ body image (number % 4096)) }
        ensures unread { (result ≡ Ok true → ⊥) → out.new ≡ out.old }
        ensures faults { IfErr result (λ fault.
            (fault ≡ TrailFault.DiskFault) ⊎ (fault ≡ TrailFault.Damaged (number % 4096))) }
        ensures keeps { Keeps (T.medium trail.old) (T.medium trail.new) }
        ensures left { TrailLeft (T.medium trail.old) (T.medium trail.new)
            (T.faults trail.old) (T.faults trail.new)
            (IsSettled (T.medium trail.old)) (result ≡ Err TrailFault.DiskFault) }
    {
        if !self.holds(number) {
            return Ok(false);
        }
        match read_held(trail, number, bytes, out) {
            Ok(()) => Ok(true),
            Err(fault) => Err(fault),
        }
    }
}
