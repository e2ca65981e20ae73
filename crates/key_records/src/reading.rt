//! Reading the token of a label: one cell is read.
ghost use Rattle.std.specs.Prelude.{◌≡◌, ◌≢◌, ◌⊎◌, ◌+◌, ◌*◌, ◌≤◌, ◌<◌, ℕ, List, Bool, true, Option, None, Some};
ghost use Rattle.std.specs.Prelude.{Result, Ok, Err, get_or, IfErr, IfOk, IsSome};
ghost use Rattle.key_tokens.specs.Denotes.{MasterKeys};
ghost use Rattle.key_records.specs.Changes.{IsReadOf, ReadsToken, HasReadCause, KeepsAllButBody, has_key, ahead_at};
ghost use Rattle.key_cells.specs.Lease.{bench_of};
ghost use Rattle.record_bodies.specs.Directory.{label_at};
ghost use Rattle.record_bodies.specs.Entries.{Entry, row_directory, label_or};
ghost use Rattle.record_bodies.specs.RecordBody.{ReadsRow, StandsAs};
ghost use Rattle.record_bodies.specs.StoreStands.{KeepsLabels, HoldsRows, entry_at};
ghost use Rattle.device_cells.specs.Cells.{body};
ghost use Rattle.device_cells.specs.Medium.{Told, Keeps};

use crate::faults::RecordFault;
use crate::records::{Records, STORE_LEN};
use device_cells::{Cell, Disk, read_cell};
use key_cells::Lease;
use record_bodies::{Place, read_as};

impl Records {
    /// The token that a label is under, or false where the record is null. The token is written into `out`, which is
    /// untouched by any other answer. Damaged comes where the body that was read isn't that of the label as the memory
    /// knows it.
    pub fn read<D: Disk>(
        &self,
        store: &mut D,
        lease: &mut Lease,
        place: Place,
        out: &mut [u8; 64],
    ) -> Result<bool, RecordFault>
        requires held { IsSome (label_at (row_directory self.now) place) }
        requires size { (D.medium store.old).size ≡ STORE_LEN }
        requires holds { Told (D.medium store.old) (HoldsRows self.now) }

        ensures null { IfOk result (λ found. found ≡ has_key (get_or self.now place None)) }
        ensures token { (masters : MasterKeys) (s : List (Option Entry))
            → Told (D.medium store.old) (KeepsLabels masters self.now s)
            → IfOk result (λ found. Told (D.medium store.old)
            (λ _. ReadsToken masters (entry_at s place) found out.new)) }
        ensures bytes { result ≡ Ok true → Told (D.medium store.old) (λ image.
            StandsAs (body image place) (label_or (get_or self.now place None)) out.new
            (ahead_at (get_or self.now place None))) }
        // By the body that was read, whatever the store tells of its bytes.
        ensures own { IfOk result (λ found. IsReadOf (get_or self.now place None)
            (bench_of lease.new).body found out.new) }
        ensures misread { (n : ℕ) → result ≡ Err (RecordFault.Damaged n)
            → ReadsRow (bench_of lease.new).body (get_or self.now place None) → ⊥ }
        ensures untouched { result ≢ Ok true → out.new ≡ out.old }
        ensures damaged { (n : ℕ) → result ≡ Err (RecordFault.Damaged n)
            → (n ≡ place) × Told (D.medium store.old) (λ _. ⊥) }
        ensures faults { IfErr result (λ fault.
            (fault ≡ RecordFault.DiskFault) ⊎ (fault ≡ RecordFault.Damaged place)) }
        ensures keeps { Keeps (D.medium store.old) (D.medium store.new) }
        ensures cause { HasReadCause (D.faults store.old) (D.faults store.new) result }
        ensures rest { KeepsAllButBody lease.old lease.new }
    {
        self.read_held(store, lease, place, out)
    }

    // The same of a store that may hold anything: its cell is read into the body of the workbench, and that is judged.
    fn read_held<D: Disk>(
        &self,
        store: &mut D,
        lease: &mut Lease,
        place: Place,
        out: &mut [u8; 64],
    ) -> Result<bool, RecordFault>
        requires held { IsSome (label_at (row_directory self.now) place) }
        requires size { (D.medium store.old).size ≡ STORE_LEN }

        // The body is the one that the cell selects, where the store tells its bytes.
        ensures told { (result ≡ Err RecordFault.DiskFault → ⊥) → Told (D.medium store.old)
            (λ image. (bench_of lease.new).body ≡ body image place) }
        ensures within { place < 1024 }
        ensures null { IfOk result (λ found. found ≡ has_key (get_or self.now place None)) }
        ensures own { IfOk result (λ found. IsReadOf (get_or self.now place None)
            (bench_of lease.new).body found out.new) }
        ensures misread { (n : ℕ) → result ≡ Err (RecordFault.Damaged n)
            → (n ≡ place)
            × (ReadsRow (bench_of lease.new).body (get_or self.now place None) → ⊥) }
        ensures untouched { result ≢ Ok true → out.new ≡ out.old }
        ensures faults { IfErr result (λ fault.
            (fault ≡ RecordFault.DiskFault) ⊎ (fault ≡ RecordFault.Damaged place)) }
        ensures keeps { Keeps (D.medium store.old) (D.medium store.new) }
        ensures cause { HasReadCause (D.faults store.old) (D.faults store.new) result }
        ensures rest { KeepsAllButBody lease.old lease.new }
    {
        let cell = self.cell(place);
        if read_cell(store, Cell::new(cell), lease.body_mut()).is_err() {
            return Err(RecordFault::DiskFault);
        }
        self.judge_read(place, lease.body(), out)
    }

    // What the body that was read of the cell of a label says.
    fn judge_read(
        &self,
        place: Place,
        read: &[u8; 192],
        out: &mut [u8; 64],
    ) -> Result<bool, RecordFault>
        requires { IsSome (label_at (row_directory self.now) place) }
        ensures null { IfOk result (λ found. found ≡ has_key (get_or self.now place None)) }
        ensures own { IfOk result (λ found.
            IsReadOf (get_or self.now place None) read.now found out.new) }
        ensures misread { (n : ℕ) → result ≡ Err (RecordFault.Damaged n)
            → (n ≡ place) × (ReadsRow read.now (get_or self.now place None) → ⊥) }
        ensures untouched { result ≢ Ok true → out.new ≡ out.old }
        ensures faults { IfErr result (λ fault. fault ≡ RecordFault.Damaged place) }
    {
        let row = self.row(place);
        match read_as(read, &row) {
            Some(Some(token)) => {
                *out = token;
                Ok(true)
            }
            Some(None) => Ok(false),
            None => Err(RecordFault::Damaged(self.cell(place))),
        }
    }
}
