//! Changes of one record. Each writes one cell, which costs two writes and two syncs: a stop at any moment
//! leaves the labels before or after.
ghost use Rattle.std.specs.Prelude.{◌≡◌, ◌<◌, List, Option, None, Some, set, get_or, IfErr, IsSome};
ghost use Rattle.key_cells.specs.Lease.{bench_of};
ghost use Rattle.key_tokens.specs.Denotes.{ClearKey, MasterKeys, Denoted, denoted};
ghost use Rattle.key_records.specs.Changes.{AreBoth, ChangesLabels, ChangesRecord, RefusesLabel};
ghost use Rattle.record_bodies.specs.LabelChanges.{created, deleted, written, written_ahead};
ghost use Rattle.record_bodies.specs.Directory.{free_cell, AreApart, label_at};
ghost use Rattle.record_bodies.specs.Entries.{Entry, row_directory, row_label, label_or, null_row, key_row, both_row};
ghost use Rattle.record_bodies.specs.RecordBody.{null_body, key_body, both_body, blank_body, renewed, ReadsRow};
ghost use Rattle.record_bodies.specs.StoreStands.{KeepsLabels, HoldsRows};
ghost use Rattle.master_registers.specs.Loaded.{IsLoaded, masters_in};
ghost use Rattle.device_cells.specs.Medium.{Told, IsSettled};
ghost use Rattle.verb_rules.specs.Keys.{keys_of};

use crate::faults::RecordFault;
use crate::records::{Records, STORE_LEN};
use device_cells::{Cell, Disk, Steps, replace_cell};
use key_cells::Lease;
use master_registers::Registers;
use record_bodies::{
    BOTH, KEY, Label, NULL, Place, Row, Second, are_second, kept_token, no_second, pattern_in,
    write_blank, write_record,
};

impl Records {
    /// Holds a label, null, in the lowest cell that no label has. After `DiskFault` the records are to be
    /// opened again.
    pub fn create<D: Disk>(
        &mut self,
        store: &mut D,
        lease: &mut Lease,
        label: &Label,
    ) -> Result<(), RecordFault>
        requires size { (D.medium store.old).size ≡ STORE_LEN }
        requires settled { IsSettled (D.medium store.old) }
        requires holds { Told (D.medium store.old) (HoldsRows self.old) }

        ensures changes { ChangesRecord D.medium D.faults (free_cell (row_directory self.old))
            (null_body label.now) (Some (null_row label.now))
            self.old self.new lease.old lease.new store.old store.new result }
        ensures labels { (masters : MasterKeys) (s : List (Option Entry))
            → Told (D.medium store.old) (KeepsLabels masters self.old s)
            → ChangesLabels masters (free_cell (row_directory self.old)) s (created label.now s)
            self.new (D.medium store.old) (D.medium store.new) result }
        ensures refuses { RefusesLabel (row_directory self.old) label.now
            lease.old lease.new store.old store.new result }
    {
        let Some(cell) = self.free_cell() else {
            return Err(RecordFault::Full);
        };
        let mut steps: Steps<()> = Steps::new();
        if self.find(label, &mut steps).is_some() {
            return Err(RecordFault::Exists);
        }
        write_record(lease.body_mut(), NULL, label, &[0; 64], &no_second());
        let row = Row {
            label: *label,
            pattern: None,
            ahead: None,
        };
        self.change(store, lease, cell, Some(row))
    }

    /// No longer holds a label. After `DiskFault` the records are to be opened again.
    pub fn delete<D: Disk>(
        &mut self,
        store: &mut D,
        lease: &mut Lease,
        place: Place,
    ) -> Result<(), RecordFault>
        requires held { IsSome (label_at (row_directory self.old) place) }
        requires size { (D.medium store.old).size ≡ STORE_LEN }
        requires settled { IsSettled (D.medium store.old) }
        requires holds { Told (D.medium store.old) (HoldsRows self.old) }

        ensures changes { ChangesRecord D.medium D.faults place blank_body None
            self.old self.new lease.old lease.new store.old store.new result }
        ensures labels { (masters : MasterKeys) (s : List (Option Entry))
            → Told (D.medium store.old) (KeepsLabels masters self.old s)
            → ChangesLabels masters place s (deleted place s)
            self.new (D.medium store.old) (D.medium store.new) result }
        ensures faults { IfErr result (λ fault. fault ≡ RecordFault.DiskFault) }
    {
        let cell = self.cell(place);
        write_blank(lease.body_mut());
        self.change(store, lease, cell, None)
    }

    /// Gives a held label a key: the token is written with flag C0 and its validation value made anew. After
    /// `DiskFault` the records are to be opened again.
    pub fn write<D: Disk>(
        &mut self,
        store: &mut D,
        lease: &mut Lease,
        held: &Registers,
        place: Place,
        token: &[u8; 64],
    ) -> Result<(), RecordFault>
        requires held { IsSome (label_at (row_directory self.old) place) }
        requires size { (D.medium store.old).size ≡ STORE_LEN }
        requires settled { IsSettled (D.medium store.old) }
        requires holds { Told (D.medium store.old) (HoldsRows self.old) }
        requires loaded { IsLoaded held.now (bench_of lease.old) }
        requires key { IsSome
            (denoted (keys_of (masters_in held.now (bench_of lease.old))) token.now) }

        ensures changes { ChangesRecord D.medium D.faults place
            (key_body (label_or (get_or self.old place None)) (renewed token.now))
            (Some (key_row (label_or (get_or self.old place None)) token.now))
            self.old self.new lease.old lease.new store.old store.new result }
        ensures labels { (masters : MasterKeys) (s : List (Option Entry)) (key : Denoted)
            → Told (D.medium store.old) (KeepsLabels masters self.old s)
            → denoted masters token.now ≡ Some key
            → ChangesLabels masters place s (written place key s)
            self.new (D.medium store.old) (D.medium store.new) result }
        ensures faults { IfErr result (λ fault. fault ≡ RecordFault.DiskFault) }
    {
        let cell = self.cell(place);
        let label = self.label(place);
        let pattern = pattern_in(token);
        let token = kept_token(token);
        write_record(lease.body_mut(), KEY, &label, &token, &no_second());
        let row = Row {
            label,
            pattern: Some(pattern),
            ahead: None,
        };
        self.change(store, lease, cell, Some(row))
    }

    /// Gives a held label two tokens of one key: one under the current master key, which is written as `write`
    /// writes it, and one under a full new register. The label is then ahead. After `DiskFault` the records are to
    /// be opened again.
    pub fn write_both<D: Disk>(
        &mut self,
        store: &mut D,
        lease: &mut Lease,
        held: &Registers,
        place: Place,
        token: &[u8; 64],
        second: &Second,
    ) -> Result<(), RecordFault>
        requires held { IsSome (label_at (row_directory self.old) place) }
        requires size { (D.medium store.old).size ≡ STORE_LEN }
        requires settled { IsSettled (D.medium store.old) }
        requires holds { Told (D.medium store.old) (HoldsRows self.old) }
        requires loaded { IsLoaded held.now (bench_of lease.old) }
        requires both { (clear : ClearKey)
            × AreBoth (keys_of (masters_in held.now (bench_of lease.old)))
            token.now second.now clear }

        ensures changes { ChangesRecord D.medium D.faults place
            (both_body (label_or (get_or self.old place None)) (renewed token.now) second.now)
            (Some (both_row (label_or (get_or self.old place None)) token.now second.now.pattern))
            self.old self.new lease.old lease.new store.old store.new result }
        ensures labels { (masters : MasterKeys) (s : List (Option Entry)) (clear : ClearKey)
            → Told (D.medium store.old) (KeepsLabels masters self.old s)
            → AreBoth masters token.now second.now clear
            → ChangesLabels masters place s (written_ahead place clear s)
            self.new (D.medium store.old) (D.medium store.new) result }
        ensures faults { IfErr result (λ fault. fault ≡ RecordFault.DiskFault) }
    {
        let cell = self.cell(place);
        let label = self.label(place);
        let pattern = pattern_in(token);
        let token = kept_token(token);
        are_second(second);
        write_record(lease.body_mut(), BOTH, &label, &token, second);
        let row = Row {
            label,
            pattern: Some(pattern),
            ahead: Some(second.pattern),
        };
        self.change(store, lease, cell, Some(row))
    }

    /// Writes the body in the lease into a cell, and remembers what it holds.
    fn change<D: Disk>(
        &mut self,
        store: &mut D,
        lease: &Lease,
        cell: u16,
        row: Option<Row>,
    ) -> Result<(), RecordFault>
        requires within { cell < 1024 }
        requires size { (D.medium store.old).size ≡ STORE_LEN }
        requires settled { IsSettled (D.medium store.old) }
        requires reads { ReadsRow (bench_of lease.now).body row }
        requires apart { AreApart (set (row_directory self.old) cell (row_label row)) }
        requires holds { Told (D.medium store.old) (HoldsRows self.old) }
        ensures changes { ChangesRecord D.medium D.faults cell (bench_of lease.now).body row
            self.old self.new lease.now lease.now store.old store.new result }
        ensures faults { IfErr result (λ fault. fault ≡ RecordFault.DiskFault) }
    {
        if replace_cell(store, Cell::new(cell), lease.body()).is_err() {
            return Err(RecordFault::DiskFault);
        }
        self.set_row(cell, row);
        Ok(())
    }
}
