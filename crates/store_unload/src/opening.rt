//! Opening the disks: the module first, since which cells of a store are damaged depends on its registers.
ghost use Rattle.std.specs.Prelude.{◌≡◌, ℕ, Err, IsOk, OnOk, IfOk, IfErr};
ghost use Rattle.key_cells.specs.Lease.{bench_of, loan_of};
ghost use Rattle.device_cells.specs.Faults.{Rose};
ghost use Rattle.device_cells.specs.Medium.{Told, Keeps};
ghost use Rattle.master_registers.specs.Loaded.{IsLoaded, StandsForLoaded, masters_in};
ghost use Rattle.verb_rules.specs.Keys.{keys_of};
ghost use Rattle.cca_roles.specs.RolesStand.{StandsForRoles};
ghost use Rattle.record_bodies.specs.StoreStands.{KeepsLabels, HoldsRows, IsFirstDamaged, labels_in};
ghost use Rattle.key_records.specs.Changes.{ChangesKeyAndBody};
ghost use Rattle.line_service.specs.Answering.{OnDisks};
ghost use Rattle.line_service.specs.Devices.{DamageTold, DiskLeft, HaveSizes, OpeningLeft};
ghost use Rattle.line_service.specs.Stops.{IsOpeningStop};
ghost use Rattle.cca_machine.specs.State.{State, module_size, store_size};
ghost use Rattle.request_rules.specs.Judging.{IsStoreStop};
ghost use Rattle.request_rules.specs.Standing.{tables};
ghost use Rattle.cca_machine.specs.Coprocessor.{cca, IsBrokenModule, IsModuleStop};
ghost use Rattle.store_unload.specs.Opening.{AreKnown, IsOpened};
ghost use Rattle.store_unload.specs.Stops.{load_stop, role_stop};

use cca_roles::{RoleFault, Roles, open_roles};
use device_cells::{Disk, settle};
use key_cells::Lease;
use key_records::{Records, open_records};
use line_service::{Device, Shown, Stop};
use master_registers::{LoadFault, Registers, load};
use request_rules::stop_of;

/// Opens the disks, and loads the registers into the bench. The module is judged before the store is called, and
/// nothing is written.
pub fn open_disks<M: Disk, D: Disk>(
    roles: &mut Roles,
    records: &mut Records,
    lease: &mut Lease,
    module: &mut M,
    store: &mut D,
) -> Result<Registers, Stop>
    requires { HaveSizes module_size store_size
        (⟦<(M, D) as Shown>⟧.shown («module».old, store.old)) }

    ensures known { OnOk result (AreKnown (tables roles.new records.new)
        (M.medium «module».new) (D.medium store.new)) }
    ensures opened { (s : State) → OnDisks cca s (M.medium «module».old) (D.medium store.old)
        → IfOk result (λ held. IsOpened s held (bench_of lease.new)
        (tables roles.new records.new) (D.medium store.new)) }
    ensures loaded { IfOk result (λ held. IsLoaded held (bench_of lease.new)) }
    ensures registers { IfOk result (λ held.
        Told (M.medium «module».old) (StandsForLoaded held (bench_of lease.new))) }
    ensures damage { DamageTold cca result (⟦<(M, D) as Shown>⟧.between
        («module».old, store.old) («module».new, store.new)) }
    ensures left { OpeningLeft result (⟦<(M, D) as Shown>⟧.between
        («module».old, store.old) («module».new, store.new)) }
    ensures stops { IfErr result IsOpeningStop }
    ensures loan { loan_of lease.new ≡ loan_of lease.old }
{
    match open_module(module, lease, roles) {
        Ok(held) => match open_store(store, lease, &held, records) {
            Ok(()) => Ok(held),
            Err(stop) => Err(stop),
        },
        Err(stop) => Err(stop),
    }
}

/// Makes every image of the module its content, loads its registers into the bench, and reads its roles.
fn open_module<M: Disk>(
    module: &mut M,
    lease: &mut Lease,
    roles: &mut Roles,
) -> Result<Registers, Stop>
    requires { (M.medium «module».old).size ≡ module_size }

    ensures loaded { IfOk result (λ held. IsLoaded held (bench_of lease.new)) }
    ensures registers { IfOk result (λ held.
        Told (M.medium «module».new) (StandsForLoaded held (bench_of lease.new))) }
    ensures roles { OnOk result
        (Told (M.medium «module».new) (λ image. StandsForRoles image roles.new)) }
    ensures damaged { (cell : ℕ) → result ≡ Err (Stop.Damaged Device.Module cell)
        → Told (M.medium «module».old) (IsBrokenModule cell) }
    ensures judged { (Rose (M.faults «module».old) (M.faults «module».new) → ⊥)
        → Told (M.medium «module».old) (λ image. (cell : ℕ) → IsBrokenModule cell image
        → result ≡ Err (Stop.Damaged Device.Module cell)) }
    ensures kept { Keeps (M.medium «module».old) (M.medium «module».new) }
    ensures left { DiskLeft (M.medium «module».old) (M.medium «module».new)
        (M.faults «module».old) (M.faults «module».new)
        (IsOk result) (result ≡ Err Stop.ModuleFault) }
    ensures stops { IfErr result IsModuleStop }
    ensures loan { loan_of lease.new ≡ loan_of lease.old }
{
    match settle(module) {
        Ok(()) => match load(module, lease) {
            Ok(held) => match open_roles(module, lease, roles) {
                Ok(()) => Ok(held),
                Err(fault) => Err(stop_of_roles(fault)),
            },
            Err(fault) => Err(stop_of_load(fault)),
        },
        Err(_) => Err(Stop::ModuleFault),
    }
}

/// Why the registers weren't loaded.
fn stop_of_load(fault: LoadFault) -> Stop
    ensures { result ≡ load_stop fault }
{
    match fault {
        LoadFault::DiskFault => Stop::ModuleFault,
        LoadFault::Damaged => Stop::Damaged(Device::Module, 0),
    }
}

/// Why the roles weren't read.
fn stop_of_roles(fault: RoleFault) -> Stop
    ensures { result ≡ role_stop fault }
{
    match fault {
        RoleFault::Damaged(cell) => Stop::Damaged(Device::Module, cell),
        RoleFault::DiskFault | RoleFault::TableFull | RoleFault::Unknown => Stop::ModuleFault,
    }
}

/// Makes every image of the store its content, and reads its labels under the registers that were loaded.
fn open_store<D: Disk>(
    store: &mut D,
    lease: &mut Lease,
    held: &Registers,
    records: &mut Records,
) -> Result<(), Stop>
    requires size { (D.medium store.old).size ≡ store_size }
    requires loaded { IsLoaded held.now (bench_of lease.old) }

    ensures keeps { OnOk result (Told (D.medium store.new) (λ image.
        KeepsLabels (keys_of (masters_in held.now (bench_of lease.old))) records.new
        (labels_in (keys_of (masters_in held.now (bench_of lease.old))) image) image)) }
    ensures holds { OnOk result (Told (D.medium store.new) (HoldsRows records.new)) }
    ensures damaged { (cell : ℕ) → result ≡ Err (Stop.Damaged Device.Store cell)
        → Told (D.medium store.old)
        (λ image. IsFirstDamaged (keys_of (masters_in held.now (bench_of lease.old))) image cell) }
    ensures judged { (Rose (D.faults store.old) (D.faults store.new) → ⊥)
        → Told (D.medium store.old) (λ image. (cell : ℕ)
        → IsFirstDamaged (keys_of (masters_in held.now (bench_of lease.old))) image cell
        → result ≡ Err (Stop.Damaged Device.Store cell)) }
    ensures kept { Keeps (D.medium store.old) (D.medium store.new) }
    ensures left { DiskLeft (D.medium store.old) (D.medium store.new)
        (D.faults store.old) (D.faults store.new)
        (IsOk result) (result ≡ Err Stop.StoreFault) }
    ensures stops { IfErr result IsStoreStop }
    ensures rest { ChangesKeyAndBody lease.old lease.new }
{
    match settle(store) {
        Ok(()) => match open_records(store, lease, held, records) {
            Ok(()) => Ok(()),
            Err(fault) => Err(stop_of(fault)),
        },
        Err(_) => Err(Stop::StoreFault),
    }
}
