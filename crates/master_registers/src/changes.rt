//! The steps of a key ceremony on a module. Each writes cell 0 of the module, and nothing more: a stop at any moment
//! leaves the old registers or the new ones.
ghost use Rattle.std.specs.Prelude.{◌≡◌, ◌≢◌, ◌≤◌, ◌↔◌, IfOk, IsTrue, Result, Err};
ghost use Rattle.device_cells.specs.Medium.{Told, IsSettled};
ghost use Rattle.key_cells.specs.Lease.{bench_of, holding};
ghost use Rattle.master_registers.specs.Actions.{after_action, has_wrong_state, repeats_pattern};
ghost use Rattle.master_registers.specs.Changes.{CarriesOut, ChangesModule, HasDiskCause, IsLoadedFrom, WhenRefused};
ghost use Rattle.master_registers.specs.Loaded.{IsLoaded, masters_in};
ghost use Rattle.master_registers.specs.Masters.{Masters, after_first, after_middle, after_last, cleared, after_set};
ghost use Rattle.master_registers.specs.Masters.{first_refused, combine_refused, set_refused, same_pattern};
ghost use Rattle.master_registers.specs.RegisterBody.{registers_body, StandsForMasters};

use crate::actions::Action;
use crate::faults::RegisterFault;
use crate::forms::write_form;
use crate::prepared::prepare;
use crate::registers::Registers;
use device_cells::{Cell, Disk, replace_cell};
use key_cells::Lease;

/// FIRST: puts the key part in the place `Part` into the empty new register, which is then partly full. RegisterState
/// comes exactly where new isn't empty.
///
/// The lease holds what `load` or the last step gave. Of it the places `Current`, `Old` and `New` and the body change. A
/// refusal by a rule leaves it and the module untouched.
pub fn first<M: Disk>(
    module: &mut M,
    lease: &mut Lease,
    held: &Registers,
) -> Result<Registers, RegisterFault>
    requires { IsLoadedFrom (M.medium «module».old) held.now (bench_of lease.old) }
    ensures registers { let bench = bench_of lease.old in
        let m = masters_in held.now bench in
        CarriesOut M.medium M.faults m (after_first bench.part m)
        lease.old lease.new «module».old «module».new result }
    ensures state { (result ≡ Err RegisterFault.RegisterState)
        ↔ IsTrue (first_refused (masters_in held.now (bench_of lease.old))) }
    ensures same { result ≢ Err RegisterFault.SamePattern }
{
    change(Action::First, module, lease, held)
}

/// MIDDLE: XORs the key part in the place `Part` into the partly full new register, which stays partly full.
/// RegisterState comes exactly where new isn't partly full.
///
/// The lease holds what `load` or the last step gave. Of it the places `Current`, `Old` and `New` and the body change. A
/// refusal by a rule leaves it and the module untouched.
pub fn middle<M: Disk>(
    module: &mut M,
    lease: &mut Lease,
    held: &Registers,
) -> Result<Registers, RegisterFault>
    requires { IsLoadedFrom (M.medium «module».old) held.now (bench_of lease.old) }
    ensures registers { let bench = bench_of lease.old in
        let m = masters_in held.now bench in
        CarriesOut M.medium M.faults m (after_middle bench.part m)
        lease.old lease.new «module».old «module».new result }
    ensures state { (result ≡ Err RegisterFault.RegisterState)
        ↔ IsTrue (combine_refused (masters_in held.now (bench_of lease.old))) }
    ensures same { result ≢ Err RegisterFault.SamePattern }
{
    change(Action::Middle, module, lease, held)
}

/// LAST: XORs the key part in the place `Part` into the partly full new register, which is then full. RegisterState
/// comes exactly where new isn't partly full.
///
/// The lease holds what `load` or the last step gave. Of it the places `Current`, `Old` and `New` and the body change. A
/// refusal by a rule leaves it and the module untouched.
pub fn last<M: Disk>(
    module: &mut M,
    lease: &mut Lease,
    held: &Registers,
) -> Result<Registers, RegisterFault>
    requires { IsLoadedFrom (M.medium «module».old) held.now (bench_of lease.old) }
    ensures registers { let bench = bench_of lease.old in
        let m = masters_in held.now bench in
        CarriesOut M.medium M.faults m (after_last bench.part m)
        lease.old lease.new «module».old «module».new result }
    ensures state { (result ≡ Err RegisterFault.RegisterState)
        ↔ IsTrue (combine_refused (masters_in held.now (bench_of lease.old))) }
    ensures same { result ≢ Err RegisterFault.SamePattern }
{
    change(Action::Last, module, lease, held)
}

/// CLEAR: empties the new register from any state; no rule refuses it. The selected body of the cell has zeros in the
/// register's place then; the other body isn't erased.
///
/// The lease holds what `load` or the last step gave. Of it the places `Current`, `Old` and `New` and the body change. A
/// refusal by a rule leaves it and the module untouched.
pub fn clear<M: Disk>(
    module: &mut M,
    lease: &mut Lease,
    held: &Registers,
) -> Result<Registers, RegisterFault>
    requires { IsLoadedFrom (M.medium «module».old) held.now (bench_of lease.old) }
    ensures registers { let bench = bench_of lease.old in
        let m = masters_in held.now bench in
        CarriesOut M.medium M.faults m (cleared m)
        lease.old lease.new «module».old «module».new result }
    ensures state { result ≢ Err RegisterFault.RegisterState }
    ensures same { result ≢ Err RegisterFault.SamePattern }
{
    change(Action::Clear, module, lease, held)
}

/// SET: moves current to old, where current is full, and the full new register to current, and empties new.
/// RegisterState comes exactly where new isn't full, and SamePattern exactly where new is full and current is full with
/// the same pattern. Whether a key is still enciphered under the old master key isn't asked here.
///
/// The lease holds what `load` or the last step gave. Of it the places `Current`, `Old` and `New` and the body change. A
/// refusal by a rule leaves it and the module untouched.
pub fn set<M: Disk>(
    module: &mut M,
    lease: &mut Lease,
    held: &Registers,
) -> Result<Registers, RegisterFault>
    requires { IsLoadedFrom (M.medium «module».old) held.now (bench_of lease.old) }
    ensures registers { let bench = bench_of lease.old in
        let m = masters_in held.now bench in
        CarriesOut M.medium M.faults m (after_set m)
        lease.old lease.new «module».old «module».new result }
    ensures state { (result ≡ Err RegisterFault.RegisterState)
        ↔ IsTrue (set_refused (masters_in held.now (bench_of lease.old))) }
    ensures same { (result ≡ Err RegisterFault.SamePattern)
        ↔ IsTrue (same_pattern (masters_in held.now (bench_of lease.old))) }
{
    change(Action::Set, module, lease, held)
}

/// Carries out an action, as the step of its name does.
///
/// It costs a read, two writes and two syncs; a refusal calls no device.
fn change<M: Disk>(
    action: Action,
    module: &mut M,
    lease: &mut Lease,
    held: &Registers,
) -> Result<Registers, RegisterFault>
    requires { IsLoadedFrom (M.medium «module».old) held.now (bench_of lease.old) }
    ensures registers { let bench = bench_of lease.old in
        let m = masters_in held.now bench in
        CarriesOut M.medium M.faults m (after_action action bench.part m)
        lease.old lease.new «module».old «module».new result }
    ensures state { (result ≡ Err RegisterFault.RegisterState)
        ↔ IsTrue (has_wrong_state action (masters_in held.now (bench_of lease.old))) }
    ensures same { (result ≡ Err RegisterFault.SamePattern)
        ↔ IsTrue (repeats_pattern action (masters_in held.now (bench_of lease.old))) }
{
    match prepare(action, lease, held) {
        Ok(next) => store(module, lease, next),
        Err(fault) => Err(fault),
    }
}

/// Writes the registers of the workbench into cell 0 of the module.
fn store<M: Disk>(
    module: &mut M,
    lease: &mut Lease,
    next: Registers,
) -> Result<Registers, RegisterFault>
    requires within { 1536 ≤ (M.medium «module».old).size }
    requires settled { IsSettled (M.medium «module».old) }
    requires loaded { IsLoaded next (bench_of lease.old) }
    ensures changed { (m : Masters)
        → Told (M.medium «module».old) (λ image. StandsForMasters image m)
        → ChangesModule m (masters_in next (bench_of lease.old))
        (M.medium «module».old) (M.medium «module».new) result }
    ensures cause { HasDiskCause (M.faults «module».old) (M.faults «module».new) result }
    ensures same { IfOk result (λ now. now ≡ next) }
    ensures fault { WhenRefused result ⊥ }
    ensures body { lease.new ≡ holding lease.old (record (bench_of lease.old) {
      body = registers_body (masters_in next (bench_of lease.old));
    }) }
{
    write_form(lease, &next);
    if replace_cell(module, Cell::new(0), lease.body()).is_err() {
        return Err(RegisterFault::DiskFault);
    }
    Ok(next)
}
