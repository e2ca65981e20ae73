//! The registers taken from the module into the workbench.
ghost use Rattle.std.specs.Prelude.{◌≡◌, ◌≤◌, ◌↔◌, ◌<◌, ℕ, List, Option, slice_index, IfOk, IfSome, IsNone, IsTrue};
ghost use Rattle.device_cells.specs.Medium.{Told, Keeps};
ghost use Rattle.key_cells.specs.Bench.{master_of};
ghost use Rattle.key_cells.specs.Lease.{bench_of};
ghost use Rattle.master_registers.specs.BodyForm.{IsBody, HasBodyForm, AreMasterKeys, masters_at, state_at, pattern_at};
ghost use Rattle.master_registers.specs.Changes.{HasLoadCause, RestsOnBody};
ghost use Rattle.master_registers.specs.Loaded.{Loaded, ArePlaced, IsLoaded, KeepsRest, StandsForLoaded, masters_in, registers_of};
ghost use Rattle.master_registers.specs.Masters.{Masters, AreApart, blank_masters};
ghost use Rattle.master_registers.specs.RegisterBody.{ReadsMasters, IsDamaged};

use crate::faults::LoadFault;
use crate::forms::{CURRENT, CURRENT_STATE, NEW, NEW_STATE, OLD, OLD_STATE, is_form};
use crate::moves::{clear_master, take_master};
use crate::patterns::{Pattern, pattern_of};
use crate::registers::{NewState, Registers};
use device_cells::{Cell, Disk, read_cell};
use key_cells::{Lease, MasterPlace, is_zero};

/// Reads cell 0 of the module into the places of the three registers. The disk is as before. Of the lease the places
/// `Current`, `Old` and `New` and the body change, and after an error they may hold any bytes.
pub fn load<M: Disk>(module: &mut M, lease: &mut Lease) -> Result<Registers, LoadFault>
    requires within { 1536 ≤ (M.medium «module».old).size }
    ensures loaded { IfOk result (λ held. IsLoaded held (bench_of lease.new)) }
    ensures stands { IfOk result (λ held.
        Told (M.medium «module».new) (StandsForLoaded held (bench_of lease.new))) }
    ensures damaged { result ≡ Err LoadFault.Damaged → Told (M.medium «module».old) IsDamaged }
    // By the body that was read, whatever the module tells of its bytes.
    ensures own { RestsOnBody (bench_of lease.new) result }
    ensures keeps { Keeps (M.medium «module».old) (M.medium «module».new) }
    ensures cause { HasLoadCause (M.faults «module».old) (M.faults «module».new) result }
    ensures places { KeepsRest lease.old lease.new }
{
    if read_cell(module, Cell::new(0), lease.body_mut()).is_err() {
        return Err(LoadFault::DiskFault);
    }
    read_registers(lease).ok_or(LoadFault::Damaged)
}

/// Takes the registers from the body of the workbench, where it reads as some. The body is as before.
fn read_registers(lease: &mut Lease) -> Option<Registers>
    ensures loaded { IfSome result (λ held. IsLoaded held (bench_of lease.new)) }
    ensures reads { IfSome result (λ held.
        ReadsMasters (bench_of lease.old).body (masters_in held (bench_of lease.new))) }
    ensures damaged { IsNone result → (m : Masters) → ReadsMasters (bench_of lease.old).body m → ⊥ }
    ensures body { (bench_of lease.new).body ≡ (bench_of lease.old).body }
    ensures places { KeepsRest lease.old lease.new }
{
    if is_zero(lease.body()) {
        return Some(blank_registers(lease));
    }
    if !is_form(lease.body()) {
        return None;
    }
    let held = take_registers(lease);
    if are_apart(&held) { Some(held) } else { None }
}

/// Makes the places zero.
fn blank_registers(lease: &mut Lease) -> Registers
    ensures loaded { Loaded blank_masters result (bench_of lease.new) }
    ensures body { (bench_of lease.new).body ≡ (bench_of lease.old).body }
    ensures places { KeepsRest lease.old lease.new }
{
    clear_master(lease, MasterPlace::New);
    clear_master(lease, MasterPlace::Current);
    clear_master(lease, MasterPlace::Old);
    Registers {
        new_state: NewState::Empty,
        current_pattern: None,
        old_pattern: None,
    }
}

/// Takes the contents from a body in the form of the table.
fn take_registers(lease: &mut Lease) -> Registers
    requires form { HasBodyForm (bench_of lease.old).body }
    requires bytes { IsBody (bench_of lease.old).body }
    ensures placed { ArePlaced (masters_at (bench_of lease.old).body) (bench_of lease.new) }
    ensures told { result ≡ registers_of (masters_at (bench_of lease.old).body) }
    ensures bytes { AreMasterKeys (masters_at (bench_of lease.old).body) }
    ensures body { (bench_of lease.new).body ≡ (bench_of lease.old).body }
    ensures places { KeepsRest lease.old lease.new }
{
    take_master(lease, MasterPlace::New, NEW);
    take_master(lease, MasterPlace::Current, CURRENT);
    take_master(lease, MasterPlace::Old, OLD);
    Registers {
        new_state: new_state(lease.body()[NEW_STATE]),
        current_pattern: pattern_where(lease, CURRENT_STATE, MasterPlace::Current),
        old_pattern: pattern_where(lease, OLD_STATE, MasterPlace::Old),
    }
}

fn new_state(code: u8) -> NewState
    ensures { result ≡ state_at code }
{
    match code {
        0 => NewState::Empty,
        1 => NewState::Partial,
        _ => NewState::Full,
    }
}

/// The pattern of a place, where the state byte says that it is full.
fn pattern_where(lease: &Lease, state: usize, place: MasterPlace) -> Option<Pattern>
    requires { state < 192 }
    ensures { let bench = bench_of lease.now in
        result ≡ pattern_at (slice_index bench.body state) (master_of bench place) }
{
    if lease.body()[state] == 0 {
        None
    } else {
        Some(pattern_of(lease, place))
    }
}

/// Whether old is full only where current is, and then has another pattern.
fn are_apart(held: &Registers) -> bool
    ensures { (m : Masters) → held.now ≡ registers_of m
        → IsTrue result ↔ AreApart m.current m.former }
{
    held.old_pattern.is_none()
        || held.current_pattern.is_some() && held.current_pattern != held.old_pattern
}

/// A body reads as at most one set of registers.
pub fn a_body_reads_as_one()
    ensures { (bytes : List ℕ) (m n : Masters) → ReadsMasters bytes m → ReadsMasters bytes n
        → m ≡ n }
{}
