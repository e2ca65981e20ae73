//! Actions on the registers in the workbench, before they are written.
ghost use Rattle.std.specs.Prelude.{◌≡◌, ◌≢◌, ◌↔◌, IfOk, OnErr, IsTrue, Result, Err};
ghost use Rattle.key_cells.specs.Lease.{bench_of};
ghost use Rattle.master_registers.specs.Actions.{after_action, has_wrong_state, repeats_pattern};
ghost use Rattle.master_registers.specs.Loaded.{Loaded, IsLoaded, KeepsRest, combined, masters_in};
ghost use Rattle.master_registers.specs.Masters.{after_first, after_set, cleared, first_refused, combine_refused, set_refused, same_pattern};

use crate::actions::Action;
use crate::faults::RegisterFault;
use crate::moves::{clear_master, combine_part, move_master, put_part};
use crate::patterns::pattern_of;
use crate::registers::{NewState, Registers};
use key_cells::{Lease, MasterPlace};

/// Makes the registers of the workbench those after the action, or changes nothing where a rule refuses it.
pub(crate) fn prepare(
    action: Action,
    lease: &mut Lease,
    held: &Registers,
) -> Result<Registers, RegisterFault>
    requires { IsLoaded held.now (bench_of lease.old) }
    ensures loaded { let bench = bench_of lease.old in
        let next = after_action action bench.part (masters_in held.now bench) in
        IfOk result (λ told. Loaded next told (bench_of lease.new)) }
    ensures places { KeepsRest lease.old lease.new }
    ensures state { (result ≡ Err RegisterFault.RegisterState)
        ↔ IsTrue (has_wrong_state action (masters_in held.now (bench_of lease.old))) }
    ensures same { (result ≡ Err RegisterFault.SamePattern)
        ↔ IsTrue (repeats_pattern action (masters_in held.now (bench_of lease.old))) }
    ensures disk { result ≢ Err RegisterFault.DiskFault }
    ensures untouched { OnErr result (lease.new ≡ lease.old) }
{
    match action {
        Action::First => put_first(lease, held),
        Action::Middle => combine(lease, held, NewState::Partial),
        Action::Last => combine(lease, held, NewState::Full),
        Action::Clear => Ok(empty_new(lease, held)),
        Action::Set => set_new(lease, held),
    }
}

fn put_first(lease: &mut Lease, held: &Registers) -> Result<Registers, RegisterFault>
    requires { IsLoaded held.now (bench_of lease.old) }
    ensures loaded { let bench = bench_of lease.old in
        let next = after_first bench.part (masters_in held.now bench) in
        IfOk result (λ told. Loaded next told (bench_of lease.new)) }
    ensures places { KeepsRest lease.old lease.new }
    ensures state { (result ≡ Err RegisterFault.RegisterState)
        ↔ IsTrue (first_refused (masters_in held.now (bench_of lease.old))) }
    ensures same { result ≢ Err RegisterFault.SamePattern }
    ensures disk { result ≢ Err RegisterFault.DiskFault }
    ensures untouched { OnErr result (lease.new ≡ lease.old) }
{
    if held.new_state != NewState::Empty {
        return Err(RegisterFault::RegisterState);
    }
    put_part(lease);
    Ok(held.with_new(NewState::Partial))
}

/// The new register is partly full or full afterwards.
fn combine(lease: &mut Lease, held: &Registers, after: NewState) -> Result<Registers, RegisterFault>
    requires loaded { IsLoaded held.now (bench_of lease.old) }
    requires state { after ≢ NewState.Empty }
    ensures loaded { let bench = bench_of lease.old in
        let next = combined after bench.part (masters_in held.now bench) in
        IfOk result (λ told. Loaded next told (bench_of lease.new)) }
    ensures places { KeepsRest lease.old lease.new }
    ensures state { (result ≡ Err RegisterFault.RegisterState)
        ↔ IsTrue (combine_refused (masters_in held.now (bench_of lease.old))) }
    ensures same { result ≢ Err RegisterFault.SamePattern }
    ensures disk { result ≢ Err RegisterFault.DiskFault }
    ensures untouched { OnErr result (lease.new ≡ lease.old) }
{
    if held.new_state != NewState::Partial {
        return Err(RegisterFault::RegisterState);
    }
    combine_part(lease);
    Ok(held.with_new(after))
}

fn empty_new(lease: &mut Lease, held: &Registers) -> Registers
    requires { IsLoaded held.now (bench_of lease.old) }
    ensures loaded { Loaded (cleared (masters_in held.now (bench_of lease.old)))
        result (bench_of lease.new) }
    ensures places { KeepsRest lease.old lease.new }
{
    clear_master(lease, MasterPlace::New);
    held.with_new(NewState::Empty)
}

fn set_new(lease: &mut Lease, held: &Registers) -> Result<Registers, RegisterFault>
    requires { IsLoaded held.now (bench_of lease.old) }
    ensures loaded { IfOk result (λ next.
        Loaded (after_set (masters_in held.now (bench_of lease.old))) next (bench_of lease.new)) }
    ensures places { KeepsRest lease.old lease.new }
    ensures state { (result ≡ Err RegisterFault.RegisterState)
        ↔ IsTrue (set_refused (masters_in held.now (bench_of lease.old))) }
    ensures same { (result ≡ Err RegisterFault.SamePattern)
        ↔ IsTrue (same_pattern (masters_in held.now (bench_of lease.old))) }
    ensures disk { result ≢ Err RegisterFault.DiskFault }
    ensures untouched { OnErr result (lease.new ≡ lease.old) }
{
    if held.new_state != NewState::Full {
        return Err(RegisterFault::RegisterState);
    }
    let pattern = pattern_of(lease, MasterPlace::New);
    if held.current_pattern == Some(pattern) {
        return Err(RegisterFault::SamePattern);
    }
    move_master(lease, MasterPlace::Current, MasterPlace::Old);
    move_master(lease, MasterPlace::New, MasterPlace::Current);
    Ok(Registers {
        new_state: NewState::Empty,
        current_pattern: Some(pattern),
        old_pattern: held.current_pattern,
    })
}
