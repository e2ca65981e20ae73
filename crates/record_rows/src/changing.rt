//! One change of a store, from its settling on.
ghost use Rattle.std.specs.Prelude.{◌≡◌, IsSome};
ghost use Rattle.key_cells.specs.Lease.{bench_of};
ghost use Rattle.record_bodies.specs.Directory.{label_at};
ghost use Rattle.record_bodies.specs.Entries.{row_directory};
ghost use Rattle.record_bodies.specs.StoreStands.{HasStore};
ghost use Rattle.key_tokens.specs.declared.key_token.Asked.{Asked};
ghost use Rattle.master_registers.specs.Loaded.{IsLoaded};

use crate::masters::load_masters;
use crate::stores::{Stop, opened, place_of};
use cca_vectors::Class;
use key_cells::{Lease, Workbench};
use key_records::{Label, Place, Records};
use key_tokens::Asked;
use master_registers::{NewState, Registers};
use reencipher::{StoreAction, ahead, drop_ahead, is_taken, reencipher};
use slot_disk::{Disk, settle};
use std::alloc::Global;
use verb_rules::{Classes, Need, judge_key};

#[derive(Clone, Copy, Debug)]
pub(crate) enum Change {
    Create(Label),
    Write(Label, [u8; 64]),
    Delete(Label),
    /// Every label: what the action makes of it.
    Run(StoreAction),
}

/// Settles a store, opens its records and makes a change. It answers how many labels were changed, and whether one is ahead
/// then.
pub(crate) fn carry_out<D: Disk>(
    alloc: Global,
    module: &[u8; 1536],
    store: &mut D,
    change: Change,
) -> Result<(u32, bool), Stop> {
    if settle(store).is_err() {
        return Err(Stop::Settle);
    }
    let mut bench = Workbench::new();
    let mut lease = Lease::open(&mut bench);
    let mut records = opened(alloc, module, store, &mut lease)?;
    let held = load_masters(alloc, module, &mut lease)?;
    let changed = make(store, &mut lease, &held, &mut records, change)?;
    Ok((changed, records.any_ahead()))
}

fn make<D: Disk>(
    store: &mut D,
    lease: &mut Lease,
    held: &Registers,
    records: &mut Records,
    change: Change,
) -> Result<u32, Stop>
    requires store { HasStore records.old (D.medium store.old) }
    requires loaded { IsLoaded held.now (bench_of lease.old) }
{
    match change {
        Change::Create(label) => match records.create(store, lease, &label) {
            Ok(()) => Ok(1),
            Err(fault) => Err(Stop::Change(fault)),
        },
        Change::Write(label, token) => {
            let place = place_of(records, &label)?;
            write(store, lease, held, records, place, &token)
        }
        Change::Delete(label) => {
            let place = place_of(records, &label)?;
            match records.delete(store, lease, place) {
                Ok(()) => Ok(1),
                Err(fault) => Err(Stop::Change(fault)),
            }
        }
        Change::Run(action) => run(action, lease, held, store, records),
    }
}

/// Asks for an internal token of a DATA key.
fn any_internal() -> Need
    ensures { result.asked ≡ Asked.Internal }
{
    Need {
        asked: Asked::Internal,
        classes: Classes::of(&[Class::Data]),
        usage: None,
        export: false,
        double: false,
        parts: true,
    }
}

/// Writes a token that is judged.
fn write<D: Disk>(
    store: &mut D,
    lease: &mut Lease,
    held: &Registers,
    records: &mut Records,
    place: Place,
    token: &[u8; 64],
) -> Result<u32, Stop>
    requires store { HasStore records.old (D.medium store.old) }
    requires loaded { IsLoaded held.now (bench_of lease.old) }
    requires held { IsSome (label_at (row_directory records.old) place) }
{
    match judge_key(token, &any_internal(), held) {
        Ok(_) => match records.write(store, lease, held, place, token) {
            Ok(()) => Ok(1),
            Err(fault) => Err(Stop::Change(fault)),
        },
        Err(_) => Err(Stop::Token),
    }
}

/// Makes every label what an action makes of it, where there is a current master key, and for AHEAD a new one that may
/// be prepared for.
fn run<D: Disk>(
    action: StoreAction,
    lease: &mut Lease,
    held: &Registers,
    store: &mut D,
    records: &mut Records,
) -> Result<u32, Stop>
    requires store { HasStore records.old (D.medium store.old) }
    requires loaded { IsLoaded held.now (bench_of lease.old) }
{
    if held.current_pattern.is_none() {
        return Err(Stop::Load);
    }
    match action {
        StoreAction::Ahead => {
            if held.new_state != NewState::Full || is_taken(lease, held) {
                return Err(Stop::Taken);
            }
            ahead(lease, held, store, records).map_err(Stop::Run)
        }
        StoreAction::Renew => { reencipher(lease, held, store, records).map_err(Stop::Run) }
        StoreAction::Drop => { drop_ahead(lease, held, store, records).map_err(Stop::Run) }
    }
}
