//! One cell's turn: its label becomes what an action makes of it.
ghost use Rattle.std.specs.Prelude.{◌≡◌, ◌≢◌, ◌<◌, get_or, ℕ, List, Option, IfOk, IfSome, IsSome, IsNone, None, true};
ghost use Rattle.key_cells.specs.Lease.{bench_of};
ghost use Rattle.key_records.specs.Changes.{is_ahead_row};
ghost use Rattle.record_bodies.specs.Directory.{label_at};
ghost use Rattle.record_bodies.specs.Entries.{Entry, row_directory};
ghost use Rattle.record_bodies.specs.StoreStands.{HasStore, KeepsLabels};
ghost use Rattle.master_registers.specs.Loaded.{IsLoaded, Loaded};
ghost use Rattle.master_registers.specs.Masters.{Masters};
ghost use Rattle.reencipher.specs.Damage.{IsMisread};
ghost use Rattle.reencipher.specs.Runs.{IsChangedRow, IsTurnOf, LeavesAnyStore, changes_row};
ghost use Rattle.reencipher.specs.Tokens.{IsComing, may_change};
ghost use Rattle.key_records.specs.Ready.{IsReadyFor};
ghost use Rattle.reencipher.specs.Turns.{ChangesCell, TurnsAsRead, TurnsCell};
ghost use Rattle.device_cells.specs.Medium.{Told};
ghost use Rattle.verb_rules.specs.Keys.{keys_of};

use crate::tokens::made_tokens;
use crate::writing::put;
use device_cells::{Disk, Steps};
use key_cells::Lease;
use key_records::{Place, RecordFault, Records};
use master_registers::{Pattern, Registers};
use record_bodies::StoreAction;

/// The place of the label of a cell.
fn place_in(records: &Records, cell: u16) -> Option<Place>
    requires { cell < 1024 }
    ensures place { IfSome result (λ place. place ≡ cell) }
    ensures held { IfSome result (λ place.
        IsSome (label_at (row_directory records.now) place)) }
    ensures none { IsNone result → label_at (row_directory records.now) cell ≡ None }
{
    let label = match records.label_in(cell) {
        Some(label) => label,
        None => return None,
    };
    let mut steps: Steps<()> = Steps::new();
    records.find(label, &mut steps)
}

/// Whether the action may change a label, by its mark of being ahead.
fn may_change(action: StoreAction, records: &Records, place: Place) -> bool
    requires { IsSome (label_at (row_directory records.now) place) }
    ensures { result ≡ may_change action (is_ahead_row (get_or records.now place None)) }
{
    match action {
        StoreAction::Renew => true,
        StoreAction::Ahead => !records.is_ahead(place),
        StoreAction::Drop => records.is_ahead(place),
    }
}

/// Makes the label of a cell what the action makes of it, and answers whether it changed. A cell without a label costs
/// nothing, a label two reads, and one that changes a change of its cell besides.
pub(crate) fn turn_cell<D: Disk>(
    action: StoreAction,
    coming: Pattern,
    lease: &mut Lease,
    held: &Registers,
    store: &mut D,
    records: &mut Records,
    cell: u16,
) -> Result<bool, RecordFault>
    requires within { cell < 1024 }
    requires store { HasStore records.old (D.medium store.old) }
    requires loaded { IsLoaded held.now (bench_of lease.old) }
    requires current { IsSome held.now.current_pattern }
    requires coming { IsComing coming (bench_of lease.old) }
    requires ready { IsReadyFor action held.now (bench_of lease.old) }

    ensures changes { (m : Masters) (s : List (Option Entry))
        → Loaded m held.now (bench_of lease.old)
        → Told (D.medium store.old) (KeepsLabels (keys_of m) records.old s)
        → ChangesCell action (keys_of m) cell s records.old records.new
        (D.medium store.old) (D.medium store.new) result }
    // By what was read of the record of a label that may change, whatever the store tells of its bytes.
    ensures own { (m : Masters) → Loaded m held.now (bench_of lease.old)
        → IsSome (label_at (row_directory records.old) cell)
        → may_change action (is_ahead_row (get_or records.old cell None)) ≡ true
        → IfOk result (TurnsAsRead action (keys_of m) (get_or records.old cell None)
        (get_or records.new cell None) (bench_of lease.new).body) }
    ensures turns { TurnsCell (IsChangedRow action held.now records.old cell) cell
        (D.medium store.old) (D.medium store.new) result }
    // By the memory alone, whatever the store tells of its bytes.
    ensures row { (IsChangedRow action held.now records.old cell → ⊥)
        → get_or records.new cell None ≡ get_or records.old cell None }
    ensures others { (n : ℕ) → n ≢ cell
        → get_or records.new n None ≡ get_or records.old n None }
    ensures count { IfOk result (λ done.
        done ≡ changes_row action held.now (get_or records.old cell None)) }
    ensures misread { IsMisread result records.new (bench_of lease.new) }
    ensures left { LeavesAnyStore D.medium D.faults (IsTurnOf records.old cell)
        lease.old lease.new records.old records.new store.old store.new result }
{
    let place = match place_in(records, cell) {
        Some(place) => place,
        None => return Ok(false),
    };
    if !may_change(action, records, place) {
        return Ok(false);
    }
    let mut token = [0; 64];
    let found = match records.read(store, lease, place, &mut token) {
        Ok(found) => found,
        Err(fault) => return Err(fault),
    };
    if !found {
        return Ok(false);
    }
    let tokens = match made_tokens(action, lease, held, coming, &token) {
        Some(tokens) => tokens,
        None => return Ok(false),
    };
    match put(&tokens, lease, held, store, records, place) {
        Ok(()) => Ok(true),
        Err(fault) => Err(fault),
    }
}
