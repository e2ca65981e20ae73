//! The registers as the body of a cell.
ghost use Rattle.std.specs.Prelude.{◌≡◌, ◌↔◌, ◌+◌, ◌<◌, ◌≤◌, IsTrue};
ghost use Rattle.key_cells.specs.Lease.{bench_of, holding};
ghost use Rattle.master_registers.specs.RegisterBody.{registers_body, state_code, kept_code};
ghost use Rattle.master_registers.specs.Loaded.{IsLoaded, masters_in};
ghost use Rattle.master_registers.specs.BodyForm.{states_body, IsBody, HasBodyForm, HasStates, IsZeroWhereEmpty};

use crate::moves::put_master;
use crate::patterns::Pattern;
use crate::registers::{NewState, Registers};
use key_cells::{Lease, MasterPlace, is_zero};

/// What byte 0 is.
const VERSION: u8 = 1;

/// Where the states of the new, the current and the old register stand.
pub(crate) const NEW_STATE: usize = 1;

pub(crate) const CURRENT_STATE: usize = 2;

pub(crate) const OLD_STATE: usize = 3;

/// Where their contents begin.
pub(crate) const NEW: usize = 8;

pub(crate) const CURRENT: usize = 32;

pub(crate) const OLD: usize = 56;

/// Where they end.
const REST: usize = 80;

/// Writes the registers of the workbench into its body.
pub(crate) fn write_form(lease: &mut Lease, held: &Registers)
    requires { IsLoaded held.now (bench_of lease.old) }
    ensures { lease.new ≡ holding lease.old (record (bench_of lease.old) {
      body = registers_body (masters_in held.now (bench_of lease.old));
    }) }
{
    write_states(held, lease.body_mut());
    put_master(lease, MasterPlace::New, NEW);
    put_master(lease, MasterPlace::Current, CURRENT);
    put_master(lease, MasterPlace::Old, OLD);
}

/// Writes a body of registers whose contents are zero.
fn write_states(held: &Registers, body: &mut [u8; 192])
    ensures { body.new ≡ states_body held.now }
{
    body.fill(0);
    body[0] = VERSION;
    body[NEW_STATE] = new_state_byte(held.new_state);
    body[CURRENT_STATE] = kept_state_byte(held.current_pattern);
    body[OLD_STATE] = kept_state_byte(held.old_pattern);
}

fn new_state_byte(state: NewState) -> u8
    ensures { result ≡ state_code state }
{
    match state {
        NewState::Empty => 0,
        NewState::Partial => 1,
        NewState::Full => 2,
    }
}

fn kept_state_byte(pattern: Option<Pattern>) -> u8
    ensures { result ≡ kept_code pattern }
{
    match pattern {
        None => 0,
        Some(_) => 1,
    }
}

/// Whether the body is the table of some registers, whatever the patterns of current and old are.
pub(crate) fn is_form(body: &[u8; 192]) -> bool
    ensures form { IsTrue result ↔ HasBodyForm body.now }
    ensures bytes { IsBody body.now }
{
    has_states(body)
        && is_zero(&body[OLD_STATE + 1..NEW])
        && is_zero_where_empty(body, NEW_STATE, NEW)
        && is_zero_where_empty(body, CURRENT_STATE, CURRENT)
        && is_zero_where_empty(body, OLD_STATE, OLD)
        && is_zero(&body[REST..192])
}

/// Whether the contents of a register are zero, where its state byte says that it is empty.
fn is_zero_where_empty(body: &[u8; 192], state: usize, at: usize) -> bool
    requires state { state < 192 }
    requires within { at + 24 ≤ 192 }
    ensures { IsTrue result ↔ IsZeroWhereEmpty body.now state at }
{
    body[state] != 0 || is_zero(&body[at..at + 24])
}

fn has_states(body: &[u8; 192]) -> bool
    ensures { IsTrue result ↔ HasStates body.now }
{
    body[0] == VERSION && body[NEW_STATE] <= 2 && body[CURRENT_STATE] <= 1 && body[OLD_STATE] <= 1
}
