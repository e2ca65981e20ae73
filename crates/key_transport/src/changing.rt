//! A token changed to another master key.
ghost use Rattle.std.specs.Prelude.{◌≡◌, IsSome, Some, slice_index};
ghost use Rattle.key_cells.specs.declared.places.KeyPlace.{KeyPlace};
ghost use Rattle.key_cells.specs.Lease.{bench_of};
ghost use Rattle.key_tokens.specs.Denotes.{ClearKey, denoted};
ghost use Rattle.master_registers.specs.Loaded.{Loaded};
ghost use Rattle.master_registers.specs.Masters.{Masters, after_set, state_of};
ghost use Rattle.multi_encipher.specs.Bundles.{ChangesKeyAt};
ghost use Rattle.verb_rules.specs.Keys.{HasHalves, keys_of, opened};
ghost use Rattle.key_transport.specs.Tokens.{as_current, changed_token, current_token, new_token, target_of_name};

use crate::writing::write_new;
use key_cells::{KeyPlace, Lease};
use master_registers::{NewState, Registers};
use verb_rules::{Judged, open_key, write_current};

/// The register to whose master key a token is changed.
#[derive(Clone, Copy, Debug, PartialEq, Eq)]
pub enum Target {
    Current,
    New,
}

impl Target {
    /// The register with this name: RTCMK or RTNMK; none where the text is neither.
    pub fn read(text: &[u8]) -> Option<Target>
        ensures { result ≡ target_of_name text.now }
    {
        if text == b"RTCMK".as_slice() {
            Some(Target::Current)
        } else if text == b"RTNMK".as_slice() {
            Some(Target::New)
        } else {
            None
        }
    }
}

/// The internal token, under the master key of a register, of the clear key of a judged internal token with its control
/// vector. The new register is to be full, where the token is changed to it. Only the place `Key` and the schedules of
/// the lease change.
pub fn token_change(lease: &mut Lease, held: &Registers, token: &Judged, target: Target) -> [u8; 64]
    requires current { IsSome held.now.current_pattern }
    requires full { target ≡ Target.New → held.now.new_state ≡ NewState.Full }
    requires halves { HasHalves token.now }
    ensures token { (m : Masters) → Loaded m held.now (bench_of lease.old)
        → result ≡ changed_token m target (opened (bench_of lease.old) token.now) }
    ensures denoted { (m : Masters) → Loaded m held.now (bench_of lease.old)
        → target ≡ Target.Current
        → denoted (keys_of m) result ≡ Some (as_current (opened (bench_of lease.old) token.now)) }
    ensures flag { slice_index result 6 ≡ 0xc0 }
    ensures stays { ChangesKeyAt KeyPlace.Key lease.old lease.new }
{
    open_key(lease, token, KeyPlace::Key);
    match target {
        Target::Current => write_current(lease, held, &token.token.vector),
        Target::New => write_new(lease, held, &token.token.vector),
    }
}

/// Once the new master key is set, a token under it is the one under the current master key.
pub fn a_new_token_is_current_once_set()
    ensures { (m : Masters) (clear : ClearKey) → state_of m.coming ≡ NewState.Full
        → new_token m clear ≡ current_token (after_set m) clear }
{}
