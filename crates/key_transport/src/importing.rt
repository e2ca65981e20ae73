//! A key imported from under a transport key.
ghost use Rattle.std.specs.Prelude.{◌≡◌, IsSome, Some, slice_index};
ghost use Rattle.key_cells.specs.Lease.{bench_of};
ghost use Rattle.key_tokens.specs.Denotes.{denoted};
ghost use Rattle.master_registers.specs.Loaded.{Loaded};
ghost use Rattle.master_registers.specs.Masters.{Masters};
ghost use Rattle.verb_rules.specs.Keys.{HasHalves, IsDouble, keys_of};
ghost use Rattle.key_transport.specs.Changes.{ChangesKeys};
ghost use Rattle.key_transport.specs.Tokens.{as_current, current_token, transported_key};

use key_cells::{KeyPlace, Lease};
use master_registers::Registers;
use multi_encipher::{Under, unseal};
use verb_rules::{Judged, open_key, write_current};

/// The internal token, under the current master key, of the clear key of a judged external token with its control vector,
/// which is under the clear key of a judged transport key. Only the places `First` and `Key` and the schedules of the
/// lease change.
pub fn import(lease: &mut Lease, held: &Registers, source: &Judged, transport: &Judged) -> [u8; 64]
    requires current { IsSome held.now.current_pattern }
    requires halves { HasHalves source.now }
    requires transport { IsDouble transport.now }
    ensures token { (m : Masters) → Loaded m held.now (bench_of lease.old)
        → result ≡ current_token m (transported_key (bench_of lease.old) source.now transport.now) }
    ensures denoted { (m : Masters) → Loaded m held.now (bench_of lease.old)
        → denoted (keys_of m) result
        ≡ Some (as_current (transported_key (bench_of lease.old) source.now transport.now)) }
    ensures flag { slice_index result 6 ≡ 0xc0 }
    ensures stays { ChangesKeys lease.old lease.new }
{
    open_key(lease, transport, KeyPlace::First);
    unseal(
        lease,
        Under::First,
        &source.token.vector,
        &source.token.sealed,
        KeyPlace::Key,
    );
    write_current(lease, held, &source.token.vector)
}
