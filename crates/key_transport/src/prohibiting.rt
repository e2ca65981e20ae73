//! A key that may not be exported from now on.
ghost use Rattle.std.specs.Prelude.{◌≡◌, IsSome, Some, slice_index};
ghost use Rattle.key_cells.specs.declared.places.KeyPlace.{KeyPlace};
ghost use Rattle.key_cells.specs.Lease.{bench_of};
ghost use Rattle.key_tokens.specs.Denotes.{denoted};
ghost use Rattle.master_registers.specs.Loaded.{Loaded};
ghost use Rattle.master_registers.specs.Masters.{Masters};
ghost use Rattle.multi_encipher.specs.Bundles.{ChangesKeyAt};
ghost use Rattle.verb_rules.specs.Keys.{HasHalves, keys_of, opened};
ghost use Rattle.key_transport.specs.Tokens.{as_current, closed_key, current_token};

use key_cells::{KeyPlace, Lease};
use master_registers::Registers;
use verb_rules::{Judged, open_key, write_current};

/// The internal token, under the current master key, of the clear key of a judged internal token with its control vector
/// made one that forbids export. Only the place `Key` and the schedules of the lease change.
pub fn prohibit_export(lease: &mut Lease, held: &Registers, key: &Judged) -> [u8; 64]
    requires current { IsSome held.now.current_pattern }
    requires halves { HasHalves key.now }
    ensures token { (m : Masters) → Loaded m held.now (bench_of lease.old)
        → result ≡ current_token m (closed_key (opened (bench_of lease.old) key.now)) }
    ensures denoted { (m : Masters) → Loaded m held.now (bench_of lease.old)
        → denoted (keys_of m) result
        ≡ Some (as_current (closed_key (opened (bench_of lease.old) key.now))) }
    ensures flag { slice_index result 6 ≡ 0xc0 }
    ensures stays { ChangesKeyAt KeyPlace.Key lease.old lease.new }
{
    open_key(lease, key, KeyPlace::Key);
    let vector = key.token.vector.without_export();
    write_current(lease, held, &vector)
}
