//! A key exported under a transport key.
ghost use Rattle.std.specs.Prelude.{◌≡◌, Some, slice_index};
ghost use Rattle.key_cells.specs.Lease.{bench_of};
ghost use Rattle.key_tokens.specs.Denotes.{denoted_under};
ghost use Rattle.verb_rules.specs.Keys.{HasHalves, IsDouble, opened};
ghost use Rattle.key_transport.specs.Changes.{ChangesKeys};
ghost use Rattle.key_transport.specs.Tokens.{external_token};

use crate::writing::write_under;
use key_cells::{KeyPlace, Lease};
use verb_rules::{Judged, open_key};

/// The external token, under the clear key of a judged transport key, of the clear key of a judged internal token with
/// its control vector. Only the places `First` and `Key` and the schedules of the lease change.
pub fn export(lease: &mut Lease, key: &Judged, transport: &Judged) -> [u8; 64]
    requires halves { HasHalves key.now }
    requires transport { IsDouble transport.now }
    ensures token { let bench = bench_of lease.old in
        result ≡ external_token (opened bench transport.now).key (opened bench key.now) }
    ensures denoted { let bench = bench_of lease.old in
        denoted_under (opened bench transport.now).key result ≡ Some (opened bench key.now) }
    ensures flag { slice_index result 6 ≡ 0xc0 }
    ensures stays { ChangesKeys lease.old lease.new }
{
    open_key(lease, key, KeyPlace::Key);
    write_under(lease, transport, &key.token.vector)
}
