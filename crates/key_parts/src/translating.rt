//! A key translated from one transport key to another.
ghost use Rattle.std.specs.Prelude.{◌≡◌, Some, slice_index};
ghost use Rattle.key_cells.specs.Lease.{bench_of};
ghost use Rattle.key_tokens.specs.Denotes.{denoted_under};
ghost use Rattle.key_transport.specs.Changes.{ChangesKeys};
ghost use Rattle.key_transport.specs.Tokens.{external_token, transported_key};
ghost use Rattle.verb_rules.specs.Keys.{HasHalves, IsDouble, opened};

use key_cells::{KeyPlace, Lease};
use key_transport::write_under;
use multi_encipher::{Under, unseal};
use verb_rules::{Judged, open_key};

/// The external token, under the clear key of the judged transport key `two`, of the clear key of a judged external token
/// with its control vector, which is under the clear key of the judged transport key `one`. Only the places `First` and
/// `Key` and the schedules of the lease change.
pub fn translate(lease: &mut Lease, token: &Judged, one: &Judged, two: &Judged) -> [u8; 64]
    requires halves { HasHalves token.now }
    requires one { IsDouble one.now }
    requires two { IsDouble two.now }
    ensures token { let bench = bench_of lease.old in result
        ≡ external_token (opened bench two.now).key (transported_key bench token.now one.now) }
    ensures denoted { let bench = bench_of lease.old in
        denoted_under (opened bench two.now).key result
        ≡ Some (transported_key bench token.now one.now) }
    ensures flag { slice_index result 6 ≡ 0xc0 }
    ensures stays { ChangesKeys lease.old lease.new }
{
    open_key(lease, one, KeyPlace::First);
    unseal(
        lease,
        Under::First,
        &token.token.vector,
        &token.token.sealed,
        KeyPlace::Key,
    );
    write_under(lease, two, &token.token.vector)
}
