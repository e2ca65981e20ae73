//! The places of the workbench in which a key is made of its parts.
ghost use Rattle.std.specs.Prelude.{◌≡◌, length, replicate};
ghost use Rattle.key_cells.specs.Bytes.{xor};
ghost use Rattle.key_cells.specs.Bench.{with_key};
ghost use Rattle.key_cells.specs.Lease.{bench_of, holding};

use key_cells::{KeyPlace, Lease, Secret};
use master_registers::xor_secret;

/// Makes a key's place zero.
pub(crate) fn clear_key(lease: &mut Lease, place: KeyPlace)
    ensures { lease.new ≡ holding lease.old
        (with_key (bench_of lease.old) place (replicate 16 0)) }
{
    *lease.key_mut(place) = [0; 16];
}

/// XORs the part in the place `Fresh` into the place `Key`.
fn xor_part(lease: &mut Lease)
    ensures combined { let bench = bench_of lease.old in
        lease.new ≡ holding lease.old (record bench { key = xor bench.key bench.fresh }) }
    ensures part { length (bench_of lease.old).fresh ≡ 16 }
{
    let mut bytes = *lease.key(KeyPlace::Fresh);
    let part = Secret::guard(&mut bytes);
    xor_secret(lease.key_mut(KeyPlace::Key), &part);
}

/// XORs the part in the place `Fresh` into the place `Key`, and leaves zeros where it was.
pub(crate) fn take_part(lease: &mut Lease)
    ensures taken { let bench = bench_of lease.old in lease.new ≡ holding lease.old
        (record bench { key = xor bench.key bench.fresh; fresh = replicate 16 0 }) }
    ensures part { length (bench_of lease.old).fresh ≡ 16 }
{
    xor_part(lease);
    clear_key(lease, KeyPlace::Fresh);
}
