//! Schedules of the keys of a bundle, each XORed with the control vector of a half.
ghost use Rattle.std.specs.Prelude.{◌≡◌, ◌+◌, ◌*◌, ◌<◌, ◌≤◌, ℕ, List, length, slice_set};
ghost use Rattle.key_cells.specs.Bench.{Bench};
ghost use Rattle.key_cells.specs.Lease.{bench_of};
ghost use Rattle.key_cells.specs.Secret.{bytes_of};
ghost use Rattle.des_blocks.specs.Schedules.{IsOf, AreOf, schedule_at};
ghost use Rattle.multi_encipher.specs.Bundles.{ChangesSchedules, bundle_under, key_of_bundle};
ghost use Rattle.multi_encipher.specs.Seals.{variant_key};

use crate::halves::Under;
use des_blocks::schedule;
use key_cells::{KeyPlace, Lease, MasterPlace, Schedule, Secret, xor};

/// Copies one key of the bundle.
fn copy_key(lease: &Lease, under: Under, number: usize, out: &mut [u8; 8])
    requires { number < 3 }
    ensures { out.new ≡ key_of_bundle (bundle_under (bench_of lease.now) under) number }
{
    match under {
        Under::Current => copy_eight(lease.master(MasterPlace::Current), number, out),
        Under::Old => copy_eight(lease.master(MasterPlace::Old), number, out),
        Under::New => copy_eight(lease.master(MasterPlace::New), number, out),
        Under::First => copy_eight(lease.key(KeyPlace::First), number % 2, out),
        Under::Second => copy_eight(lease.key(KeyPlace::Second), number % 2, out),
    }
}

/// Copies eight bytes, counted in eights.
fn copy_eight(keys: &[u8], number: usize, out: &mut [u8; 8])
    requires { 8 * number + 8 ≤ length keys.now }
    ensures { out.new ≡ key_of_bundle keys.now number }
{
    out.copy_from_slice(&keys[8 * number..8 * number + 8]);
}

/// Puts a key of the bundle, XORed with a control vector, into an array.
#[tactic(auto, unfolding(crate::specs::Seals::variant_key))]
fn put_variant(lease: &Lease, under: Under, number: usize, vector: &[u8; 8], out: &mut [u8; 8])
    requires { number < 3 }
    ensures { out.new ≡ variant_key (bundle_under (bench_of lease.now) under) number vector.now }
{
    copy_key(lease, under, number, out);
    xor(out, vector);
}

/// Puts the round keys of a key into one of three schedules.
pub fn put_schedule(key: &Secret<'_, 8>, schedules: &mut [Schedule; 3], number: usize)
    requires { number < 3 }
    ensures made { IsOf (schedule_at schedules.new number) (bytes_of key.now) }
    ensures others { schedules.new
        ≡ slice_set schedules.old number (schedule_at schedules.new number) }
{
    schedule(key, &mut schedules[number]);
}

/// Makes one of the three schedules.
fn make_schedule(lease: &mut Lease, under: Under, number: usize, vector: &[u8; 8])
    requires { number < 3 }
    ensures made { IsOf (schedule_at (bench_of lease.new).schedules number)
        (variant_key (bundle_under (bench_of lease.old) under) number vector.now) }
    ensures others { (bench_of lease.new).schedules
        ≡ slice_set (bench_of lease.old).schedules number
        (schedule_at (bench_of lease.new).schedules number) }
    ensures stays { ChangesSchedules lease.old lease.new }
{
    let mut variant = [0; 8];
    put_variant(lease, under, number, vector, &mut variant);
    let key = Secret::guard(&mut variant);
    put_schedule(&key, lease.schedules_mut(), number);
}

/// Makes the three schedules under which a half with this vector is enciphered.
pub(crate) fn make_schedules(lease: &mut Lease, under: Under, vector: &[u8; 8])
    ensures made { let bundle = bundle_under (bench_of lease.old) under in
        AreOf (bench_of lease.new).schedules (variant_key bundle 0 vector.now)
        (variant_key bundle 1 vector.now) (variant_key bundle 2 vector.now) }
    ensures stays { ChangesSchedules lease.old lease.new }
{
    make_schedule(lease, under, 0, vector);
    make_schedule(lease, under, 1, vector);
    make_schedule(lease, under, 2, vector);
}
