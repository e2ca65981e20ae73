//! The schedules of the clear key of a judged token.
ghost use Rattle.std.specs.Prelude.{◌≡◌, ◌+◌, ◌≤◌, ◌<◌, slice_range, slice_set, if◌then◌else◌};
ghost use Rattle.key_cells.specs.Lease.{bench_of};
ghost use Rattle.des_blocks.specs.Schedules.{AreOf, IsOf, schedule_at};
ghost use Rattle.multi_encipher.specs.Bundles.{ChangesKeyAt, ChangesSchedules};
ghost use Rattle.multi_encipher.specs.Seals.{IsKey};
ghost use Rattle.verb_rules.specs.Keys.{HasHalves, opened};
ghost use Rattle.verb_rules.specs.Scheduled.{HoldKey};

use crate::judging::Judged;
use crate::opening::open_key;
use key_cells::{KeyPlace, Lease, Schedule, Secret};
use multi_encipher::put_schedule;

/// Where a half of a key begins in 16 bytes.
const LEFT: usize = 0;

const RIGHT: usize = 8;

/// Makes one of three schedules the same as another.
fn copy_schedule(schedules: &mut [Schedule; 3], from: usize, to: usize)
    requires from { from < 3 }
    requires to { to < 3 }
    ensures copy { schedule_at schedules.new to ≡ schedule_at schedules.old from }
    ensures others { schedules.new ≡ slice_set schedules.old to (schedule_at schedules.new to) }
{
    schedules[to].groups = schedules[from].groups;
}

/// Copies a half of the key in the place `Key`.
fn copy_half(lease: &Lease, at: usize, out: &mut [u8; 8])
    requires { at + 8 ≤ 16 }
    ensures { out.new ≡ slice_range (bench_of lease.now).key at (at + 8) }
{
    out.copy_from_slice(&lease.key(KeyPlace::Key)[at..at + 8]);
}

/// Makes one of the schedules that of a half of the key in the place `Key`.
fn schedule_half(lease: &mut Lease, at: usize, number: usize)
    requires half { at + 8 ≤ 16 }
    requires number { number < 3 }
    ensures made { let schedules = (bench_of lease.new).schedules in
        IsOf (schedule_at schedules number) (slice_range (bench_of lease.old).key at (at + 8)) }
    ensures others { let schedules = (bench_of lease.new).schedules in
        schedules ≡ slice_set (bench_of lease.old).schedules number (schedule_at schedules number) }
    ensures stays { ChangesSchedules lease.old lease.new }
{
    let mut half = [0; 8];
    copy_half(lease, at, &mut half);
    let key = Secret::guard(&mut half);
    put_schedule(&key, lease.schedules_mut(), number);
}

/// Makes the second schedule that of the right half of the key in the place `Key`, or the same as the first one for a
/// single-length key.
fn schedule_right(lease: &mut Lease, single: bool)
    requires left { let bench = bench_of lease.old in
        IsOf (schedule_at bench.schedules 0) (slice_range bench.key 0 8) }
    ensures made { let key = (bench_of lease.old).key in
        IsOf (schedule_at (bench_of lease.new).schedules 1)
        (if single then slice_range key 0 8 else slice_range key 8 16) }
    ensures others { let schedules = (bench_of lease.new).schedules in
        schedules ≡ slice_set (bench_of lease.old).schedules 1 (schedule_at schedules 1) }
    ensures stays { ChangesSchedules lease.old lease.new }
{
    if single {
        copy_schedule(lease.schedules_mut(), 0, 1);
    } else {
        schedule_half(lease, RIGHT, 1);
    }
}

/// Makes the three schedules those of the key in the place `Key`.
fn schedule_halves(lease: &mut Lease, single: bool)
    ensures made { let key = (bench_of lease.old).key in
        let right = (if single then slice_range key 0 8 else slice_range key 8 16) in
        AreOf (bench_of lease.new).schedules (slice_range key 0 8) right (slice_range key 0 8) }
    ensures stays { ChangesSchedules lease.old lease.new }
{
    schedule_half(lease, LEFT, 0);
    schedule_right(lease, single);
    copy_schedule(lease.schedules_mut(), 0, 2);
}

/// Makes the three schedules those of the clear key of a judged internal token: of its left half, its right half
/// and its left half again; of a single-length key all three are the same. Only the place `Key` and the schedules
/// of the lease change.
///
/// A single-length key costs three key schedules and one block to open, and one schedule; a double-length key six
/// and two blocks, and two schedules.
pub fn schedule_key(lease: &mut Lease, key: &Judged)
    requires { HasHalves key.now }
    ensures schedules { HoldKey (bench_of lease.new).schedules
        (opened (bench_of lease.old) key.now).key }
    ensures length { IsKey key.now.token.vector (opened (bench_of lease.old) key.now).key }
    ensures stays { ChangesKeyAt KeyPlace.Key lease.old lease.new }
{
    open_key(lease, key, KeyPlace::Key);
    schedule_halves(lease, key.token.vector.length() == 8);
}
