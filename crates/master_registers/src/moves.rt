//! Bytes of master keys moved between the places of the workbench.
ghost use Rattle.std.specs.Prelude.{◌≡◌, ◌≢◌, ◌+◌, ◌≤◌, ◌++◌, length, take, drop, replicate, slice_range};
ghost use Rattle.key_cells.specs.Bench.{master_of, with_master};
ghost use Rattle.key_cells.specs.Lease.{bench_of, holding};
ghost use Rattle.key_cells.specs.Bytes.{xor};
ghost use Rattle.master_registers.specs.Masters.{IsMaster};

use crate::combining::xor_secret;
use key_cells::{Lease, MasterPlace, Secret, put_secret};

/// Moves a master key to another place, and leaves zeros where it was.
pub(crate) fn move_master(lease: &mut Lease, from: MasterPlace, to: MasterPlace)
    requires { from ≢ to }
    ensures { let bench = bench_of lease.old in lease.new ≡ holding lease.old
        (with_master (with_master bench to (master_of bench from)) from (replicate 24 0)) }
{
    copy_master(lease, from, to);
    clear_master(lease, from);
}

/// Copies a master key to another place.
pub(crate) fn copy_master(lease: &mut Lease, from: MasterPlace, to: MasterPlace)
    ensures { let bench = bench_of lease.old in
        lease.new ≡ holding lease.old (with_master bench to (master_of bench from)) }
{
    *lease.master_mut(to) = *lease.master(from);
}

/// Makes a place zero.
pub(crate) fn clear_master(lease: &mut Lease, place: MasterPlace)
    ensures { lease.new ≡ holding lease.old
        (with_master (bench_of lease.old) place (replicate 24 0)) }
{
    *lease.master_mut(place) = [0; 24];
}

/// Puts the part into the new register, whose place is zero: the XOR with zeros is the part itself.
pub(crate) fn put_part(lease: &mut Lease)
    requires { (bench_of lease.old).coming ≡ replicate 24 0 }
    ensures put { let bench = bench_of lease.old in
        lease.new ≡ holding lease.old (record bench { coming = bench.part }) }
    ensures bytes { IsMaster (bench_of lease.old).part }
{
    combine_part(lease);
}

/// XORs the part into the new register.
pub(crate) fn combine_part(lease: &mut Lease)
    ensures combined { let bench = bench_of lease.old in
        lease.new ≡ holding lease.old (record bench { coming = xor bench.coming bench.part }) }
    ensures bytes { IsMaster (xor (bench_of lease.old).coming (bench_of lease.old).part) }
    ensures part { length (bench_of lease.old).part ≡ 24 }
{
    let mut bytes = *lease.master(MasterPlace::Part);
    let part = Secret::guard(&mut bytes);
    xor_secret(lease.master_mut(MasterPlace::New), &part);
}

/// Copies a master key into the body of a cell, from a byte on.
pub(crate) fn put_master(lease: &mut Lease, place: MasterPlace, at: usize)
    requires { at + 24 ≤ 192 }
    ensures { lease.new ≡ holding lease.old (record (bench_of lease.old) {
      body = take at (bench_of lease.old).body ++ master_of (bench_of lease.old) place
          ++ drop (at + 24) (bench_of lease.old).body;
    }) }
{
    let mut bytes = *lease.master(place);
    let master = Secret::guard(&mut bytes);
    put_secret(lease.body_mut(), at, &master);
}

/// Copies 24 bytes of the body of a cell, from a byte on, into the place of a master key.
pub(crate) fn take_master(lease: &mut Lease, place: MasterPlace, at: usize)
    requires { at + 24 ≤ 192 }
    ensures { let bench = bench_of lease.old in
        lease.new ≡ holding lease.old
        (with_master bench place (slice_range bench.body at (at + 24))) }
{
    *lease.master_mut(place) = *master_at(lease.body(), at);
}

fn master_at(body: &[u8; 192], at: usize) -> &[u8; 24]
    requires { at + 24 ≤ 192 }
    ensures { result.now ≡ slice_range body.now at (at + 24) }
{
    body[at..at + 24].first_chunk::<24>().unwrap()
}
