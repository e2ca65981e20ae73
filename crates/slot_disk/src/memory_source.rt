//! A source in memory.
ghost use Rattle.std.specs.Prelude.{◌≡◌, ◌<◌, ◌≤◌, ◌↔◌, ◌++◌, ℕ, List, length, take, drop, Option, Some, IfOk, OnOk, IsErr, IsTrue, OnErr};
ghost use Rattle.std.specs.Io.{ReadsAtMost};
ghost use Rattle.std.specs.Io.KnownBytes.{ReadConsumes};
ghost use Rattle.device_cells.specs.Faults.{HasCause};
ghost use Rattle.slot_disk.specs.FaultPlan.{unused, fails_now, with_failing};
ghost use Rattle.slot_disk.specs.SourceState.{given, after_read};

use crate::fault_plan::FaultPlan;
use device_cells::{Failed, NoMemory, Source};
use std::alloc::Global;
use std::marker::Model;

/// Bytes in memory, given in pieces of a size that is chosen at creation.
#[derive(Drop)]
pub struct MemorySource {
    bytes: Vec<u8>,
    at: usize,
    piece: usize,
    plan: FaultPlan,
}

// Clauses see the bytes still to come, the size of a piece, and the plan of faults.
impl Model for MemorySource {
    ghost use Rattle.std.specs.Prelude.{◌<◌, ◌≤◌, drop};
    ghost use Rattle.std.specs.Vec.{vec_len};
    ghost use Rattle.slot_disk.specs.SourceState.{SourceState};

    ghost Value = { SourceState };

    ghost view = { λ s. record { left = drop s.at s.bytes.items; piece = s.piece; plan = s.plan } };

    ghost invariant = { λ s. (s.at ≤ vec_len s.bytes) × (0 < s.piece) };
}

impl MemorySource {
    /// A source of these bytes, which gives at most `piece` of them in a call.
    pub fn new(alloc: Global, bytes: &[u8], piece: usize) -> Result<MemorySource, NoMemory>
        requires { 0 < piece }
        ensures { IfOk result (λ s. s ≡ record { left = bytes.now; piece = piece; plan = unused }) }
    {
        Ok(MemorySource {
            bytes: Vec::from_slice(alloc, bytes)?,
            at: 0,
            piece,
            plan: FaultPlan::new(),
        })
    }

    /// Makes the read of this number fail, counted from 0. It keeps the last eight numbers.
    pub fn fail_at(&mut self, call: u64)
        ensures { self.new ≡ record self.old { plan = with_failing self.old.plan call } }
    {
        self.plan.fail_at(call);
    }
}

impl Source for MemorySource {
    ghost left = { λ s. Some s.left };

    ghost faults = { λ s. s.plan.faults };

    fn read(&mut self, out: &mut [u8]) -> Result<usize, Failed>
        ensures bound { ReadsAtMost result out.new }
        ensures bytes { ReadConsumes (Some self.old.left) (Some self.new.left) result out.new }
        ensures cause { HasCause self.old.plan.faults self.new.plan.faults result }
        ensures quiet { OnOk result (self.new.plan.faults ≡ self.old.plan.faults) }

        // exactly which reads fail, and how many bytes the others give
        ensures fails { IsErr result ↔ IsTrue (fails_now self.old.plan) }
        ensures count { IfOk result (λ n. n ≡ given self.old (length out.old)) }
        ensures source { self.new ≡ after_read self.old (length out.old) }

        // bytes of `out` behind those that were given stay
        ensures rest { IfOk result (λ n. drop n out.new ≡ drop n out.old) }
        ensures untouched { OnErr result (out.new ≡ out.old) }
    {
        if self.plan.next_call() {
            return Err(Failed);
        }
        let rest = &self.bytes[self.at..];
        let count = out.len().min(self.piece).min(rest.len());
        out[..count].copy_from_slice(&rest[..count]);
        self.at += count;
        Ok(count)
    }
}
