//! Random bytes that were chosen before.
ghost use Rattle.std.specs.Prelude.{◌≡◌, ◌↔◌, length, Some, OnOk, OnErr, IfOk, IsErr, IsTrue};
ghost use Rattle.std.specs.Io.KnownBytes.{Consumes};
ghost use Rattle.slot_disk.specs.EntropyState.{refuses_fill, after_fill};
ghost use Rattle.slot_disk.specs.FaultPlan.{unused, with_failing};
ghost use Rattle.device_cells.specs.Faults.{HasCause};

use crate::fault_plan::FaultPlan;
use device_cells::{Entropy, Failed, NoMemory};
use std::alloc::Global;
use std::marker::Model;

/// Bytes in memory, given in order.
#[derive(Drop)]
pub struct MemoryEntropy {
    bytes: Vec<u8>,
    at: usize,
    plan: FaultPlan,
}

// Clauses see the bytes still to come, and the plan of faults.
impl Model for MemoryEntropy {
    ghost use Rattle.std.specs.Prelude.{◌≤◌, drop};
    ghost use Rattle.std.specs.Vec.{vec_len};
    ghost use Rattle.slot_disk.specs.EntropyState.{EntropyState};

    ghost Value = { EntropyState };

    ghost view = { λ e. record { left = drop e.at e.bytes.items; plan = e.plan } };

    ghost invariant = { λ e. e.at ≤ vec_len e.bytes };
}

impl MemoryEntropy {
    /// A source of these random bytes.
    pub fn new(alloc: Global, bytes: &[u8]) -> Result<MemoryEntropy, NoMemory>
        ensures { IfOk result (λ e. e ≡ record { left = bytes.now; plan = unused }) }
    {
        Ok(MemoryEntropy {
            bytes: Vec::from_slice(alloc, bytes)?,
            at: 0,
            plan: FaultPlan::new(),
        })
    }

    /// Makes the fill of this number fail, counted from 0. It keeps the last eight numbers.
    pub fn fail_at(&mut self, call: u64)
        ensures { self.new ≡ record self.old { plan = with_failing self.old.plan call } }
    {
        self.plan.fail_at(call);
    }
}

impl Entropy for MemoryEntropy {
    ghost left = { λ e. Some e.left };

    ghost faults = { λ e. e.plan.faults };

    fn fill(&mut self, out: &mut [u8]) -> Result<(), Failed>
        ensures bytes { OnOk result (Consumes (Some self.old.left) (Some self.new.left) out.new) }
        ensures cause { HasCause self.old.plan.faults self.new.plan.faults result }
        ensures quiet { OnOk result (self.new.plan.faults ≡ self.old.plan.faults) }

        // exactly which fills fail, and what each takes
        ensures fails { IsErr result ↔ IsTrue (refuses_fill self.old (length out.old)) }
        ensures entropy { self.new ≡ after_fill self.old (length out.old) }
        ensures untouched { OnErr result (out.new ≡ out.old) }
    {
        let rest = &self.bytes[self.at..];
        let has_room = out.len() <= rest.len();
        if self.plan.next_call_in_room(has_room) {
            return Err(Failed);
        }
        out.copy_from_slice(&rest[..out.len()]);
        self.at += out.len();
        Ok(())
    }
}
