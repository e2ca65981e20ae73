//! A sink in memory.
ghost use Rattle.std.specs.Prelude.{◌≡◌, ◌<◌, ◌↔◌, [], length, min, Some, IfOk, OnOk, IsErr, IsTrue};
ghost use Rattle.std.specs.Io.{WritesAtMost};
ghost use Rattle.std.specs.Io.KnownBytes.{WriteAppends};
ghost use Rattle.device_cells.specs.Faults.{HasCause};
ghost use Rattle.slot_disk.specs.FaultPlan.{unused, with_failing};
ghost use Rattle.slot_disk.specs.SinkState.{refuses, after_write};

use crate::fault_plan::FaultPlan;
use device_cells::{Failed, NoMemory, Sink};
use std::alloc::Global;
use std::marker::Model;

/// Bytes taken into memory, as far as the room goes that is chosen at creation.
#[derive(Drop)]
pub struct MemorySink {
    bytes: Vec<u8>,
    room: usize,
    plan: FaultPlan,
}

// Clauses see the bytes taken, the room that is left, and the plan of faults.
impl Model for MemorySink {
    ghost use Rattle.std.specs.Prelude.{◌+◌, ◌≤◌};
    ghost use Rattle.std.specs.Vec.{vec_len, vec_capacity};
    ghost use Rattle.slot_disk.specs.SinkState.{SinkState};

    ghost Value = { SinkState };

    ghost view = { λ s. record { held = s.bytes.items; room = s.room; plan = s.plan } };

    ghost invariant = { λ s. vec_len s.bytes + s.room ≤ vec_capacity s.bytes };
}

impl MemorySink {
    /// An empty sink with room for so many bytes.
    pub fn new(alloc: Global, room: usize) -> Result<MemorySink, NoMemory>
        ensures { IfOk result (λ s. s ≡ record { held = []; room = room; plan = unused }) }
    {
        Ok(MemorySink {
            bytes: Vec::with_capacity(alloc, room)?,
            room,
            plan: FaultPlan::new(),
        })
    }

    /// The bytes taken so far.
    pub fn bytes(&self) -> &[u8]
        ensures { result.now ≡ self.now.held }
    {
        self.bytes.as_slice()
    }

    /// Makes the write of this number fail, counted from 0. It keeps the last eight numbers.
    pub fn fail_at(&mut self, call: u64)
        ensures { self.new ≡ record self.old { plan = with_failing self.old.plan call } }
    {
        self.plan.fail_at(call);
    }
}

impl Sink for MemorySink {
    ghost held = { λ s. Some s.held };

    ghost faults = { λ s. s.plan.faults };

    fn write(&mut self, piece: &[u8]) -> Result<usize, Failed>
        ensures bound { WritesAtMost result piece.now }
        ensures bytes { WriteAppends (Some self.old.held) (Some self.new.held) result piece.now }
        ensures some { IfOk result (λ n. 0 < length piece.now → 0 < n) }
        ensures cause { HasCause self.old.plan.faults self.new.plan.faults result }
        ensures quiet { OnOk result (self.new.plan.faults ≡ self.old.plan.faults) }

        // exactly which writes fail, and how many bytes the others take
        ensures fails { IsErr result ↔ IsTrue (refuses self.old piece.now) }
        ensures count { IfOk result (λ n. n ≡ min (length piece.now) self.old.room) }
        ensures sink { self.new ≡ after_write self.old piece.now }
    {
        if self.plan.next_call() {
            return Err(Failed);
        }
        if self.room == 0 && !piece.is_empty() {
            self.plan.count_fault();
            return Err(Failed);
        }
        let count = piece.len().min(self.room);
        self.bytes.extend_from_slice(&piece[..count]).unwrap();
        self.room -= count;
        Ok(count)
    }
}
