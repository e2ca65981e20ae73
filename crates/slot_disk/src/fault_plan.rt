//! Which calls of a device in memory fail.
ghost use Rattle.std.specs.Prelude.{◌≡◌, ◌≤◌, ◌||◌, not};
ghost use Rattle.std.specs.Bool.{OnTrue};
ghost use Rattle.device_cells.specs.Faults.{Rose};
ghost use Rattle.slot_disk.specs.FaultPlan.{fails_now, after_call, after_call_in_room, is_call, with_failing, with_fault, unused};

use device_cells::count_one;

/// The calls of a device, counted from 0, the numbers of those that are to fail, and how many did.
#[derive(Drop)]
pub struct FaultPlan {
    pub calls: u64,
    pub failing: [Option<u64>; 8],
    pub faults: u64,
}

fn is_number(number: &Option<u64>, call: u64) -> bool
    ensures { result ≡ is_call call number.now }
{
    match number {
        Some(number) => *number == call,
        None => false,
    }
}

impl FaultPlan {
    pub fn new() -> FaultPlan
        ensures { result ≡ unused }
    {
        FaultPlan {
            calls: 0,
            failing: [None; 8],
            faults: 0,
        }
    }

    /// Makes the call of this number fail. It keeps the last eight numbers that it was given.
    pub fn fail_at(&mut self, call: u64)
        ensures { self.new ≡ with_failing self.old call }
    {
        self.failing.rotate_left(1);
        self.failing[7] = Some(call);
    }

    fn is_next_failing(&self) -> bool
        ensures { result ≡ fails_now self.now }
    {
        let call = self.calls;
        self.failing.iter().any(|number| is_number(number, call))
    }

    /// Counts a call, and answers whether it is to fail. One that is to fail is counted as a fault.
    pub fn next_call(&mut self) -> bool
        ensures fails { result ≡ fails_now self.old }
        ensures plan { self.new ≡ after_call self.old }
        ensures later { self.old.faults ≤ self.new.faults }
        ensures cause { OnTrue result (Rose self.old.faults self.new.faults) }
    {
        let fails = self.is_next_failing();
        self.calls = self.calls.saturating_add(1);
        if fails {
            self.count_fault();
        }
        fails
    }

    /// Counts a call as `next_call` does. One that there is no room for fails too.
    pub fn next_call_in_room(&mut self, has_room: bool) -> bool
        ensures fails { result ≡ (fails_now self.old || not has_room) }
        ensures plan { self.new ≡ after_call_in_room self.old has_room }
        ensures later { self.old.faults ≤ self.new.faults }
        ensures cause { OnTrue result (Rose self.old.faults self.new.faults) }
    {
        if self.next_call() {
            return true;
        }
        if !has_room {
            self.count_fault();
        }
        !has_room
    }

    /// Counts a fault that wasn't planned.
    pub fn count_fault(&mut self)
        ensures plan { self.new ≡ with_fault self.old }
        ensures later { self.old.faults ≤ self.new.faults }
        ensures cause { Rose self.old.faults self.new.faults }
    {
        count_one(&mut self.faults);
    }
}
