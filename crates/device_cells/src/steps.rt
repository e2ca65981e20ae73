//! Counting steps for proofs alone.
ghost use Rattle.std.specs.Prelude.{◌≡◌, ◌+◌};

use std::marker::{Model, PhantomData};
use std::mem;
use std::snapshot::Snapshot;

/// The number of steps that were counted, as clauses see it. It takes no bytes at run time, and
/// only `tick` changes it. `L` names the ledger that the steps are of, so that two counts aren't
/// mixed up.
#[derive(Drop)]
pub struct Steps<L> {
    ledger: PhantomData<L>,
    count: Snapshot<u64>,
}

// Clauses see the number.
impl<L> Model for Steps<L> {
    ghost use Rattle.std.specs.Prelude.{ℕ};

    ghost Value = { ℕ };

    ghost view = { λ s. s.count.value };
}

impl<L> Steps<L> {
    /// No step yet.
    pub fn new() -> Steps<L>
        ensures { result ≡ 0 }
    {
        Steps {
            ledger: PhantomData,
            count: Snapshot::of(&0),
        }
    }

    /// One step more.
    pub fn tick(&mut self)
        ensures { self.new ≡ self.old + 1 }
    {
        let count = mem::replace(&mut self.count, Snapshot::of(&0));
        self.count = more(count);
    }
}

// A `Snapshot` is for clauses alone and holds no number, so that this is proved by hand.
fn more(count: Snapshot<u64>) -> Snapshot<u64>
    ensures { result.value ≡ count.value + 1 }
{
    count
}
