//! Replies that are counted and not kept.
ghost use Rattle.std.specs.Prelude.{◌≡◌, [], Some};
ghost use Rattle.command_words.specs.Counting.{counted};

use crate::counts::Counts;
use crate::history::History;
use device_cells::{Failed, Sink};
use std::marker::Model;

/// A sink that counts the reply lines that it takes, and keeps none. No write to it fails.
#[derive(Drop)]
pub struct Tally {
    taken: History<u8>,
    counts: Counts,
}

// Clauses see the bytes taken.
impl Model for Tally {
    ghost use Rattle.std.specs.Prelude.{◌≡◌, ℕ, List};
    ghost use Rattle.command_words.specs.Counting.{counted};

    ghost Value = { List ℕ };

    ghost view = { λ t. t.taken.items };

    ghost invariant = { λ t. t.counts ≡ counted t.taken.items };
}

impl Tally {
    /// Nothing was taken.
    #[tactic(auto, unfolding(crate::specs::Counting::counted))]
    pub fn new() -> Tally
        ensures { result ≡ [] }
    {
        Tally {
            taken: History::new(),
            counts: Counts::new(),
        }
    }

    /// How many of the replies begin with `OK`.
    pub fn ok(&self) -> u32
        ensures { result ≡ (counted self.now).ok }
    {
        self.counts.ok
    }

    /// How many of the replies begin with `NO`.
    pub fn refused(&self) -> u32
        ensures { result ≡ (counted self.now).refused }
    {
        self.counts.refused
    }

    /// How many of the replies end with ` warn=old`.
    pub fn old(&self) -> u32
        ensures { result ≡ (counted self.now).old }
    {
        self.counts.old
    }
}

impl Sink for Tally {
    ghost held = { λ t. Some t };

    ghost faults = { λ _. 0 };

    // It takes one byte a call.
    fn write(&mut self, piece: &[u8]) -> Result<usize, Failed> {
        match piece {
            [byte, ..] => {
                self.taken = self.taken.and(byte);
                self.counts = self.counts.take(*byte);
                Ok(1)
            }
            [] => Ok(0),
        }
    }
}
