//! Random bytes that stand in where a random source isn't used.
ghost use Rattle.std.specs.Prelude.{◌≡◌, [], Some};

use crate::faults::count_one;
use crate::{Entropy, Failed};

/// Random bytes of which there are none. A fill of some bytes fails.
#[derive(Debug, Drop)]
pub struct BlankEntropy {
    faults: u64,
}

impl BlankEntropy {
    pub fn new() -> BlankEntropy
        ensures bytes { ⟦<BlankEntropy as Entropy>⟧.left result ≡ Some [] }
        ensures faults { ⟦<BlankEntropy as Entropy>⟧.faults result ≡ 0 }
    {
        BlankEntropy { faults: 0 }
    }
}

impl Entropy for BlankEntropy {
    ghost left = { λ _. Some [] };

    ghost faults = { λ e. e.faults };

    fn fill(&mut self, out: &mut [u8]) -> Result<(), Failed> {
        if out.is_empty() {
            return Ok(());
        }
        count_one(&mut self.faults);
        Err(Failed)
    }
}
