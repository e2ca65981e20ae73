//! The random bytes of a demo, whose lines take none.
use device_cells::{Entropy, Failed};

/// Stands where random bytes aren't used. Its bytes are zeros, and no fill fails.
#[derive(Drop)]
pub struct Unused;

impl Entropy for Unused {
    ghost use Rattle.std.specs.Prelude.{None};

    ghost left = { λ _. None };

    ghost faults = { λ _. 0 };

    fn fill(&mut self, out: &mut [u8]) -> Result<(), Failed> {
        out.fill(0);
        Ok(())
    }
}
