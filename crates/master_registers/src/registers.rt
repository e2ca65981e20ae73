//! What is known of the registers beside their contents.
ghost use Rattle.std.specs.Prelude.{◌≡◌};

use crate::patterns::Pattern;

/// How full the new master key register is.
#[derive(Clone, Copy, Debug, PartialEq, Eq)]
pub enum NewState {
    /// It holds nothing.
    Empty,
    /// It holds the XOR of the parts so far.
    Partial,
    /// It holds a master key.
    Full,
}

/// The state of the new register, and the verification patterns of the other two, where they are full.
#[derive(Clone, Copy, Debug, PartialEq, Eq)]
pub struct Registers {
    /// How full the new register is.
    pub new_state: NewState,
    /// The pattern of the current register; none where it is empty.
    pub current_pattern: Option<Pattern>,
    /// The pattern of the old register; none where it is empty.
    pub old_pattern: Option<Pattern>,
}

impl Registers {
    /// The same with another state of the new register.
    pub(crate) fn with_new(&self, new_state: NewState) -> Registers
        ensures { result ≡ record self.now { new_state = new_state } }
    {
        Registers { new_state, ..*self }
    }
}
