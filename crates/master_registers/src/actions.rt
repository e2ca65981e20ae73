//! The actions of a key ceremony.
ghost use Rattle.std.specs.Prelude.{◌≡◌};
ghost use Rattle.master_registers.specs.Actions.{action_of_name};

/// What is done to the new master key register.
#[derive(Clone, Copy, Debug, PartialEq, Eq)]
pub enum Action {
    /// Puts the first key part into the empty register.
    First,
    /// XORs a further key part into the partly full register.
    Middle,
    /// XORs the last key part into the partly full register, which is then full.
    Last,
    /// Empties the register.
    Clear,
    /// Makes the full register the current one, and the current one the old one.
    Set,
}

impl Action {
    /// The action with this name, in capitals; none where the text is no name of an action.
    pub fn read(text: &[u8]) -> Option<Action>
        ensures { result ≡ action_of_name text.now }
    {
        if text == b"FIRST".as_slice() {
            Some(Action::First)
        } else if text == b"MIDDLE".as_slice() {
            Some(Action::Middle)
        } else if text == b"LAST".as_slice() {
            Some(Action::Last)
        } else if text == b"CLEAR".as_slice() {
            Some(Action::Clear)
        } else if text == b"SET".as_slice() {
            Some(Action::Set)
        } else {
            None
        }
    }
}
