//! What a record says of a line.
ghost use Rattle.std.specs.Prelude.{◌↔◌, IsTrue};
ghost use Rattle.audit_trail.specs.Entries.{IsEntry};

use crate::fields::{holds_label, holds_role, holds_verb};

/// What a record says of a line and of its reply.
#[derive(Clone, Copy, Debug, PartialEq, Eq)]
pub struct Entry {
    /// The number of the rule that refused the line; 0 where its request was carried out.
    pub rule: u8,
    /// The name of the role, filled with zeros; zeros where the line is no request.
    pub role: [u8; 8],
    /// The verb, filled with zeros; zeros where the line is no request.
    pub verb: [u8; 10],
    /// The first label that the line names, filled with zeros; zeros where it names none.
    pub label: [u8; 64],
    /// How long that label is.
    pub label_length: u8,
}

impl Entry {
    /// Whether its fields have the forms that a record asks of them.
    pub fn is_whole(&self) -> bool
        ensures { IsTrue result ↔ IsEntry self.now }
    {
        let role = holds_role(&self.role);
        let verb = holds_verb(&self.verb);
        let label = holds_label(self.label_length, &self.label);
        self.rule < 100 && role && verb && label
    }
}
