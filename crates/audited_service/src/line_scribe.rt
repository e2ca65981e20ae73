//! What says which entry a request line gets.
use crate::entries::{line_entry, long_line_entry};
use crate::scribe::Scribe;
use audit_trail::Entry;

/// The entries of request lines: by the reply, and by what the line says of itself where it is a request.
#[derive(Clone, Copy, Debug, PartialEq, Eq)]
pub struct LineScribe;

impl Scribe for LineScribe {
    ghost use Rattle.audited_service.specs.LineEntries.{entry_of};

    ghost entry_of = { entry_of };

    fn entry(&self, line: &[u8], reply: &[u8]) -> Entry {
        line_entry(line, reply)
    }

    fn too_long(&self, reply: &[u8]) -> Entry {
        long_line_entry(reply)
    }
}
