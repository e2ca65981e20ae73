//! Laws of sessions whose lines get entries, the contracts of calls that do nothing.
ghost use Rattle.std.specs.Prelude.{ℕ, List};
ghost use Rattle.audit_trail.specs.declared.entries.Entry.{Entry as AnyEntry};
ghost use Rattle.audited_service.specs.Noting.{NotesLines};

use crate::scribe::Scribe;
use line_service::Desk;

/// A session that notes the entries of its lines goes through the same states and replies as one that doesn't, and takes
/// the same random bytes. The entries are those that were there, and behind them one for each line, in order: that of the
/// line and of its own reply.
pub fn a_session_with_entries_is_the_session<A: Desk, W: Scribe>()
    ensures { (s : A.machine.State) (es : List AnyEntry) (random : List ℕ) (lines : List (List ℕ))
        → NotesLines A.machine W.entry_of s es random lines }
{}
