//! One reply is one line.

ghost use Rattle.std.specs.Prelude.{◌≡◌, ◌<◌, ◌≤◌, ℕ, List, length};
ghost use Rattle.std.specs.List.{All};
ghost use Rattle.cca_machine.specs.Lines.{line_outcome};
ghost use Rattle.cca_machine.specs.Session.{replies};
ghost use Rattle.cca_machine.specs.State.{State, IsStoreOf};
ghost use Rattle.line_service.specs.Lines.{lines as lines_of};
ghost use Rattle.line_service.specs.Replies.{reply_limit, spelled};
ghost use Rattle.cca_laws.specs.ReplyLines.{IsOneLine, IsPrintableLine};

/// Each reply is one line, whatever the line was that it answers: no byte of it but its last is a newline. So from a state
/// for which a store stands the replies have as many lines as there are lines to answer, and pair with them by counting.
/// Where the random bytes ahead are bytes, below 256, each byte of the line but its newline is printable ASCII. No reply
/// line has more than 69,632 bytes, its newline among them.
pub fn one_reply_is_one_line()
    ensures one { (s : State) (image random line : List ℕ) → IsStoreOf s image
        → IsOneLine (spelled (line_outcome s random line).reply) }
    ensures pairs { (s : State) (image random : List ℕ) (lines : List (List ℕ)) → IsStoreOf s image
        → length (lines_of (replies s random lines)) ≡ length lines }
    ensures printable { (s : State) (image random line : List ℕ) → IsStoreOf s image
        → All (λ b. b < 256) random → IsPrintableLine (spelled (line_outcome s random line).reply) }
    ensures short { (s : State) (image random line : List ℕ) → IsStoreOf s image
        → length (spelled (line_outcome s random line).reply) ≤ reply_limit }
{}
