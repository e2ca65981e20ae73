//! A store that is moved to another module.

ghost use Rattle.std.specs.Prelude.{◌≡◌, ◌∷◌, ℕ, List, Some, codes};
ghost use Rattle.std.specs.Option.{option_map};
ghost use Rattle.cca_machine.specs.Act.{performed};
ghost use Rattle.cca_machine.specs.Keys.{any_old, cell_with, key_of_label, warning};
ghost use Rattle.cca_machine.specs.Operands.{listed, operands};
ghost use Rattle.cca_machine.specs.Session.{state_after};
ghost use Rattle.cca_machine.specs.Verdict.{refusal, verdict};
ghost use Rattle.cca_vectors.specs.Checks.{first_failing};
ghost use Rattle.cca_machine.specs.State.{State};
ghost use Rattle.line_service.specs.Lines.{lines};
ghost use Rattle.line_service.specs.Replies.{Done, Hex};
ghost use Rattle.store_move.specs.Exports.{export_checks};
ghost use Rattle.cca_laws.specs.Moving.{IsMovedLabel, IsPermittedMove, IsReceived, Receives, export_request, run_again};
ghost use Rattle.store_unload.specs.Moves.{move_file, moving_requests, token_of_label};
ghost use Rattle.command_words.specs.declared.moves.Move.{Move};

/// The request file that `cca unload` writes, carried out at another module that shares the transport key and has room,
/// leaves each label that is moved with its key and its control vector, under the current master key there, not staged and
/// with no unused token, in the cell that it had or in the lowest free one in order; and all else as it was, whole. However
/// often a session over some first lines of the file came before, the session over the whole file leaves the same state:
/// cells too. Together with what a run that is stopped leaves, that covers a move that is interrupted anywhere. The lines
/// that the file has are these requests. A label is kept back by the very rule with which CSNBKEX refuses its key, and the
/// token of one that is moved is that which CSNBKEX gives.
pub fn a_store_is_moved()
    ensures received { (s t : State) (w : Move) (random : List ℕ) → IsPermittedMove s w
        → Receives s w t → IsReceived s w t (state_after t random (moving_requests s w)) }
    ensures again { (s t : State) (w : Move) (random counts : List ℕ) → IsPermittedMove s w
        → Receives s w t → state_after t random (run_again counts (moving_requests s w))
        ≡ state_after t random (moving_requests s w) }
    ensures lines { (s : State) (w : Move) → IsPermittedMove s w
        → lines (move_file s w) ≡ moving_requests s w }
    ensures kept { (s : State) (w : Move) (random label : List ℕ) (cell : ℕ)
        → IsPermittedMove s w → cell_with s label ≡ Some cell
        → verdict s random (export_request w label)
        ≡ option_map (λ rule. refusal rule (codes "key"))
        (first_failing (export_checks (key_of_label s label))) }
    ensures tokens { (s : State) (w : Move) (drawn label : List ℕ) → IsPermittedMove s w
        → IsMovedLabel s w label → (performed s drawn (export_request w label)).reply
        ≡ Done (Hex (codes "token") (token_of_label s w label)
        ∷ warning (any_old s (listed (operands (export_request w label))))) }
{}
