//! Writing a whole reply.
ghost use Rattle.std.specs.Prelude.{◌≡◌, ◌++◌, ℕ, List, OnOk, OnErr};
ghost use Rattle.device_cells.specs.Faults.{HasCause};
ghost use Rattle.device_cells.specs.WhereTold.{WhereTold};
ghost use Rattle.line_service.specs.Sending.{GotPart};

use device_cells::{Failed, Sink};

/// Writes the whole piece: one call, unless the sink takes it in parts.
pub fn send<K: Sink>(sink: &mut K, piece: &[u8]) -> Result<(), Failed>
    ensures all { OnOk result (WhereTold (K.held sink.old) (K.held sink.new)
        (λ before now. now ≡ before ++ piece.now)) }
    ensures part { OnErr result (WhereTold (K.held sink.old) (K.held sink.new)
        (λ before now. GotPart before now piece.now)) }
    ensures cause { HasCause (K.faults sink.old) (K.faults sink.new) result }
{
    let mut rest = piece;
    'parts: while !rest.is_empty() {
        let count = sink.write(rest)?;
        rest = &rest[count..];
    }
    Ok(())
}
