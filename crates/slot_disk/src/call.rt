//! The calls that a disk in memory notes.
ghost use Rattle.std.specs.Prelude.{◌≡◌, ◌≤◌, All, length, replicate};
ghost use Rattle.device_cells.specs.Cells.{body_size};
ghost use Rattle.device_cells.specs.Ranges.{overwrite};
ghost use Rattle.slot_disk.specs.Stages.{IsWiped};

use device_cells::BODY_LEN;
use std::marker::Model;

/// The bytes of a write.
#[derive(Drop)]
pub(crate) struct Piece {
    bytes: [u8; BODY_LEN],
    length: usize,
}

impl Model for Piece {
    ghost use Rattle.std.specs.Prelude.{◌≤◌, ℕ, List, take};
    ghost use Rattle.device_cells.specs.Cells.{body_size};

    ghost Value = { List ℕ };

    ghost view = { λ p. take p.length p.bytes };

    ghost invariant = { λ p. p.length ≤ body_size };
}

impl Piece {
    pub(crate) fn new(piece: &[u8]) -> Piece
        requires { length piece.now ≤ body_size }
        ensures { result ≡ piece.now }
    {
        let mut bytes = [0; BODY_LEN];
        bytes[..piece.len()].copy_from_slice(piece);
        Piece {
            bytes,
            length: piece.len(),
        }
    }

    pub(crate) fn bytes(&self) -> &[u8]
        ensures bytes { result.now ≡ self.now }
        ensures short { length self.now ≤ body_size }
    {
        &self.bytes[..self.length]
    }

    fn wipe(&mut self)
        ensures { self.new ≡ replicate (length self.old) 0 }
    {
        self.bytes = [0; BODY_LEN];
    }
}

/// A call that a disk in memory notes: a write of these bytes from a place on, or a sync.
#[derive(Drop)]
pub(crate) enum Call {
    Written(usize, Piece),
    Synced,
}

fn wipe_call(call: &mut Call)
    ensures { IsWiped call.new }
{
    if let Call::Written(_, piece) = call {
        piece.wipe();
    }
}

/// Wipes the bytes of each call.
pub(crate) fn wipe_calls(calls: &mut [Call])
    ensures { All IsWiped calls.new }
{
    for call in calls.iter_mut() {
        wipe_call(call);
    }
}

/// Puts the bytes in the place from `at` on, as far as the target goes.
pub(crate) fn overwrite_at(target: &mut [u8], at: usize, bytes: &[u8])
    ensures { target.new ≡ overwrite target.old at bytes.now }
{
    let start = at.min(target.len());
    let count = bytes.len().min(target.len() - start);
    target[start..start + count].copy_from_slice(&bytes[..count]);
}

/// The same for a `Vec`.
pub(crate) fn overwrite_vec(target: &mut Vec<u8>, at: usize, bytes: &[u8])
    ensures { target.new.items ≡ overwrite target.old.items at bytes.now }
{
    overwrite_at(target, at, bytes);
}
