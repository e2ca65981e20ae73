//! Short lists of bytes, kept in place.
ghost use Rattle.std.specs.Prelude.{◌≡◌, ◌≤◌, ◌<◌, ◌++◌, ◌-◌, length, replicate};

use crate::copying::put_front;
use std::marker::Model;

/// At most `N` bytes, kept in place and filled with zeros.
#[derive(Clone, Copy, Debug, PartialEq, Eq)]
pub struct ShortList<const N: usize> {
    count: u8,
    bytes: [u8; N],
}

// Clauses see the bytes alone.
impl<const N: usize> Model for ShortList<N> {
    ghost use Rattle.std.specs.Prelude.{ℕ, List, length, take};
    ghost use Rattle.std.proofs.Common.{sym};
    ghost use Rattle.key_cells.specs.ShortInside.{IsShort, filled_to};

    ghost Value = { List ℕ };

    ghost view = { λ s. take s.count s.bytes };

    ghost invariant = { λ s. IsShort N s.count s.bytes };

    ghost inverse = { λ list. record { count = length list; bytes = filled_to N list } };

    ghost inverse_ok = { λ s is i. record { count = is.long i; bytes = sym is.filled i } };
}

impl<const N: usize> ShortList<N> {
    /// These bytes.
    pub fn of(bytes: &[u8]) -> ShortList<N>
        requires few { length bytes.now ≤ N }
        requires counted { N < 256 }
        ensures { result ≡ bytes.now }
    {
        let mut room = [0; N];
        put_front(&mut room, bytes);
        ShortList {
            count: bytes.len() as u8,
            bytes: room,
        }
    }

    /// The bytes.
    pub fn bytes(&self) -> &[u8]
        ensures bytes { result.now ≡ self.now }
        ensures few { length self.now ≤ N }
    {
        &self.bytes[..self.count as usize]
    }

    /// The bytes, filled with zeros.
    pub fn filled(&self) -> &[u8; N]
        ensures { result.now ≡ self.now ++ replicate (N - length self.now) 0 }
    {
        &self.bytes
    }

    /// How many they are.
    pub fn length(&self) -> u8
        ensures length { result ≡ length self.now }
        ensures few { length self.now ≤ N }
    {
        self.count
    }
}
