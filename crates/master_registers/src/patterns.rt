//! Verification patterns of master keys.
ghost use Rattle.std.specs.Prelude.{◌≡◌, ◌↔◌, Some, IsTrue};
ghost use Rattle.key_cells.specs.Bench.{master_of};
ghost use Rattle.key_cells.specs.Lease.{bench_of};
ghost use Rattle.master_registers.specs.Loaded.{has_pattern};
ghost use Rattle.master_registers.specs.Masters.{pattern_of_master};

use key_cells::{Lease, MasterPlace};
use sha1::Sha1;

/// The verification pattern of a master key: the first 8 bytes of SHA-1 over X'01' and its 24 bytes.
#[derive(Clone, Copy, Debug, PartialEq, Eq)]
pub struct Pattern {
    pub bytes: [u8; 8],
}

/// Whether a register is full and has this pattern.
pub fn has_pattern(register: Option<Pattern>, pattern: &Pattern) -> bool
    ensures tells { result ≡ has_pattern register pattern.now.bytes }
    ensures held { IsTrue result ↔ (register ≡ Some pattern.now) }
{
    register == Some(*pattern)
}

/// The pattern of the 24 bytes in a place.
pub fn pattern_of(lease: &Lease, place: MasterPlace) -> Pattern
    ensures { result.bytes ≡ pattern_of_master (master_of (bench_of lease.now) place) }
{
    let mut hasher = Sha1::new();
    hasher.update(&[1]);
    hasher.update(lease.master(place));
    let digest = hasher.finalize();
    Pattern {
        bytes: *digest.first_chunk::<8>().unwrap(),
    }
}
