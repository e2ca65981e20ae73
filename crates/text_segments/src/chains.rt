//! The chain between two segments of a text, and its 16 bytes.
ghost use Rattle.std.specs.Prelude.{◌≡◌, ◌≤◌, ◌++◌, ◌∷◌, None, Some, true, IfSome, MatchOption, length, take};
ghost use Rattle.cca_vectors.specs.Checks.{first_failing};
ghost use Rattle.text_segments.specs.Chains.{chain_bytes, chain_checks, chain_of, first_chain, is_chain};

use key_cells::{ShortList, is_zero};

/// How many bytes a block has.
const BLOCK: usize = 8;

/// The greatest number of carried bytes.
const MOST: usize = 7;

/// Where the carried bytes stand in the 16 bytes of a chain, after their number.
const CARRIED: usize = 9;

/// What the next segment of a text goes on from: the caller keeps it between two segments. It is not protected: an
/// altered chain gives the results of the altered one.
#[derive(Clone, Copy, Debug, PartialEq, Eq)]
pub struct Chain {
    /// The last block of cipher text, or the initial value where there is none yet.
    pub block: [u8; 8],
    /// The bytes that are no whole block yet, at most 7.
    pub carried: ShortList<7>,
}

/// The first eight of 16 bytes.
fn front_block(bytes: &[u8; 16]) -> [u8; 8]
    ensures { result ≡ take 8 bytes.now }
{
    let mut block = [0; BLOCK];
    block.copy_from_slice(&bytes[..BLOCK]);
    block
}

/// Eight bytes, a number and seven bytes more.
fn spelled(block: &[u8; 8], count: u8, filled: &[u8; 7]) -> [u8; 16]
    ensures bytes { result ≡ block.now ++ count ∷ filled.now }
    ensures size { length block.now ≡ 8 }
{
    let mut bytes = [0; 16];
    bytes[..BLOCK].copy_from_slice(block);
    bytes[BLOCK] = count;
    bytes[CARRIED..].copy_from_slice(filled);
    bytes
}

impl Chain {
    /// The chain before the first segment: from an initial value, and from zeros for a code.
    pub fn first(start: [u8; 8]) -> Chain
        ensures { result ≡ first_chain start }
    {
        Chain {
            block: start,
            carried: ShortList::of(&[]),
        }
    }

    /// The chain that 16 bytes are: the chaining block, the number of carried bytes, and these, filled with zeros. None
    /// by rule 36: where the number is above 7, or a filling byte isn't zero.
    pub fn read(bytes: &[u8; 16]) -> Option<Chain>
        ensures judges { MatchOption result (first_failing (chain_checks bytes.now) ≡ Some 36)
            (λ chain. first_failing (chain_checks bytes.now) ≡ None) }
        ensures chain { IfSome result (λ chain. chain ≡ chain_of bytes.now) }
        ensures same { IfSome result (λ chain. chain_bytes chain ≡ bytes.now) }
        ensures few { IfSome result (λ chain. length chain.carried ≤ 7) }
    {
        let count = bytes[BLOCK] as usize;
        if count > MOST || !is_zero(&bytes[CARRIED + count..]) {
            return None;
        }
        Some(Chain {
            block: front_block(bytes),
            carried: ShortList::of(&bytes[CARRIED..CARRIED + count]),
        })
    }

    /// Its 16 bytes, from which [`Chain::read`] gives the same chain.
    pub fn bytes(&self) -> [u8; 16]
        ensures bytes { result ≡ chain_bytes self.now }
        ensures valid { is_chain result ≡ true }
        ensures again { chain_of result ≡ self.now }
    {
        spelled(&self.block, self.carried.length(), self.carried.filled())
    }
}
