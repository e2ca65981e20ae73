//! Tables that are read by some bits of a word at a time.
ghost use Rattle.std.specs.Prelude.{ℕ, ◌≡◌, ◌%◌, ◌<◌, [], length, slice_index, slice_index_or};
ghost use Rattle.des_blocks.specs.Bits.{xor};
ghost use Rattle.des_blocks.specs.Gathering.{column, gathered};

/// The exclusive or of what the pieces of a word, BITS bits each and the lowest first, have in their rows.
/// A piece counts modulo ENTRIES. It costs a read of a table, a shift and two operations more for each row.
#[inline]
pub(crate) fn gathered<const ENTRIES: usize, const BITS: u32>(
    word: u64,
    rows: &[[u64; ENTRIES]],
) -> u64
    requires entries { 0 < ENTRIES }
    requires bits { BITS < 64 }
    ensures { result ≡ gathered ENTRIES BITS rows.now word }
{
    let mut rest = word;
    let mut out: u64 = 0;
    for row in rows {
        out ^= row[(rest % ENTRIES as u64) as usize];
        rest >>= BITS;
    }
    out
}

/// XORs words into as many others.
#[inline]
fn join(words: &mut [u64; 16], others: &[u64; 16])
    ensures joined { words.new ≡ xor words.old others.now }
    ensures size { length others.now ≡ 16 }
{
    for at in 0..16 {
        words[at] ^= others[at];
    }
}

/// XORs into words those that a row has for the lowest four bits of a word.
#[inline]
fn join_entry(words: &mut [u64; 16], row: &[[u64; 16]; 16], word: u64)
    ensures joined { words.new ≡ xor words.old (slice_index_or row.now (word % 16) []) }
    ensures entries { length row.now ≡ 16 }
    ensures size { length (slice_index_or row.now (word % 16) []) ≡ 16 }
{
    join(words, &row[(word % 16) as usize]);
}

/// The same of tables whose entries have sixteen words each, by four bits of a word at a time.
#[inline]
pub(crate) fn gathered_each(word: u64, rows: &[[[u64; 16]; 16]; 16]) -> [u64; 16]
    ensures { (at : ℕ) → at < 16 → slice_index result at ≡ gathered 16 4 (column at rows.now) word }
{
    let mut rest = word;
    let mut out = [0; 16];
    for row in rows {
        join_entry(&mut out, row, rest);
        rest >>= 4;
    }
    out
}
