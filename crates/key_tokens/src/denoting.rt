//! What a key token stands for.
ghost use Rattle.std.specs.Prelude.{ℕ, List};
ghost use Rattle.key_cells.specs.Bytes.{AreBytes};
ghost use Rattle.key_tokens.specs.Denotes.{HaveDistinctPatterns, DenotesOne, MasterKeys};

/// The 64 bytes of a token stand for at most one clear key with its control vector: an internal token under the
/// master key that has its pattern, an external one under a given transport key. What a token stands for is what
/// the definitions compute: none where it breaks a rule, or where it is internal and neither master key has its
/// pattern.
pub fn tokens_denote_one_key()
    ensures { (masters : MasterKeys) (transport bytes : List ℕ) → AreBytes 64 bytes
        → HaveDistinctPatterns masters → DenotesOne masters transport bytes }
{}
