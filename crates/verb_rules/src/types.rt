//! The rules on the types of keys that are generated.
ghost use Rattle.verb_rules.specs.Rules.{Judges};
ghost use Rattle.verb_rules.specs.TypeChecks.{length_checks, pair_checks, size_checks};

use crate::rules::Rule;
use cca_vectors::{KeyType, Length, default_of, default_of_size, pairs};

/// Rule 24: whether keys of these types are generated together.
pub fn judge_pair(first: KeyType, second: KeyType) -> Result<(), Rule>
    ensures { Judges (pair_checks first second) result }
{
    if pairs(first, second) {
        Ok(())
    } else {
        Err(Rule::Pair)
    }
}

/// Rule 32: whether a generated key of this type may have this length.
pub fn judge_length(kind: KeyType, length: Length) -> Result<(), Rule>
    ensures { Judges (length_checks kind length) result }
{
    match default_of(kind, length) {
        Some(_) => Ok(()),
        None => Err(Rule::KeyLength),
    }
}

/// Rule 32: whether a key of this type may be brought in by parts of so many bytes.
pub fn judge_size(kind: KeyType, size: usize) -> Result<(), Rule>
    ensures { Judges (size_checks kind size) result }
{
    match default_of_size(kind, size) {
        Some(_) => Ok(()),
        None => Err(Rule::KeyLength),
    }
}
