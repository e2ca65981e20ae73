//! The rules of a key part that is combined with a further part.
ghost use Rattle.verb_rules.specs.PartChecks.{combining_checks};
ghost use Rattle.verb_rules.specs.Rules.{Judges};

use crate::judging::Judged;
use crate::rules::Rule;

/// Rules 32 and 35: whether a part of this length in bytes may be combined with the key, which is to have this length and
/// to be a part.
pub fn judge_part(key: &Judged, length: usize) -> Result<(), Rule>
    ensures { Judges (combining_checks key.now.token.vector length) result }
{
    if length != key.token.vector.length() {
        return Err(Rule::KeyLength);
    }
    if !key.token.vector.is_part() {
        return Err(Rule::WholeKey);
    }
    Ok(())
}
