//! Tests of devices and of what stands on them: the adapters over files and streams, the bytes of
//! registers and roles, and the records of a trail. And patterns of master keys, replies and lines of a listing that the
//! definitions compute. It is a crate of tests.
#![tactic(auto)]

ghost use Rattle.device_rows.specs.ListedLines.{LinesListed};
ghost use Rattle.device_rows.specs.SpelledReplies.{RepliesSpelled};
ghost use Rattle.device_rows.specs.WorkedPatterns.{PatternsStand};

#[cfg(test)]
mod entries;
#[cfg(test)]
mod files;
#[cfg(test)]
mod lines;
#[cfg(test)]
mod modules;
#[cfg(test)]
mod streams;
#[cfg(test)]
mod trails;

/// How replies are spelled: the definitions compute it.
pub fn spelled_replies()
    ensures { RepliesSpelled }
{}

/// The verification patterns of three master keys, as another program's SHA-1 gives them: the definitions compute them.
pub fn worked_patterns()
    ensures { PatternsStand }
{}

/// How records are listed: the definitions compute it.
pub fn listed_lines()
    ensures { LinesListed }
{}
