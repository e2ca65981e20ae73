//! Tests of what stands in a store and of what is done to all of it: records by their bytes, with one token and with two, and
//! runs under a new master key and ahead of one; and a few labels that the definitions compute. It is a crate of tests.
#![tactic(auto)]

ghost use Rattle.record_rows.specs.WorkedLabels.{LabelsStand};

#[cfg(test)]
mod bodies;
#[cfg(test)]
mod changed_stores;
#[cfg(test)]
mod changing;
#[cfg(test)]
mod masters;
#[cfg(test)]
mod records;
#[cfg(test)]
mod runs;
#[cfg(test)]
mod second_tokens;
#[cfg(test)]
mod stores;

/// Which texts are labels, and in which order labels stand: the definitions compute it.
pub fn worked_labels()
    ensures { LabelsStand }
{}
