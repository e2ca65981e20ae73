//! Key records: labels in the 1,024 cells of a store, each with nothing or with a key token.
#![tactic(auto)]

mod changes;
mod faults;
mod judging;
mod laws;
mod opening;
mod parsing;
mod reading;
mod records;

pub use faults::RecordFault;
pub use judging::is_taken;
pub use laws::{
    a_state_has_one_store, a_store_stands_for_one_state, each_index_has_a_label, labels_after_set,
    labels_that_are_ahead, labels_under_the_old_master_key, labels_while_none_is_ahead,
};
pub use opening::open_records;
pub use record_bodies::{Label, LabelForm, Place, Row, Second};
pub use records::{Records, STORE_LEN};
