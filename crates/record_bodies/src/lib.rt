//! Bodies of records: what the bytes of a record are, and the rows of the table of labels.
#![tactic(auto)]

mod actions;
mod bodies;
mod directory;
mod halving;
mod labels;
mod reading;
mod rows;

pub use actions::StoreAction;
pub use bodies::{
    BOTH, KEY, KEY_AND_VECTOR, NULL, are_same, are_second, has_no_second, is_blank, is_record,
    kept_token, label_in, no_second, pattern_in, second_in, second_token, token_in, write_blank,
    write_record,
};
pub use directory::{Directory, Place};
pub use labels::{Label, LabelForm};
pub use reading::{null_in, read_as};
pub use rows::{Row, Second, blank, free_in, label_of, turn_rows};
