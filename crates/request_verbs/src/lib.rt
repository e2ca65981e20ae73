//! What each verb decides over what its operands stand for, but for those over a text.
//!
//! [`decide`] calls the function of the verb, and answers the [`Effect`](cca_machine::Effect) that is still to be carried out.
//! No verb sees a disk.
#![tactic(auto)]

mod deciding;
mod verbs;

pub use deciding::decide;
