//! What an auditor asks of roles, and of master keys that are retired: laws over the machine of `cca_machine`. It is a crate of
//! laws; no code of it runs. `docs/SECURITY.md` tells each of them in plain English.
#![tactic(auto)]

mod defining;
mod retiring;

pub use defining::roles_are_as_defined;
pub use retiring::a_retired_master_key_is_of_no_use;
