//! Where clear key bytes lie while they are worked on, how they end as zeros, and lists of bytes.
//!
//! [`Secret`] guards an array of key bytes that its owner lends; [`Workbench`] holds every clear key and
//! text of a request; and [`Lease`] is the one way to its places. Each is zeroed by its drop.
//! What the compiler, a register or another crate may have copied isn't spoken of.
//!
//! Lists of bytes are combined, tested and copied here, and a [`ShortList`] is kept in place: it guards
//! nothing, and isn't zeroed by its drop.
#![tactic(auto)]

mod arrays;
mod benches;
mod combining;
mod copying;
mod leases;
mod places;
mod schedules;
mod secrets;
mod short_lists;
mod testing;

pub use benches::Workbench;
pub use combining::xor;
pub use copying::{put_front, put_secret};
pub use leases::Lease;
pub use places::{KeyPlace, MasterPlace};
pub use schedules::Schedule;
pub use secrets::Secret;
pub use short_lists::ShortList;
pub use testing::is_zero;
