//! What an auditor asks of the coprocessor: laws over the machine of `cca_machine`. It is a crate of laws; no code of it
//! runs. `docs/SECURITY.md` tells each of them in plain English.
#![tactic(auto)]

mod ceremony;
mod drawing;
mod duties;
mod exports;
mod halves;
mod inside;
mod keeping;
mod labels;
mod leaving;
mod masters;
mod moving;
mod part_tokens;
mod parts;
mod passing;
mod points;
mod preparing;
mod repeating;
mod replies;
mod resting;
mod sealing;
mod taking;
mod unused;
mod usage;
mod writing;

pub use ceremony::a_master_key_from_its_parts;
pub use drawing::keys_are_drawn;
pub use duties::separate_duties;
pub use exports::points_for_exports_and_texts;
pub use halves::generated_halves_are_unique;
pub use inside::registers_stay_inside;
pub use keeping::no_key_is_lost;
pub use labels::labels_are_apart;
pub use leaving::keys_leave_sealed;
pub use masters::replies_and_master_keys;
pub use moving::a_store_is_moved;
pub use part_tokens::a_key_is_passed_on_in_parts;
pub use parts::a_key_from_its_parts;
pub use passing::passed_on_unchanged;
pub use points::no_point_no_effect;
pub use preparing::labels_are_current_at_once;
pub use repeating::the_same_in_the_same_out;
pub use replies::one_reply_is_one_line;
pub use resting::a_run_leaves_a_sealed_store;
pub use sealing::the_store_is_sealed;
pub use taking::random_bytes_are_used_once;
pub use unused::unused_tokens_say_nothing;
pub use usage::keys_are_used_as_permitted;
pub use writing::what_a_line_writes;
