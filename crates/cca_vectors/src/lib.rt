//! Control vectors of DES keys: what a key may be used for, whether it may be exported, how long it is, and whether it
//! is a part.
#![tactic(auto)]

mod closing;
mod control_vector;
mod default_vector;
mod key_class;
mod key_length;
mod key_part;
mod key_type;
mod key_usage;

pub use closing::closing_changes_the_export_bit;
pub use control_vector::{Vector, VectorFault, a_vector_can_be_closed, vector_of};
pub use default_vector::{default_of, default_of_size, default_vectors_are_valid};
pub use key_class::Class;
pub use key_length::Length;
pub use key_part::a_part_and_its_key;
pub use key_type::{KeyType, pairs};
pub use key_usage::Usage;
