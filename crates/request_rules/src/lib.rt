//! What a request must meet before its verb decides: the rules of the request as a whole, and those of its operands.
//!
//! [`general_rule`] names the first rule of the request as a whole that fails, by [`role_rule`], which a move asks too.
//! [`operands_of`] is the table of operands, and [`judge`] names the first rule that one of them breaks, or gives what they
//! stand for.
#![tactic(auto)]

mod general;
mod judging;
mod needed;
mod operands;
mod role;
mod stored;

pub use general::general_rule;
pub use judging::{Verdict, judge};
pub use operands::{Operand, Operands, operands_of};
pub use role::role_rule;
pub use stored::stop_of;
