//! Labels of keys and names of roles, and the roles of a module, each with its access control points, in cells 1 to 32.
//!
//! Labels and names of roles are texts of two forms, kept in place; a name stands in a place of a directory, as the roles of
//! the module and the labels of the store do.
#![tactic(auto)]

mod access_points;
mod bodies;
mod changes;
mod characters;
mod faults;
mod formed_texts;
mod forms;
mod laws;
mod names;
mod opening;
mod points;
mod roles;

pub use access_points::AccessPoints;
pub use characters::{is_digit, is_label_byte, is_letter};
pub use faults::RoleFault;
pub use formed_texts::{Form, FormedText};
pub use forms::{is_label, is_role_name};
pub use laws::a_module_stands_for_one_table_of_roles;
pub use names::{RoleForm, RoleName, default_role};
pub use opening::open_roles;
pub use roles::{MODULE_LEN, Role, Roles};
