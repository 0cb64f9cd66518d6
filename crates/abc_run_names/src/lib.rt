//! Walking over an object's properties, or an array's elements, by their positions.
//!
//! Names of instructions, slots by numbers, types at run time, `in`, and walking: instructions that enter no method.
#![tactic(auto)]

mod deleting;
mod late;
mod positions;
mod receivers;
mod runtime_names;
mod slots;
mod walked_names;
mod walking;

pub use deleting::{delete_property, is_dynamic};
pub use late::{as_late, has_name, is_instance_of, is_late};
pub use receivers::{is_holder, receiver};
pub use runtime_names::{late_text, name_of, parts_of, whole_name};
pub use slots::{get_slot, set_slot, write_slot};
pub use walking::{next_name, next_value, walk_on, walk_one};
