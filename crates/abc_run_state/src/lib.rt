//! What the code of an instruction works on, what it answers, and the words in which its contract says that this is what the
//! meaning of the instruction comes to. Nothing here reaches outside the machine: what is to be written, or asked of the host,
//! is answered to the step.
//!
//! Objects that are made, and their properties, as parts of a step; the instructions that make them and enter no method; and
//! the types that class objects are of.
//!
//! Instructions that compute: constants, conversions, operations, comparisons, types, branches, and locals that count.
#![tactic(auto)]

mod arms;
mod branches;
mod class_types;
mod compute_arms;
mod constants;
mod making;
mod of_type;
mod operands;
mod pairs;
mod parts;
mod prototypes;
mod settling;
mod state;
mod telling;
mod type_arms;

pub use arms::{new_activation, new_array, new_catch, new_function};
pub use branches::{branch_if, branch_not, branch_so, branch_unless, switch};
pub use class_types::{class_type, host_type, is_interface};
pub use compute_arms::{compare_top, compute_both, compute_top, convert_top, count_local};
pub use constants::{int_value, string_at, uint_value};
pub use making::{make_array, make_class, make_object, make_of_host, make_undefined, put_property};
pub use of_type::is_of_named;
pub use operands::{local, operand};
pub use pairs::new_object;
pub use parts::{coerce, convert, spell};
pub use prototypes::{prototype_for, prototype_of};
pub use settling::settle;
pub use state::{How, Left, Place, State, Stop};
pub use telling::{goes, leaves};
pub use type_arms::{as_type, coerce_to, is_it, is_type, value_or_null};
