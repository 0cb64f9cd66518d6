//! The base of a class, what a name finds above it, and what it finds among the scopes of a frame.
//!
//! What is done to values by names: what was found is read, written or called, and the instructions that do it.
//!
//! Searches in scopes that push what they find, and classes that are made.
//!
//! What the instructions do to values by names: a property is got, set or called, at once where nothing has to be searched for, and
//! an object is made.
//!
//! What a name finds in scopes and is read; super operations; makers of bases that are run.
#![tactic(auto)]

mod bases;
mod bases_above;
mod classes;
mod elements;
mod fast_paths;
mod found;
mod lexical;
mod makers;
mod naming;
mod properties;
mod scope_arms;
mod scopes_above;
mod searching;
mod super_arms;
mod values;
mod writing;

pub use classes::new_class;
pub use elements::{get_element_fast, set_element_fast};
pub use fast_paths::{get_property_fast, set_property_fast};
pub use lexical::get_lexical;
pub use makers::construct_super;
pub use properties::{call_property, call_value, construct, construct_property};
pub use scope_arms::{find_or_global, find_strictly};
pub use searching::{get_property, set_property};
pub use super_arms::{call_super, get_super, set_super};
