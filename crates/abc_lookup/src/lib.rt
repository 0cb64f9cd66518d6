//! What the parts of a name say: the number of its text among the strings of the file, the element that the text names, and which
//! namespaces it holds.
//!
//! What a name finds: among the declared traits of a layout, on a value, and in scopes. No search takes memory.
#![tactic(auto)]

mod at_once;
mod declared_search;
mod elements;
mod name_spaces;
mod numbers;
mod on;
mod own;
mod place;
mod plain;
mod query;
mod scopes;
mod search;
mod tables;

pub use abc_objects::{
    Declared, Found, Member, Name, ScopeFound, Skip, Spaces, TraitSpace, Want, answer_is_the_first,
    derived_trait_hides, found_is_there, found_method_is_there, found_slot_is_there,
    no_object_matters, place_is_the_first, properties_are_public,
};
pub use at_once::first_method;
pub use elements::{ElementName, element_named, element_number};
pub use name_spaces::{holds, holds_pooled, holds_public, is_protected, protected_of};
pub use numbers::{number_of, whole_number};
pub use plain::{find_first, is_plain};
pub use search::{find_declared, find_in_scopes, find_on};
