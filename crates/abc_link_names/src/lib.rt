//! The names of a file: texts by numbers, namespaces, and what a name of a type, a base or an interface stands for.
//!
//! The value at which a slot starts: that of its trait, coerced to its type.
//!
//! The items of a file, when one breaks a rule of linking, and the first that does.
//!
//! What a linked file is: what has a layout and what stands under what, owners of methods, types of names, slots of
//! layouts, the interfaces of classes, and the order of kinds. The crates above compute what stands here.
#![tactic(auto)]

mod coerce;
mod error;
mod example_laws;
mod hosts;
mod items;
mod key;
mod keys;
mod meanings;
mod named;
mod names;
mod pairs;
mod part;
mod parts;
mod pool;
mod resolving;
mod rule;
mod start;
mod tables;
mod type_tests;
mod types;

pub use coerce::start_of;
pub use error::LinkError;
pub use example_laws::examples_hold;
pub use items::{Item, ItemKind, LinkRule};
pub use key::{PartKey, part_key};
pub use keys::{NameKey, are_equal, first_places};
pub use meanings::{Known, Meanings, known_at, meanings_of};
pub use named::{DefiniteName, Named, PlainName, Spaces};
pub use names::Names;
pub use pairs::{Clash, FEW, any_pair_of};
pub use part::{LayoutId, Part};
pub use parts::{
    body_traits, class_flags, class_name, class_traits, handlers, instance_table, instance_traits,
    interface_names, is_interface, own_table, parameters, return_type, script_traits, super_name,
};
pub use pool::{
    definite_name_at, is_plain_at, plain_name_at, qname_at, set_at, space_name, text_at,
};
pub use rule::{Rule, check};
pub use start::{Raw, Start};
pub use tables::NameTables;
pub use type_tests::{TypeTest, any_type};
pub use types::{Kind, Naming, Owner, SlotInfo, Ty};
