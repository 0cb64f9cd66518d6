//! The rules of linking: whether a file breaks one, and then the first item that breaks the first.
#![tactic(auto)]

mod bases;
mod checking;
mod cycles;
mod graphs;
mod methods;
mod name_kind;
mod owners;
mod same_name;
mod same_slot;
mod simple;
mod times;

pub use checking::{are_few, check_rules};
