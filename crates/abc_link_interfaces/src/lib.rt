//! The interfaces of classes: those of a class's own list, of its bases and of the interfaces' interfaces.
#![tactic(auto)]

mod gathered;
mod graph;
mod interfaces;
mod set;
mod sets;
mod visits;

pub use interfaces::Interfaces;
pub use sets::{MOST_GONE_OVER, MOST_INTERFACES};
