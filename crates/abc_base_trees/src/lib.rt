//! Trees of the nodes of a graph whose nodes have heads: an order in which a node stands behind those that it leads to,
//! classes of nodes with equal trees, and the order in which trees are met.
//!
//! Ranges of places that hang in a tree: the ranges that cover a place hang at the few nodes above it, so that they are found
//! without a look at the others.
#![tactic(auto)]

mod bounds;
mod building;
mod classes;
mod hang;
mod heads;
mod keys;
mod marks;
mod order;
mod rows;
mod stabs;
mod visit;

pub use building::stabs_of;
pub use classes::{Classes, classes_of};
pub use hang::{Hang, Range};
pub use heads::Head;
pub use order::parts_first;
pub use rows::Rows;
pub use stabs::Stabs;
pub use visit::visit_order;
