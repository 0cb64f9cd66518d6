//! The constant pools, read from a source through a window and put as their shortest bytes: numbers, texts,
//! namespaces, sets of namespaces and multinames.
#![tactic(auto)]

mod doubles;
mod laws;
mod multinames;
mod pass;
mod pools;
mod spaces;

pub use laws::pools_law;
pub use multinames::{put_multiname, read_multiname};
pub use pass::pass_pools;
pub use pools::{put_pools, read_pools, shortest_spelling};
