//! Graphs with numbered nodes: what a node leads to, the first node that returns to itself, the nodes of a forest in an
//! order, and the way from a place along links.
//!
//! Where keys stand in a list, by hash maps: the first place of each, all places of each, and texts by their numbers.
//!
//! Lists of values under keys, of which each has first what its base has, and then its own: the slots of layouts with
//! their numbers.
//!
//! A list of optional numbers that is wiped at once.
#![tactic(auto)]

mod by_text;
mod cycles;
mod groups;
mod heirs;
mod index;
mod keyed;
mod order;
mod ranks;
mod search;
mod slate;
mod stack;
mod texts;
mod ways;

pub use by_text::places_by_text;
pub use cycles::first_return;
pub use groups::groups_of;
pub use heirs::{Heirs, MOST_INHERITED};
pub use index::index_of;
pub use order::{Order, order_of};
pub use ranks::ranks_of;
pub use search::reached;
pub use slate::Slate;
pub use stack::Stack;
pub use texts::Texts;
pub use ways::one_way;
