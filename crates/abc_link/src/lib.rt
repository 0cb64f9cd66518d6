//! Tables of a linked file by which a search takes constant time and no memory: where the slot of a trait stands, the traits
//! of all scripts by the numbers of their texts, and whether a set has a namespace.
//!
//! Linking: a file that keeps the rules of linking becomes a program, with the owners of its methods, the layouts of its
//! objects and the types of its names.
#![tactic(auto)]

mod ladder;
mod linked;
mod linking;
mod scripts;
mod sets;
mod slots;
mod tables;

pub use abc_link_names::{
    Item, ItemKind, Kind, LayoutId, LinkError, LinkRule, Owner, Part, SlotInfo, Start, Ty,
};
pub use linked::Linked;
pub use linking::link;
