//! The indices of a file that name entries of its pools: all of them in file order, the entries as nodes, and the file
//! with new numbers in their place.
#![tactic(auto)]

mod bodies;
mod definitions;
mod files;
mod indexed;
mod nodes;
mod noting;
mod refs;
mod traits;

pub use bodies::instr_ref;
pub use files::{note_file, refs_of, renumber};
pub use indexed::{Indexed, renumber_all};
pub use nodes::{Counts, Numbers};
pub use noting::Noting;
pub use refs::{Ref, operand_pool};
