//! The entries of a file's pools, as tidying needs them: what names each, which are alike, what rules their names break, their new
//! numbers and the pools of those that stay. Each call that takes memory answers `NoMemory` where it runs out.
#![tactic(auto)]

mod checks;
mod cycles;
mod entries;
mod error;
mod heads;
mod marks;
mod numbering;
mod places;
mod pools;
mod roots;

pub use checks::check_indices;
pub use cycles::first_cyclic;
pub use entries::entries_of;
pub use error::{TidyError, TidyRule};
pub use heads::heads_of;
pub use marks::marks_of;
pub use numbering::numbers_of;
pub use pools::new_pools;
pub use roots::{Named, named_in};
