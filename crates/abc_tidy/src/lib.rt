//! Tidying a file: unused and doubled entries of its pools go, and the others stand in the order of first use.
//!
//! The free form of a file: its definitions and bodies with things in place of indices into pools.
//!
//! The laws of tidying: it keeps the free form of a file, and is told by it.
#![tactic(auto)]

mod free_laws;
mod tidy_laws;
mod tidying;

pub use abc_tidy_entries::{TidyError, TidyRule};
pub use free_laws::free_forms;
pub use tidy_laws::{tidied_once, tidying_by_free_forms, tidying_has_one_answer};
pub use tidying::{tidy, tidy_owned};
