//! A host whose formulas are closures that an embedder hands in.
#![tactic(auto)]

mod bounds;
mod entry;
mod host;
mod laws;
mod names;
mod table;

pub use entry::Entry;
pub use laws::{adding_in_turn, means_builtin_host};
pub use table::{AddError, HostTable};
