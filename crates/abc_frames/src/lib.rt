//! The frames of a run: their operands, local scopes and locals in flat lists whose memory is taken once. A method that is
//! entered finds its arguments where its caller pushed them. Contracts see a list of records.
//!
//! What instructions do to the newest frame that only move values: between its operands, its locals and its scopes, and to
//! another place. Each says in its contract what becomes of the frame.
//!
//! A value that is thrown: the frames are left down to the newest that has a handler for it.
#![tactic(auto)]

mod calls;
mod frames;
mod moves;
mod pile;
mod records;
mod returns;
mod scopes;
mod throws;

pub use calls::{try_enter, try_enter_with, try_start};
pub use frames::Frames;
pub use moves::{
    branch, drop_and_go, dup, finish, get_local, go_on, jump, kill, pop, push, set_local, swap,
};
pub use pile::Pile;
pub use records::{Entry, Size, Wait};
pub use scopes::{get_scope_object, pop_scope, push_scope};
pub use throws::{Handlers, unwind};
