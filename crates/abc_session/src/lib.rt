//! Sessions: a verified file is opened once, its last script is run, and its exported functions are called again and again on the heap
//! that the calls before left. Only to open one takes memory.
//!
//! A run of a verified file, and then calls of a function that it exports, as one run: each value is written on a line, and the first
//! other end ends all.
#![tactic(auto)]

mod exports;
mod replies;
mod session;
mod session_laws;
mod tick_laws;
mod ticks;

pub use abc_machine::{End, Machine, PlainValue, Reply, thrown_name};
pub use abc_meaning::Thrown;
pub use abc_objects::OpenError;
pub use replies::SessionReply;
pub use session::Session;
pub use session_laws::{calls_follow, lives_follow, sessions_stay_beside};
pub use tick_laws::ticks_can_be_told;
pub use ticks::run_and_call;
