//! A step of a run: the start of the last script, or the instruction of the newest frame and what it leaves to be done.
//!
//! A step of a run with the lines that it has in the log of the run, and the line of what nothing caught. Nothing here takes memory.
//!
//! The machine: it runs a verified file within stated fuel and limits, just as the meaning says, and then calls methods of its last
//! script on the heap that the run and the calls before left. A run writes its output, or its log. Neither a run nor a call takes
//! memory.
//!
//! What each step of a run asks of its state, a run of a verified file keeps: it is so of the state that the run begins with, and of
//! each that a step leaves. The values of options exist, and their numbers are low.
#![tactic(auto)]

mod calling;
mod ending;
mod ends;
mod left;
mod logged;
mod logging;
mod machine;
mod option_laws;
mod reached_laws;
mod replies;
mod running;
mod stepping;

pub use abc_base::{Fault, HostClass};
pub use abc_heap_store::{Limit, Limits};
pub use abc_meaning::Thrown;
pub use abc_objects::OpenError;
pub use ending::thrown_name;
pub use ends::End;
pub use logging::step_logged;
pub use machine::Machine;
pub use option_laws::options_are_there;
pub use reached_laws::{runs_begin_reached, some_runs_begin, steps_stay_reached};
pub use replies::{PlainValue, Reply};
pub use stepping::step;
