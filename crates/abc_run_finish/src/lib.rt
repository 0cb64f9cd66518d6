//! The state that a run begins with.
//!
//! What a step has to do with the world outside: the line of `trace` is written, and a formula of the host is asked.
//!
//! Where a step goes no further: a value is thrown and caught, or the run ends.
//!
//! What a step leaves to be done: what returns is given back, a line is written, a formula of the host asked, and a throw caught.
//! And the step that begins a run: the start of the last script.
//!
//! The beginning of a call: a method trait of the last script is entered with numbers, over no frame, on the heap that a run and
//! the calls before left. Its arguments are coerced, or options stand for them; then comes the array that some take, and last of all
//! the room of the frame.
#![tactic(auto)]

mod asking;
mod call_arguments;
mod calling;
mod dropping;
mod ended;
mod finishing;
mod halts;
mod handlers;
mod opening;
mod outward_arguments;
mod outward_halts;
mod returning;
mod starting;
mod stopping;
mod tracing;

pub use calling::begin_call;
pub use dropping::drop_frames;
pub use ended::Ended;
pub use finishing::finish;
pub use halts::Halt;
pub use opening::open_state;
pub use starting::start_last;
