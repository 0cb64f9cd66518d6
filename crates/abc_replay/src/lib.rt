//! What stands before the log of an input, and why an input is no log of a run.
//!
//! A log of a run, checked against the run of its file. There is no second engine: the one machine runs the file, and what it logs is
//! compared with the input while that is read.
#![tactic(auto)]

mod answer;
mod error;
mod laws;
mod reading;
mod run;

pub use abc_log::{Compare, Part, Verdict};
pub use answer::replay;
pub use error::{ReplayError, ReplayReason};
pub use laws::one_replay;
pub use reading::read_file;
