//! The lines of a step log, written to any sink. No line takes memory.
//!
//! What a step of a run writes, as a line of its log.
//!
//! The two lines of a log that are read: the one before the file, with the length of that, and the one behind it, with the fuel and
//! the limits of the run. No call takes memory.
//!
//! Which script a step of a run started.
//!
//! A front of a source as a source, and bytes that are compared with those of a source while they are written.
//!
//! The parts of a log that are read: the bytes of its file, which are held in memory, and, behind the line of limits, what is compared
//! with the log of a run.
#![tactic(auto)]

mod check;
mod compare;
mod ends;
mod errors;
mod head;
mod head_bytes;
mod heads;
mod history;
mod lenient;
mod lent;
mod limits;
mod line_bytes;
mod log_part;
mod numbers;
mod out_line;
mod seen;
mod shown;
mod steps;
mod stored_part;

pub use check::{LogFault, check_verdict};
pub use compare::{Compare, Verdict};
pub use ends::{
    limit_name, write_limit_end, write_profile_end, write_uncaught_end, write_word_end,
};
pub use errors::{HeadError, LimitsError};
pub use head::read_head;
pub use heads::{write_head_line, write_limits_line};
pub use history::History;
pub use lenient::Lenient;
pub use lent::Log;
pub use limits::{LimitsLine, read_limits};
pub use line_bytes::hex;
pub use log_part::{PartError, read_part};
pub use out_line::OutLine;
pub use seen::Seen;
pub use shown::Shown;
pub use steps::{write_start_line, write_step_line};
pub use stored_part::Part;
