//! The words of the command line: a command, and the options that it has, each with its number.
//!
//! What the program answers: the statuses, the lines that are written where a status is not 0, and how the bytes of a command or such a
//! line are given. No machine stands below it.
//!
//! The file that `gen` makes, checks and runs: a script that calls functions of drawn operations one after the other.
#![tactic(auto)]

mod codes;
mod command;
mod draws;
mod ends;
mod given;
mod laws;
mod lines;
mod making;
mod measures;
mod numbered;
mod option_word;
mod placing;
mod read;
mod stop;

pub use command::{CallsOptions, Command, GenOptions, RunOptions, Usage};
pub use ends::{ended, give, give_bytes, give_line, give_no_command, give_stop};
pub use laws::words_are_one_of_three;
pub use lines::{write_code, write_limit, write_place, write_uncaught, write_usage};
pub use making::make_abc;
pub use measures::{Made, Notes, make};
pub use numbered::numbered_line;
pub use read::parse;
pub use stop::Stop;
