//! What is answered of the end of a run, and of a machine that isn't opened: the status and the line.
//!
//! The commands that run a file, and write what it writes: `run`, `calls` and `gen`.
//!
//! The commands of logs: `log` writes the log of a run, and `replay` tells whether an input is one.
//!
//! The laws of outcomes: words, formulas and an input have one. Nothing runs of them.
//!
//! The top call: what the program does with the words of a command line and an input; and the generator of `gen`.
#![tactic(auto)]

mod asm;
mod calls_command;
mod canon;
mod check;
mod dis;
mod endings;
mod gen_command;
mod laws;
mod log_command;
mod logged_run;
mod machines;
mod replay_command;
mod run_command;
mod tidy;
mod top;

pub use abc_cli_answers::make_abc;
pub use laws::{one_outcome, some_outcome};
pub use top::abc_main;
