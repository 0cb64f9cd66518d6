//! The instructions that make no object and find no name, by their opcodes: each does what the table of acts says.
#![tactic(auto)]

mod branching;
mod compute_steps;
mod locals;
mod moves;
mod moving;
mod numbered;
mod numbers;
mod others;
mod returning;

pub use branching::{run_first_branch, run_last_branch, run_switch};
pub use compute_steps::{run_comparison, run_convert, run_double, run_single};
pub use locals::run_local;
pub use moving::{run_control, run_push};
pub use numbered::{run_constant, run_count, run_typed};
pub use numbers::{number_on_top, numbers_on_top};
pub use others::{run_byte, run_debug, run_scope_object, run_short};
pub use returning::{run_return, run_return_fast};
