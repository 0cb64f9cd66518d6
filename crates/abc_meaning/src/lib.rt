//! What the parts of a step of the machine do, as definitions: room, objects that are made, operations, methods that are
//! entered, calls and returns. The crates above say which opcode does what, and what a run means.
//!
//! What each opcode makes of the values that it takes, as definitions: one act beside each row of the table of
//! instructions.
//!
//! The meaning of a run, as definitions: one step of the machine, throws, returns and script starts, the state that a run
//! begins with, what it writes and how it ends; and which states are sound.
//!
//! What a run writes only grows: each step goes on from what was written before. And a step starts one script at most, where it
//! writes nothing.
//!
//! What the step log of a run is, to the byte. It has no code but the laws.
#![tactic(auto)]

mod act_laws;
mod example_laws;
mod log_laws;
mod output_laws;
mod throw_laws;
mod thrown;
mod type_laws;

pub use act_laws::every_row_has_its_act;
pub use example_laws::examples_hold;
pub use log_laws::{a_run_has_few_steps, too_small_is_one_line};
pub use output_laws::{runs_append, steps_append, steps_change_once};
pub use throw_laws::throws_stay_sound;
pub use thrown::Thrown;
pub use type_laws::{coercion_is_computed, type_test_decides};
