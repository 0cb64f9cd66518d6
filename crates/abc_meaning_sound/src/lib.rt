//! What sound states keep: a part of a step leaves a sound world that grew. Objects, arrays, functions and properties that
//! are made and changed; methods that are entered; scripts that are started.
//!
//! Where the acts of the instructions are sound, so is a step: its tests hold, what is taken is of the kinds that its row
//! needs, and what an act comes to is a sound state again.
//!
//! Sound acts: those that jump, those that move values alone, and operations; and calls and members of values, on which the
//! others stand.
//!
//! Sound acts on objects, names, functions and classes; and so no step is stuck, from what is given of the file, the
//! operations and the searches.
//!
//! Operations leave a sound world, and what they answer is there.
//!
//! What a verified file gives: its methods have bodies, owners and types, its instructions their operands, its slots values to
//! start with, and its activations and catch objects layouts.
//!
//! The promise of verifying: a run of a verified file begins in a sound state, every step leaves one, and so no run is ever
//! stuck.
//!
//! What a sound state gives to the code that does its next step: what the newest frame names is there, an instruction of which no
//! test fails stands at its place, limits and methods stay, and what comes is there.
//!
//! What a call of a file's exported function means, on the heap that a run and the calls before left: definitions, and the promise
//! that no call of a verified file is ever stuck.
//!
//! Where a fault that ends a run or a call is told: at an instruction of a body.
#![tactic(auto)]

mod call_laws;
mod example_laws;
mod fault_laws;
mod file_laws;
mod frame_laws;
mod object_laws;
mod operation_laws;
mod plain_laws;
mod premise;
mod progress_laws;
mod run_laws;
mod step_laws;

pub use call_laws::{
    calls_append, calls_are_fair, calls_begin_sound, calls_give_there, calls_leave_sound,
    names_alone_matter, runs_leave_sound,
};
pub use example_laws::examples_hold;
pub use fault_laws::{calls_can_be_told, ends_can_be_told};
pub use file_laws::{files_give, scopes_have_layouts};
pub use frame_laws::frames_stay_sound;
pub use object_laws::{acts_stay_sound, runs_never_stick};
pub use operation_laws::operations_stay_sound;
pub use plain_laws::plain_acts_hold;
pub use premise::{first_by_names, sound_frames_run, verified_have_typings};
pub use progress_laws::{acts_are_fair, news_are_fair, starts_are_fair, waiting_frames_are_there};
pub use run_laws::{
    bases_have_makers, runs_begin_sound, searches_find_what_is_there, some_files_are_verified,
    steps_stay_sound, verified_files_never_stick,
};
pub use step_laws::steps_by_sound_acts;
