//! The work list of a verifier as code, over anything that says what the instructions of a method do to states. States are
//! kept at heads alone: the first place, the targets of branches, switches and handlers, and the ends of handlers' ranges.
//! From a head a walk goes over straight-line code with one running state, up to the next head.
#![tactic(auto)]

mod below;
mod blocks;
mod copies;
mod edits;
mod flow;
mod handled;
mod kept;
mod locals;
mod merging;
mod notes;
mod place_numbers;
mod span;
mod states;
mod step;
mod telling;
mod waiting;
mod walk;

pub use flow::Flow;
pub use handled::Cover;
pub use states::MOST_VALUES;
pub use step::{Merged, Onward, Refusal, Step, Trial, Written};
pub use walk::{Memory, check_flow};
