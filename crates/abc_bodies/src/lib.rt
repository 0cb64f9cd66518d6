//! Method bodies: their code, exceptions and traits, read from a source through a window and appended to bytes. Which
//! bytes spell them, and what refuses them, stands in abc_file_types.
#![tactic(auto)]

mod body;
mod handlers;
mod laws;
mod pass;
mod places;
mod put;
mod read;

pub use abc_instr::Reading;
pub use body::read_body;
pub use laws::bodies_law;
pub use pass::pass_bodies;
pub use places::{Keeping, NoPlaces, Places};
pub use put::put_bodies;
pub use read::{flags_down, read_bodies, read_bodies_keeping};
