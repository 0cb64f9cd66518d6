//! The whole file: read from any source, refused at its first fault, and written in its canonical bytes.
#![tactic(auto)]

mod canon;
mod laws;
mod reading;
mod rest;
mod writing;

pub use abc_bodies::Places;
pub use canon::canonical;
pub use laws::{canonical_form, one_reading, reading_gives_the_file, reading_is_exact, widening};
pub use reading::{read, read_alone, read_version};
pub use rest::read_nothing_more;
pub use writing::write;
