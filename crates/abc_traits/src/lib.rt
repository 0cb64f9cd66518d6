//! Methods, metadata, instances, classes, scripts and their traits, read from a source through a window and appended to
//! bytes. Which bytes spell them, and what refuses them, stands in abc_file_types.
#![tactic(auto)]

mod classes;
mod definitions;
mod laws;
mod lists;
mod methods;
mod options;
mod pass;
mod traits;

pub use definitions::{Definitions, put_definitions, read_definitions};
pub use laws::{definition_parts_law, definitions_law};
pub use pass::pass_definitions;
pub use traits::TraitCodec;
