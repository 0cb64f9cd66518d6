//! The parts of an assembly text whose lines have others below them.
//!
//! The assembler: a text is the text of a file, or its first fault is told.
#![tactic(auto)]

mod assembling;
mod bodies;
mod classes;
mod coming;
mod counted;
mod entries;
mod methods;
mod scripts;
mod traits;

pub use abc_file_types::Abc;
pub use abc_text_lines::AsmReason;
pub use abc_text_reader::AsmError;
pub use assembling::assemble;
pub use bodies::read_bodies;
pub use classes::{Classes, Instances};
pub use methods::{MetadataLines, Methods};
pub use scripts::{Initializers, Scripts};
pub use traits::Traits;
