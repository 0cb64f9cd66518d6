//! The reader of the assembler: the lines of a text, one after the other, and the lines of one word that come.
//!
//! The lines of an assembly text that have no lines below them, and the code of a body.
#![tactic(auto)]

mod bodied;
mod code;
mod error;
mod gathering;
mod lower;
mod noting;
mod pools;
mod reader;
mod tables;

pub use code::read_code;
pub use error::{AsmError, refused};
pub use gathering::Gathering;
pub use lower::{
    Entries, Handlers, Implements, Options, ParamNames, Params, Protected, TraitMetadata,
};
pub use pools::{Doubles, Ints, Names, Namespaces, Sets, Strings, UInts};
pub use reader::{Reader, Taken};
pub use tables::{Flat, Headed, made, read_all, read_flat, read_item, valued};
