//! A file as its one text: `disassemble` appends the listing of a file, whose definition is in abc_text_lines. `put_front` and
//! `put_body` append the parts of it, for a file whose bodies are not held all at once.
//!
//! The one text of a file from its bytes: `listing_of` lists each body before the next is read, so that the code of one
//! body is held and not that of all.
//!
//! What bytes spell has its fields in the ranges that the lines of a text ask for, and the bodies of a text's file are such
//! as bytes spell: a law. The definitions are in abc_text_lines and abc_file_types.
//!
//! The listing of a file is a text of exactly that file, and a file that needs nothing of the wider format has the text that
//! it had: two laws. The definitions are in abc_text_lines and abc_file_types.
#![tactic(auto)]

mod classes;
mod file;
mod heads;
mod instrs;
mod listed;
mod listed_bodies;
mod listing;
mod marks;
mod methods;
mod pools;
mod put_bodies;
mod range_laws;
mod roundtrip_laws;
mod traits;

pub use file::listing_of;
pub use listing::{disassemble, put_front};
pub use put_bodies::put_body;
pub use range_laws::texts_have_ready_bodies;
pub use roundtrip_laws::{listing_is_read_back, texts_widened};
