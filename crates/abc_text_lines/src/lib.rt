//! What an assembly text is made of: the words of its lines, their tokens, and the reasons why it is refused. What the
//! tokens of a line are is defined in specs/ and decided by the laws.
//!
//! How assembly texts are defined and proved: a part of a text is one value that says which lines a value has, and how
//! lines are read; the ways to make a part from parts have one law each. The definitions are in specs/, the laws in
//! proofs/.
//!
//! The lines of an assembly text and of a file's value: one table of lines that the assembler and the disassembler share.
//! What runs is the ranks and names of reasons, and the laws.
#![tactic(auto)]

mod line_laws;
mod reason;
mod text_laws;
mod word;

pub use line_laws::{long_code_is_of_lines, rows_are_of_lines, text_has_one_answer};
pub use reason::AsmReason;
pub use text_laws::{line_has_one_reading, written_line_is_read};
pub use word::Word;
