//! Reads files of rows: each row says how the program is to end on some words and an input.
#![tactic(auto)]

mod bytes;
mod fault;
mod number;
mod row;
mod rows;

pub use bytes::Definition;
pub use fault::Fault;
pub use row::{Row, Step};
pub use rows::{begins_block, rows_of};
