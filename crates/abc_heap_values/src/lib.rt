//! Cells in one flat list that is reserved once. Each cell belongs to one of the lists of one object, and names the cell
//! below it there, so that a list may grow at any time and still be read by position in a time of its logarithm.
//!
//! What instructions compute of numbers: sums, products and quotients within the range of numbers, and whole numbers
//! modulo 2^32.
//!
//! What values are as numbers, truths and texts, and how they are computed with and compared: tables over the kinds of
//! value, in which the left operand comes before the right.
#![tactic(auto)]

mod cell;
mod chain;
mod equality;
mod kinds;
mod modular;
mod numbers;
pub mod operations;
mod order;
mod plain;
mod range;
mod reserved;
mod texts;
mod values;
mod whole;

pub use cell::{Cell, Held, Lane};
pub use chain::{Chain, append, cell_at, hold, place_of};
pub use equality::{equal, strictly_equal};
pub use kinds::{is_nothing, is_null, is_text, is_undefined};
pub use modular::{from_signed, from_unsigned, to_signed, to_unsigned};
pub use numbers::{
    Conversion, calculate_value, calculate_values, is_true, to_int, to_number, to_uint,
};
pub use operations::{calculate, calculate_single};
pub use order::{Order, are_ordered};
pub use reserved::Reserved;
pub use texts::Texts;
pub use values::{ObjId, Span, Value};
