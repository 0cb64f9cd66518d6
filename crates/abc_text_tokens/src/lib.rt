//! The tokens and the lines of a text, as a walk over its bytes finds them. Nothing is copied: tokens and lines borrow
//! from the text.
//!
//! What lines ask of those that follow: the labels of a body, how many lines of a kind there are below another, and how many
//! each table has. Each is one walk over the lines, ahead of reading them.
#![tactic(auto)]

mod ahead;
mod bytes;
mod counting;
mod entries;
mod heads;
mod kinds;
mod labels;
mod line;
mod names;
mod next;
mod noting;
mod places;
mod quoted;
mod searching;
mod sizes;
mod token;
mod vocabulary;

pub use ahead::{line_after, look_ahead, meet};
pub use bytes::{is_hex, is_run_byte};
pub use counting::count_lines;
pub use kinds::find_kind;
pub use labels::labels_of;
pub use line::{Line, head_word, next_line, split_line};
pub use names::{is_digit, is_name, name_before_colon};
pub use next::put_tokens;
pub use noting::note;
pub use places::place_of;
pub use quoted::{hex_pair, unquoted};
pub use sizes::{TableSizes, sizes_of};
pub use token::Token;
pub use vocabulary::Vocabulary;
