//! The operands of a line, and what a whole line says: a value, or the first reason why the line is refused. Each function
//! answers as the table of lines defines it.
//!
//! The lines whose operands depend on a kind or are any number: sets and multinames. Each function answers as the table of
//! lines defines it.
//!
//! The lines of instructions. Each function answers as the table of lines defines it.
//!
//! The lines of the version and of doubles, and the flags and the attributes of lines whatever their other operands are. Each
//! function answers as the table of lines defines it.
//!
//! The lines of traits. Each function answers as the table of lines defines it.
#![tactic(auto)]

mod counts;
mod doubles;
mod each;
mod error;
mod fronts;
mod handlers;
mod instructions;
mod kinds;
mod lines;
mod marks;
mod multinames;
mod numbers;
mod pools;
mod signed;
mod slots;
mod together;
mod traits;
mod version;

pub use counts::{five_tokens, one_token, three_tokens, two_tokens};
pub use doubles::double_line;
pub use each::{Element, Entries, Indices, read_each, set_line};
pub use error::LineError;
pub use fronts::{first_and_rest, told};
pub use handlers::{catch_line, target};
pub use instructions::{Targets, instruction_line};
pub use kinds::{multiname_kind, space_kind, trait_kind, value_kind};
pub use lines::{
    BodyHead, InstanceHead, MethodHead, body_line, entry_line, implements_line, instance_line,
    method_index_line, method_line, number_line, param_line, protected_line, string_index_line,
    trait_metadata_line,
};
pub use marks::{attrs_of, flags_of};
pub use multinames::{first_of, name_line};
pub use numbers::{byte, entry_upto, index_below, index_upto, number_below, numeral, u30};
pub use pools::{int_line, namespace_line, option_line, string_line, uint_line};
pub use signed::signed_within;
pub use together::{earlier, two};
pub use traits::{TraitHead, trait_line};
pub use version::version_line;
