//! The operations of code: conversions, coercions to types, arithmetic, comparisons, and whether a value is of a type.
//! Texts are made in the arena; nothing takes memory.
#![tactic(auto)]

mod coercions;
mod compares;
mod conversions;
mod end;
mod laws;
mod made;
mod opcodes;
mod operations;
mod types;

pub use abc_heap_values::Conversion;
pub use abc_link::Linked;
pub use abc_link_names::Ty;
pub use abc_objects::Arena;
pub use coercions::coerce;
pub use compares::compare;
pub use conversions::convert;
pub use end::OpEnd;
pub use laws::{
    integers_are_modulo, modulo_has_the_sign, orders_are_opposed, shifts_use_five_bits,
    strict_equals_is_equivalence, undefined_is_unordered,
};
pub use opcodes::{Comparison, comparison_at};
pub use operations::{binary, unary};
pub use types::is_of;
