//! The arena of a run over a linked file: objects with their slots, properties and elements, captured scopes, and texts.
//! What an arena names is there, and each object is what its layout says; each call keeps that.
//!
//! The lines that a run writes.
//!
//! What a name finds: the types of a name and of what it finds, and the searches as definitions. The crates above compute
//! what stands here.
#![tactic(auto)]

mod arena;
mod counts;
mod error;
mod fixed;
mod found;
mod hosts;
mod laws;
mod lines;
mod name;
mod opening;
mod starts;
mod texts;
mod traits;

pub use abc_heap_store::{Full, Limit, Limits, ScopeEntry, ScopeId, ScopeNode, What};
pub use abc_heap_values::{ObjId, Span, Value};
pub use arena::Arena;
pub use error::OpenError;
pub use fixed::FixedText;
pub use found::{Found, ScopeFound, Skip, Want};
pub use laws::{
    answer_is_the_first, derived_trait_hides, found_is_there, found_method_is_there,
    found_slot_is_there, no_object_matters, place_is_the_first, properties_are_public,
};
pub use lines::write_line;
pub use name::{Name, Spaces};
pub use starts::{span_of_string, string_length};
pub use traits::{Declared, Member, TraitSpace};
