//! The places of a method that begin a walk.
//!
//! The parts of a verifier's step: what a name asks, which rules look at what, and the kinds that instructions make.
//!
//! A method with its body, as the code of a verifier sees it: what a call fills, where it stands, its sizes, its code and
//! its handlers.
//!
//! Two states of one place together: whether one is at most the other, and the least state above both.
#![tactic(auto)]

mod below;
mod catches;
mod entry;
mod filled;
mod frame;
mod heads;
mod joining;
mod kinds;
mod lookup;
mod names;
mod places;
mod shape;

pub use entry::entry_of;
pub use frame::{Frame, frame_of};
pub use heads::heads_of;
pub use joining::merge;
pub use kinds::{
    is_instance_kind, is_namespace_kind, is_number_kind, is_object_kind, kind_has_slot,
    kind_of_scope, kind_of_slot, kind_of_sum, nullable_kind,
};
pub use lookup::{fixed_kind, is_function_method, type_or_any};
pub use names::{Parts, has_good_form, parts_of_name};
pub use places::{has_good_locals, layout_of_super, pops_well, pushes_well};
