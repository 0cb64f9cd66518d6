//! The layouts of a file by their numbers: what has one, and what stands under what.
//!
//! Whose method each method is, and which body it has.
//!
//! The types of names and the slots of layouts.
//!
//! The own traits of layouts, found by the texts of their names.
#![tactic(auto)]

mod forest;
mod key;
mod layouts;
mod members;
mod namings;
mod numbering;
mod numbers;
mod owners;
mod parts;
mod slots;
mod types;

pub use layouts::Layouts;
pub use members::Members;
pub use numbering::number_parts;
pub use numbers::{number_at, string_number};
pub use owners::Owners;
pub use parts::traits_of;
pub use slots::slots_of;
pub use types::type_in;
