//! The interpreter of rows: which rule a state breaks at an instruction, and what follows.
//!
//! The verifier: a linked file whose methods all have typings, or the first method that has none, with the place and the rule
//! that refute each of its typings.
//!
//! A file from its bytes to a verified one: read, linked and verified, or why it isn't.
#![tactic(auto)]

mod changes;
mod checked;
mod checking;
mod flowing;
mod kinds;
mod laws;
mod needs;
mod reading;
mod rules;
mod step;
mod tables;
mod verified_error;
mod verify_error;
mod visit;

pub use abc_bodies::Places;
pub use abc_link_names::{Item, ItemKind, LinkRule};
pub use abc_verify_typing::VerifyRule;
pub use checked::Verified;
pub use checking::verify;
pub use laws::one_linked_file;
pub use reading::{read_verified, verified_file};
pub use verified_error::VerifiedError;
pub use verify_error::VerifyError;
