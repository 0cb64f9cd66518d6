//! The heap of a run, in flat lists whose memory is taken once: objects with their slots, properties and elements,
//! captured scopes, and the texts made. Contracts see records.
#![tactic(auto)]

mod buckets;
mod empties;
mod heads;
mod laws;
mod records;
mod scopes;
mod search;
mod starts;
mod store;
mod stored;
mod strings;
mod texts;

pub use laws::walk_meets_each_position;
pub use records::{Full, Limit, Limits, ScopeEntry, ScopeId, ScopeNode, What};
pub use starts::Starts;
pub use store::{ClassParts, Store};
