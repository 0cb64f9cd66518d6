//! What those names of a pool stand for that would cost much to look up one by one: names with long sets of namespaces, and
//! names of texts that many classes have. Such names are gone over together, set by set or text by text.
#![tactic(auto)]

mod by_set;
mod by_text;
mod costly;
mod finder;
mod known;
mod spots;

pub use known::known_of;
