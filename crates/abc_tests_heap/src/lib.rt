//! Tests of the calls over an arena, as tables: its room, properties and elements, and the operations. Its items are what such
//! tests begin with: a file that is linked, an arena over it, and the tests that calls of these ask for.
//!
//! Tests of what names find in an arena, as tables. It has no items of its own.
#![tactic(auto)]

#[cfg(test)]
mod arenas;
pub mod opened;
#[cfg(test)]
mod operating;
#[cfg(test)]
mod searches;
