//! Tests of what no clause and no row of data says: printed errors, the formulas that are built in, ranks of nodes, stored
//! closures and what is refused of them, streams that never fail, and adapters over the readers and writers of std. What a
//! command does is shown by rows.
//! It has no items of its own. The other crates have no tests, so that each is proved once.
#![tactic(auto)]

#[cfg(test)]
mod codes;
#[cfg(test)]
mod errors;
#[cfg(test)]
mod files;
#[cfg(test)]
mod formulas;
#[cfg(test)]
mod graphs;
#[cfg(test)]
mod host_tables;
#[cfg(test)]
mod names;
#[cfg(test)]
mod parts;
#[cfg(test)]
mod streams;
