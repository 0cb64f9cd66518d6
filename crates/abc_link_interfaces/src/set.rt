ghost use Rattle.std.specs.Prelude.{◌≡◌, nat_eq, IfOk};
ghost use Rattle.std.specs.List.{list_any};

use abc_base::{NoMemory, Table};
use abc_base_graphs::index_of;
use indexmap::IndexMap;
use std::alloc::Global;
use std::marker::Model;

/// A set of numbers, which contracts see as the list of them.
#[derive(Drop)]
pub(crate) struct NumberSet {
    numbers: Table<u32>,
    /// The first place of each number.
    places: IndexMap<u32, u32>,
}

impl Model for NumberSet {
    ghost use Rattle.std.specs.Prelude.{ℕ, List, nat_eq};
    ghost use Rattle.abc_base_graphs.specs.Index.{FindsPlace};

    ghost Value = { List ℕ };

    ghost view = { λ s. s.numbers };

    ghost invariant = { λ s. FindsPlace nat_eq s.places s.numbers };
}

impl NumberSet {
    /// The set of some numbers. Of 2^32 numbers or more there is never room for the places.
    pub(crate) fn new(alloc: Global, numbers: &[u32]) -> Result<NumberSet, NoMemory>
        ensures { IfOk result (λ s. s ≡ numbers.now) }
    {
        if numbers.len() > u32::MAX as usize {
            return Err(NoMemory);
        }
        let places = index_of(alloc, numbers)?;
        let numbers = Table::from_slice(alloc, numbers)?;
        Ok(NumberSet { numbers, places })
    }

    /// The numbers.
    pub(crate) fn as_slice(&self) -> &[u32]
        ensures { result.now ≡ self.now }
    {
        self.numbers.as_slice()
    }

    /// Whether a number is in the set.
    #[tactic(auto, using(crate::proofs::Finding::found_any))]
    pub(crate) fn has(&self, number: u32) -> bool
        ensures { result ≡ list_any (nat_eq number) self.now }
    {
        self.places.contains_key(&number)
    }
}
