ghost use Rattle.std.specs.Prelude.{◌≡◌, ◌<◌, ◌++◌, ◌^◌, [], length, nat_eq, IfOk};
ghost use Rattle.abc_base_graphs.specs.Index.{FindsPlace, first};
ghost use Rattle.abc_base_graphs.specs.Listed.{empty_list, both_lists as joined_of};

use crate::index::index_of;
use abc_base::{NoMemory, Table};
use indexmap::IndexMap;
use std::alloc::Global;
use std::marker::Model;

/// Values, each under a key. Several may have one key.
#[derive(Drop)]
pub(crate) struct Keyed<T> {
    values: Table<T>,
    keys: Table<u32>,
    /// The first place of each key.
    places: IndexMap<u32, u32>,
}

impl<T> Model for Keyed<T> {
    ghost use Rattle.std.specs.Prelude.{nat_eq, length, ◌≡◌};
    ghost use Rattle.abc_base_graphs.specs.Index.{FindsPlace};
    ghost use Rattle.abc_base_graphs.specs.Listed.{Listed};

    ghost Value = { Listed T };

    ghost view = { λ k. record { values = k.values; keys = k.keys } };

    ghost invariant = { λ k. FindsPlace nat_eq k.places k.keys };
}

/// Two lists, one after the other.
fn concat<T: Copy + Drop>(alloc: Global, a: &[T], b: &[T]) -> Result<Table<T>, NoMemory>
    ensures { IfOk result (λ t. t ≡ a.now ++ b.now) }
{
    let mut list = Table::from_slice(alloc, a)?;
    list.extend_from_slice(b)?;
    Ok(list)
}

/// The first place of each key. Of 2^32 keys or more there is never room for the places.
fn places_of(alloc: Global, keys: &[u32]) -> Result<IndexMap<u32, u32>, NoMemory>
    ensures { IfOk result (λ m. FindsPlace nat_eq m keys.now) }
{
    if keys.len() > u32::MAX as usize {
        return Err(NoMemory);
    }
    index_of(alloc, keys)
}

impl<T: Copy + Drop> Keyed<T> {
    /// No values.
    pub fn empty(alloc: Global) -> Result<Keyed<T>, NoMemory>
        ensures { IfOk result (λ k. k ≡ empty_list) }
    {
        Keyed::of(alloc, Table::new(alloc), Table::new(alloc))
    }

    fn of(alloc: Global, values: Table<T>, keys: Table<u32>) -> Result<Keyed<T>, NoMemory>
        ensures { IfOk result (λ k. (k.values ≡ values) × (k.keys ≡ keys)) }
    {
        let places = places_of(alloc, keys.as_slice())?;
        Ok(Keyed {
            values,
            keys,
            places,
        })
    }

    /// These values, and then others under their keys.
    pub fn joined(&self, alloc: Global, values: &[T], keys: &[u32]) -> Result<Keyed<T>, NoMemory>
        ensures { IfOk result
            (λ k. k ≡ joined_of self.now (record { values = values.now; keys = keys.now })) }
    {
        let all_values = concat(alloc, self.values.as_slice(), values)?;
        let all_keys = concat(alloc, self.keys.as_slice(), keys)?;
        Keyed::of(alloc, all_values, all_keys)
    }

    /// All values, in order.
    pub fn values(&self) -> &Table<T>
        ensures { result.now ≡ self.now.values }
    {
        &self.values
    }

    /// The first place whose key is the given one.
    pub fn place(&self, key: u32) -> Option<u32>
        ensures { result ≡ first (nat_eq key) self.now.keys }
    {
        self.places.get(&key).copied()
    }
}
