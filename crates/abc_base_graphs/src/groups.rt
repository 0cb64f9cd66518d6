ghost use Rattle.std.specs.Prelude.{◌≡◌, ◌<◌, ◌^◌, length, IfOk, OnOk};
ghost use Rattle.abc_base_graphs.specs.Groups.{Groups, AddsPlace};

use abc_base::{NoMemory, Table};
use indexmap::IndexMap;
use std::alloc::Global;

/// Adds a place to the group of a key.
fn add_place(
    alloc: Global,
    groups: &mut IndexMap<u32, Table<u32>>,
    key: u32,
    place: u32,
) -> Result<(), NoMemory>
    ensures { OnOk result (AddsPlace groups.old groups.new key place) }
{
    match groups.get_mut(&key) {
        Some(group) => group.push(place)?,
        None => {
            groups.insert(key, Table::from_slice(alloc, &[place])?)?;
        }
    }
    Ok(())
}

/// The places of each key, in order.
pub fn groups_of(alloc: Global, keys: &[u32]) -> Result<IndexMap<u32, Table<u32>>, NoMemory>
    requires { length keys.now < 2 ^ 32 }
    ensures { IfOk result (λ m. Groups m keys.now) }
{
    let mut groups = IndexMap::with_capacity(alloc, keys.len())?;
    for (i, key) in keys.iter().enumerate() {
        add_place(alloc, &mut groups, *key, i as u32)?;
    }
    Ok(groups)
}
