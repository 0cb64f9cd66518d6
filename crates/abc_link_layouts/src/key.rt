ghost use Rattle.std.specs.Prelude.{◌≡◌, ◌<◌, ◌^◌, length, map, IfOk};
ghost use Rattle.abc_base_graphs.specs.Index.{first};
ghost use Rattle.indexmap.specs.IndexMap.{get};
ghost use Rattle.abc_link_names.specs.Places.{key_eq, part_key as key_of};
ghost use Rattle.abc_link_names.specs.declared.key.PartKey.{PartKey as AnyKey};

use abc_base::NoMemory;
use abc_base_graphs::index_of;
use abc_link_names::{Part, PartKey, part_key};
use indexmap::IndexMap;
use std::alloc::Global;

/// The keys of some parts.
fn keys_of(alloc: Global, parts: &[Part]) -> Result<Vec<PartKey>, NoMemory>
    ensures { IfOk result (λ keys. keys.items ≡ map key_of parts.now) }
{
    let mut keys = Vec::new(alloc);
    for part in parts {
        keys.push(part_key(*part))?;
    }
    Ok(keys)
}

fn first_places(alloc: Global, keys: &[PartKey]) -> Result<IndexMap<PartKey, u32>, NoMemory>
    requires { length keys.now < 2 ^ 32 }
    ensures { IfOk result (λ m. (k : AnyKey) → get key_eq m k ≡ first (key_eq k) keys.now) }
{
    index_of(alloc, keys)
}

/// The first place of each part, by its key.
#[tactic(auto, using(crate::proofs::Finding::at_keys))]
pub(crate) fn places_of(alloc: Global, parts: &[Part]) -> Result<IndexMap<PartKey, u32>, NoMemory>
    ensures { IfOk result (λ m. (k : AnyKey) → get key_eq m k ≡ first (key_eq k) (map key_of parts.now)) }
{
    if parts.len() > u32::MAX as usize {
        return Err(NoMemory);
    }
    let keys = keys_of(alloc, parts)?;
    first_places(alloc, keys.as_slice())
}
