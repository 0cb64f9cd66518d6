ghost use Rattle.std.specs.Prelude.{◌≡◌, ◌<◌, ◌^◌, length, IfOk};
ghost use Rattle.abc_base_graphs.specs.Index.{FindsPlace};

use abc_base::NoMemory;
use indexmap::IndexMap;
use std::alloc::Global;
use std::hash::Hash;

/// The first place of each key.
pub fn index_of<K: Eq + Hash + Copy>(
    alloc: Global,
    keys: &[K],
) -> Result<IndexMap<K, u32>, NoMemory>
    requires { length keys.now < 2 ^ 32 }
    ensures { IfOk result (λ m. FindsPlace K.eq m keys.now) }
{
    let mut map = IndexMap::with_capacity(alloc, keys.len())?;
    for i in (0..keys.len()).rev() {
        map.insert(keys[i], i as u32)?;
    }
    Ok(map)
}
