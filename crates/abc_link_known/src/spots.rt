ghost use Rattle.std.specs.Prelude.{◌≡◌, length, map, unwrap_or, IfOk};
ghost use Rattle.abc_base_graphs.specs.Index.{first};
ghost use Rattle.abc_link_names.specs.Keys.{keys_eq};
ghost use Rattle.abc_link_names.specs.Pool.{definite_name, name as name_of};
ghost use Rattle.abc_link_names.specs.declared.keys.NameKey.{NameKey as NameKeyOf};
ghost use Rattle.abc_link_known.specs.Spots.{AreSpots, HasSpots, key_of_class as class_key, key_of_space as space_key, keys_of_classes as class_keys, spot_of_class, spot_of_space};
ghost use Rattle.indexmap.specs.IndexMap.{get};

use abc_base::{NoMemory, Table};
use abc_link_names::{DefiniteName, NameKey, Names, definite_name_at, first_places};
use indexmap::IndexMap;
use std::alloc::Global;

/// The spots of namespaces. The spot of one that the name of a class has is the first class whose name has an equal one; others
/// have none.
#[derive(Drop)]
pub(crate) struct Spots {
    /// The first class of each key.
    pub found: IndexMap<NameKey, u32>,
    /// The spot of the namespace of each class.
    pub classes: Table<u32>,
    /// The spot of each namespace of the pool, from index 0 on.
    pub spaces: Table<Option<u32>>,
}

/// The key of a namespace.
fn key_of_space(names: &Names<'_>, space: u32) -> NameKey
    ensures { result ≡ space_key names.now.abc.now names.now.tables.now.numbers space }
{
    names.key(DefiniteName {
        ns: space,
        string: 0,
    })
}

/// The key of the namespace of a class's name; without a namespace, one that no namespace has.
fn key_of_class(names: &Names<'_>, name: u32) -> NameKey
    ensures { result
        ≡ class_key names.now.abc.now names.now.tables.now.numbers
        (definite_name (name_of names.now.abc.now name)) }
{
    match definite_name_at(names.abc, name) {
        Some(definite) => key_of_space(names, definite.ns),
        None => NameKey {
            text: 0,
            code: 0,
            name: 0,
            place: 0,
        },
    }
}

/// The keys of the namespaces of all classes.
fn keys_of_classes(alloc: Global, names: &Names<'_>) -> Result<Vec<NameKey>, NoMemory>
    ensures { IfOk result (λ keys. keys.items ≡ class_keys names.now.abc.now names.now.tables.now.numbers) }
{
    let mut keys = Vec::new(alloc);
    for instance in names.abc.instances.as_slice() {
        keys.push(key_of_class(names, instance.name))?;
    }
    Ok(keys)
}

/// The first place of each key. Of 2^32 keys or more there is never room for all.
fn found_in(alloc: Global, keys: &[NameKey]) -> Result<IndexMap<NameKey, u32>, NoMemory>
    ensures { IfOk result (λ m. (k : NameKeyOf) → get keys_eq m k ≡ first (keys_eq k) keys.now) }
{
    if keys.len() > u32::MAX as usize {
        return Err(NoMemory);
    }
    first_places(alloc, keys)
}

/// What is found under a key.
fn spot_of(found: &IndexMap<NameKey, u32>, key: NameKey) -> Option<u32>
    ensures { result ≡ get keys_eq found.now key }
{
    found.get(&key).copied()
}

/// What is found under a key, or 0.
fn spot_or_first(found: &IndexMap<NameKey, u32>, key: NameKey) -> u32
    ensures { result ≡ unwrap_or (get keys_eq found.now key) 0 }
{
    spot_of(found, key).unwrap_or(0)
}

/// What is found under each of some keys, or 0.
fn spots_of_keys(
    alloc: Global,
    found: &IndexMap<NameKey, u32>,
    keys: &[NameKey],
) -> Result<Table<u32>, NoMemory>
    ensures { IfOk result (λ t. t ≡ map (λ k. unwrap_or (get keys_eq found.now k) 0) keys.now) }
{
    let mut spots = Table::new(alloc);
    for key in keys {
        spots.push(spot_or_first(found, *key))?;
    }
    Ok(spots)
}

/// What is found under the key of a namespace.
fn spot_of_key(names: &Names<'_>, found: &IndexMap<NameKey, u32>, space: u32) -> Option<u32>
    ensures { result
        ≡ get keys_eq found.now (space_key names.now.abc.now names.now.tables.now.numbers space) }
{
    spot_of(found, key_of_space(names, space))
}

/// What is found under the keys of the first namespaces.
#[tactic(auto, using(crate::proofs::Spotted::no_spots, crate::proofs::Spotted::next_spot))]
fn spots_of_spaces(
    alloc: Global,
    names: &Names<'_>,
    found: &IndexMap<NameKey, u32>,
    count: u32,
) -> Result<Table<Option<u32>>, NoMemory>
    ensures { IfOk result (λ t. HasSpots names.now.abc.now names.now.tables.now.numbers found.now t count) }
{
    let mut spots = Table::new(alloc);
    for space in 0..count {
        spots.push(spot_of_key(names, found, space))?;
    }
    Ok(spots)
}

impl Spots {
    /// The spots of the namespaces of a file. Of 2^32 classes or namespaces or more there is never room for all.
    pub fn new(alloc: Global, names: &Names<'_>) -> Result<Spots, NoMemory>
        ensures { IfOk result (λ s. AreSpots names.now.abc.now names.now.tables.now.numbers s) }
    {
        if names.abc.namespaces.len() >= u32::MAX as usize {
            return Err(NoMemory);
        }
        let keys = keys_of_classes(alloc, names)?;
        let found = found_in(alloc, keys.as_slice())?;
        let classes = spots_of_keys(alloc, &found, keys.as_slice())?;
        let count = names.abc.namespaces.len() as u32 + 1;
        let spaces = spots_of_spaces(alloc, names, &found, count)?;
        Ok(Spots {
            found,
            classes,
            spaces,
        })
    }

    /// The spot of a namespace, if the name of a class has an equal one.
    pub fn of_space(&self, names: &Names<'_>, space: u32) -> Option<u32>
        requires { AreSpots names.now.abc.now names.now.tables.now.numbers self.now }
        ensures { result ≡ spot_of_space names.now.abc.now names.now.tables.now.numbers space }
    {
        match self.spaces.fetch(space as usize) {
            Some(spot) => spot,
            None => spot_of_key(names, &self.found, space),
        }
    }

    /// The spot of the namespace of a class.
    pub fn of_class(&self, names: &Names<'_>, class: u32) -> u32
        requires { AreSpots names.now.abc.now names.now.tables.now.numbers self.now }
        ensures { result ≡ spot_of_class names.now.abc.now names.now.tables.now.numbers class }
    {
        let _names = names.abc;
        match self.classes.fetch(class as usize) {
            Some(spot) => spot,
            None => 0,
        }
    }
}
