ghost use Rattle.std.specs.Prelude.{◌≡◌, ◌++◌, ◌-◌, ◌<◌, ◌^◌, is_some, length, map, IfOk, OnOk};
ghost use Rattle.std.specs.List.{list_any};
ghost use Rattle.abc_base_graphs.specs.Index.{first};
ghost use Rattle.abc_link_names.specs.Pool.{is_public, same_space, set as set_of};
ghost use Rattle.abc_link.specs.SetKeys.{HasSetKeys, are_public, set_key as key_of, set_keys, set_keys_eq};
ghost use Rattle.abc_link.specs.declared.sets.SetKey.{SetKey as SetKeyOf};
ghost use Rattle.indexmap.specs.IndexMap.{get};

use abc_base::{NoMemory, Table};
use abc_base_graphs::index_of;
use abc_link_names::{DefiniteName, NameKey, Names, Spaces};
use indexmap::IndexMap;
use std::alloc::Global;

/// A namespace of a set.
#[derive(Clone, Copy, Debug, PartialEq, Eq, Hash)]
pub(crate) struct SetKey {
    pub set: u32,
    pub space: NameKey,
}

/// The sets of a file: the namespaces of each, and whether the public one is among them.
#[derive(Drop)]
pub struct SetSpaces {
    pub(crate) places: IndexMap<SetKey, u32>,
    pub(crate) publics: Table<bool>,
}

/// The key of a namespace in a set.
fn set_key(names: &Names<'_>, set: u32, space: u32) -> SetKey
    ensures { result ≡ key_of names.now.abc.now names.now.tables.now.numbers set space }
{
    let name = DefiniteName {
        ns: space,
        string: 0,
    };
    SetKey {
        set,
        space: names.key(name),
    }
}

/// The first place of each key.
fn first_places(alloc: Global, keys: &[SetKey]) -> Result<IndexMap<SetKey, u32>, NoMemory>
    requires { length keys.now < 2 ^ 32 }
    ensures { IfOk result (λ m. (k : SetKeyOf) → get set_keys_eq m k ≡ first (set_keys_eq k) keys.now) }
{
    index_of(alloc, keys)
}

/// Whether a key is found.
fn has_key(places: &IndexMap<SetKey, u32>, key: SetKey) -> bool
    ensures { result ≡ is_some (get set_keys_eq places.now key) }
{
    places.contains_key(&key)
}

/// Adds the namespaces of a set.
fn push_set(
    names: &Names<'_>,
    set: u32,
    spaces: &[u32],
    keys: &mut Vec<SetKey>,
) -> Result<(), NoMemory>
    ensures { OnOk result (keys.new.items
        ≡ keys.old.items ++ map (key_of names.now.abc.now names.now.tables.now.numbers set) spaces.now) }
{
    for space in spaces {
        keys.push(set_key(names, set, *space))?;
    }
    Ok(())
}

/// The namespaces of all sets.
fn keys_of_sets(alloc: Global, names: &Names<'_>) -> Result<Vec<SetKey>, NoMemory>
    requires { length names.now.abc.now.sets < 2 ^ 32 - 1 }
    ensures { IfOk result (λ keys. keys.items ≡ set_keys names.now.abc.now names.now.tables.now.numbers) }
{
    let mut keys = Vec::new(alloc);
    for (i, set) in names.abc.sets.as_slice().iter().enumerate() {
        push_set(names, i as u32 + 1, set.as_slice(), &mut keys)?;
    }
    Ok(keys)
}

/// Whether each set has the public namespace.
fn publics_of(alloc: Global, names: &Names<'_>) -> Result<Table<bool>, NoMemory>
    requires { length names.now.abc.now.sets < 2 ^ 32 - 1 }
    ensures { IfOk result (λ t. t ≡ are_public names.now.abc.now) }
{
    let mut publics = Table::new(alloc);
    for i in 0..names.abc.sets.len() as u32 {
        publics.push(names.holds_public(Spaces::Set(i + 1)))?;
    }
    Ok(publics)
}

impl SetSpaces {
    /// The sets of a file. Of 2^32 sets or more, or of as many namespaces in sets, there is never room for all.
    pub fn new(alloc: Global, names: &Names<'_>) -> Result<SetSpaces, NoMemory>
        ensures { IfOk result (λ s. HasSetKeys names.now.abc.now names.now.tables.now.numbers s) }
    {
        if names.abc.sets.len() >= u32::MAX as usize {
            return Err(NoMemory);
        }
        let keys = keys_of_sets(alloc, names)?;
        if keys.len() > u32::MAX as usize {
            return Err(NoMemory);
        }
        let places = first_places(alloc, keys.as_slice())?;
        let publics = publics_of(alloc, names)?;
        Ok(SetSpaces { places, publics })
    }

    /// Whether a set has a namespace that is equal to one of the pool.
    pub fn holds(&self, names: &Names<'_>, set: u32, space: u32) -> bool
        requires { HasSetKeys names.now.abc.now names.now.tables.now.numbers self.now }
        ensures { result ≡ list_any (same_space names.now.abc.now space) (set_of names.now.abc.now set) }
    {
        names.keys_tell_names();
        has_key(&self.places, set_key(names, set, space))
    }

    /// Whether a set has the public namespace.
    pub fn holds_public(&self, names: &Names<'_>, set: u32) -> bool
        requires { HasSetKeys names.now.abc.now names.now.tables.now.numbers self.now }
        ensures { result ≡ list_any (is_public names.now.abc.now) (set_of names.now.abc.now set) }
    {
        let _names = names.abc;
        if set == 0 {
            return false;
        }
        match self.publics.fetch(set as usize - 1) {
            Some(public) => public,
            None => false,
        }
    }
}
