ghost use Rattle.std.specs.Prelude.{◌≡◌, ◌<◌, ◌^◌, length, IfOk};
ghost use Rattle.abc_base_graphs.specs.Index.{first};
ghost use Rattle.abc_link_names.specs.declared.keys.NameKey.{NameKey as NameKeyOf};
ghost use Rattle.abc_link_names.specs.declared.named.DefiniteName.{DefiniteName as DefiniteNameOf};
ghost use Rattle.indexmap.specs.IndexMap.{get};
ghost use Rattle.abc_link_names.specs.Keys.{keys_eq, name_key, same_name};

use crate::named::DefiniteName;
use crate::names::Names;
use crate::pool::{shared_code, space_at};
use abc_base::NoMemory;
use abc_base_graphs::index_of;
use indexmap::IndexMap;
use std::alloc::Global;

/// A text by its number, in a namespace. Equal names have equal keys, and unequal names unequal ones.
#[derive(Clone, Copy, Debug, PartialEq, Eq, Hash)]
pub struct NameKey {
    /// The number of the text.
    pub text: u32,
    /// The code of the namespace's kind, where 16 counts as 08.
    pub code: u32,
    /// The number of the namespace's name; 0 for a Private one.
    pub name: u32,
    /// The index of a Private namespace, else 0.
    pub place: u32,
}

/// Whether two keys are equal.
pub fn are_equal(a: NameKey, b: NameKey) -> bool
    ensures { result ≡ keys_eq a b }
{
    a == b
}

/// The first place of each key.
pub fn first_places(alloc: Global, keys: &[NameKey]) -> Result<IndexMap<NameKey, u32>, NoMemory>
    requires { length keys.now < 2 ^ 32 }
    ensures { IfOk result (λ m. (k : NameKeyOf) → get keys_eq m k ≡ first (keys_eq k) keys.now) }
{
    index_of(alloc, keys)
}

impl Names<'_> {
    /// The key of a name.
    pub fn key(&self, name: DefiniteName) -> NameKey
        ensures { result ≡ name_key self.now.abc.now self.now.tables.now.numbers name }
    {
        let space = space_at(self.abc, name.ns);
        let text = self.number(name.string);
        if shared_code(space.kind) == 0x05 {
            NameKey {
                text,
                code: 0x05,
                name: 0,
                place: name.ns,
            }
        } else {
            NameKey {
                text,
                code: shared_code(space.kind) as u32,
                name: self.number(space.name),
                place: 0,
            }
        }
    }

    /// Two names have equal keys exactly where their texts and their namespaces are equal.
    pub fn keys_tell_names(&self)
        ensures { (a b : DefiniteNameOf)
            → keys_eq (name_key self.now.abc.now self.now.tables.now.numbers a)
            (name_key self.now.abc.now self.now.tables.now.numbers b)
            ≡ same_name self.now.abc.now a b }
    {
        let _tables = &self.tables;
    }
}
