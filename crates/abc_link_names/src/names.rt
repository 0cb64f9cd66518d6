ghost use Rattle.std.specs.Prelude.{◌≡◌, find};
ghost use Rattle.std.specs.List.{list_any};
ghost use Rattle.abc_base_graphs.specs.Index.{first};
ghost use Rattle.abc_link_names.specs.Pool.{is_public, same_space};
ghost use Rattle.abc_link_names.specs.Meaning.{class_name_of, holds_space, holds_public, is_class_named};
ghost use Rattle.abc_link_names.specs.Instances.{instance_at};
ghost use Rattle.abc_link_names.specs.Numbers.{AreNames, number_of_text};

use crate::named::{DefiniteName, PlainName, Spaces};
use crate::pool::{definite_name_at, set_at, shared_code, space_at, text_at};
use crate::tables::{NameTables, number_of};
use abc_base::Table;
use abc_file_types::Abc;

/// A file with the tables of its names.
#[derive(Clone, Copy)]
pub struct Names<'a> {
    pub abc: &'a Abc,
    pub tables: &'a NameTables,
    ghost sound: { AreNames abc.now tables.now },
}

impl<'a> Names<'a> {
    /// A file with its tables.
    pub fn new(abc: &'a Abc, tables: &'a NameTables) -> Names<'a>
        requires { AreNames abc.now tables.now }
        ensures { result.abc.now ≡ abc.now }
    {
        Names { abc, tables }
    }

    /// The number of the text of a string.
    pub fn number(&self, string: u32) -> u32
        ensures { result ≡ number_of_text self.now.tables.now.numbers string }
    {
        number_of(&self.tables.numbers, string)
    }

    /// Whether two namespaces of the pool are equal.
    pub fn is_same_space(&self, a: u32, b: u32) -> bool
        ensures { result ≡ same_space self.now.abc.now a b }
    {
        let x = space_at(self.abc, a);
        let y = space_at(self.abc, b);
        if shared_code(x.kind) == 0x05 {
            a == b
        } else {
            shared_code(x.kind) == shared_code(y.kind) && self.number(x.name) == self.number(y.name)
        }
    }

    /// Whether a namespace of the pool is public.
    #[inline(always)]
    pub fn is_public(&self, space: u32) -> bool
        ensures { result ≡ is_public self.now.abc.now space }
    {
        let space = space_at(self.abc, space);
        shared_code(space.kind) == 0x08 && text_at(self.abc, space.name).is_empty()
    }

    /// Whether one of several namespaces is equal to a namespace of the pool.
    fn is_among(&self, space: u32, spaces: &[u32]) -> bool
        ensures { result ≡ list_any (same_space self.now.abc.now space) spaces.now }
    {
        for one in spaces {
            if self.is_same_space(space, *one) {
                return true;
            }
        }
        false
    }

    /// Whether one of several namespaces is public.
    fn is_any_public(&self, spaces: &[u32]) -> bool
        ensures { result ≡ list_any (is_public self.now.abc.now) spaces.now }
    {
        for space in spaces {
            if self.is_public(*space) {
                return true;
            }
        }
        false
    }

    /// Whether one of the namespaces of a name is equal to a namespace of the pool.
    pub fn holds(&self, spaces: Spaces, space: u32) -> bool
        ensures { result ≡ holds_space self.now.abc.now spaces space }
    {
        match spaces {
            Spaces::Every => true,
            Spaces::One(one) => self.is_same_space(space, one),
            Spaces::Set(index) => self.is_among(space, set_at(self.abc, index)),
        }
    }

    /// Whether one of the namespaces of a name is public.
    #[inline(always)]
    pub fn holds_public(&self, spaces: Spaces) -> bool
        ensures { result ≡ holds_public self.now.abc.now spaces }
    {
        match spaces {
            Spaces::Every => true,
            Spaces::One(space) => self.is_public(space),
            Spaces::Set(index) => self.is_any_public(set_at(self.abc, index)),
        }
    }
}
