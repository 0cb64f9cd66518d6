ghost use Rattle.std.specs.Prelude.{◌≡◌};
ghost use Rattle.abc_file_types.specs.Pools.{empty};

use crate::classes::{ClassInfo, Instance, Script};
use crate::code::Body;
use crate::methods::{Metadata, Method};
use crate::names::{Multiname, Namespace};
use abc_base::{Bytes, Table};
use std::alloc::Global;

/// The eight bytes of a double, as they stand in the file.
#[derive(Clone, Copy, Debug, PartialEq, Eq)]
pub struct Eight(pub [u8; 8]);

/// A whole file as a value (Overview, chapter 4, "abcFile"). Entry 0 of the tables from `ints` to `names` is not
/// stored: their first value is entry 1. The other tables count from 0.
#[derive(Debug, Drop)]
pub struct Abc {
    pub ints: Table<i32>,
    pub uints: Table<u32>,
    pub doubles: Table<Eight>,
    pub strings: Table<Bytes>,
    pub namespaces: Table<Namespace>,
    /// Sets of namespaces, each counted from 1, never 0.
    pub sets: Table<Table<u32>>,
    pub names: Table<Multiname>,
    pub methods: Table<Method>,
    pub metadata: Table<Metadata>,
    /// As many as there are classes.
    pub instances: Table<Instance>,
    pub classes: Table<ClassInfo>,
    pub scripts: Table<Script>,
    pub bodies: Table<Body>,
}

impl Abc {
    /// A file whose tables are empty.
    pub fn new(alloc: Global) -> Abc
        ensures { result ≡ empty }
    {
        Abc {
            ints: Table::new(alloc),
            uints: Table::new(alloc),
            doubles: Table::new(alloc),
            strings: Table::new(alloc),
            namespaces: Table::new(alloc),
            sets: Table::new(alloc),
            names: Table::new(alloc),
            methods: Table::new(alloc),
            metadata: Table::new(alloc),
            instances: Table::new(alloc),
            classes: Table::new(alloc),
            scripts: Table::new(alloc),
            bodies: Table::new(alloc),
        }
    }
}

/// How many entries the tables have that indices name. Entry 0, which is not stored, is not counted.
#[derive(Clone, Copy, Debug, PartialEq, Eq)]
pub struct Sizes {
    pub ints: u32,
    pub uints: u32,
    pub doubles: u32,
    pub strings: u32,
    pub namespaces: u32,
    pub sets: u32,
    pub names: u32,
    pub methods: u32,
    pub metadata: u32,
    pub classes: u32,
}
