//! Comparing and copying: a value of the file as a whole, and a whole file.
ghost use Rattle.std.specs.Prelude.{◌≡◌, ◌↔◌, IsTrue, IfOk};

mod classes;
mod code;
mod methods;
mod names;

use crate::tables::{Abc, Eight};
use abc_base::{Bytes, NoMemory, Table};
use std::alloc::Global;

/// Values that are compared and copied whole.
pub trait Whole: Drop {
    /// Whether the two values are equal. It takes no memory.
    fn same(&self, other: &Self) -> bool
        ensures { IsTrue result ↔ (self.now ≡ other.now) };

    /// A value that is equal to this one, and shares nothing with it.
    fn copy(&self, alloc: Global) -> Result<Self, NoMemory>
        ensures { IfOk result (λ x. x ≡ self.now) };
}

impl Whole for u32 {
    fn same(&self, other: &u32) -> bool {
        *self == *other
    }

    fn copy(&self, _alloc: Global) -> Result<u32, NoMemory> {
        Ok(*self)
    }
}

impl Whole for i32 {
    fn same(&self, other: &i32) -> bool {
        *self == *other
    }

    fn copy(&self, _alloc: Global) -> Result<i32, NoMemory> {
        Ok(*self)
    }
}

impl Whole for Eight {
    fn same(&self, other: &Eight) -> bool {
        self.0 == other.0
    }

    fn copy(&self, _alloc: Global) -> Result<Eight, NoMemory> {
        Ok(*self)
    }
}

impl Whole for Bytes {
    fn same(&self, other: &Bytes) -> bool {
        self.as_slice() == other.as_slice()
    }

    fn copy(&self, alloc: Global) -> Result<Bytes, NoMemory> {
        Bytes::from_slice(alloc, self.as_slice())
    }
}

impl<T: Whole> Whole for Table<T> {
    fn same(&self, other: &Table<T>) -> bool {
        if self.len() != other.len() {
            return false;
        }
        for i in 0..self.len() {
            if !self.get(i).same(other.get(i)) {
                return false;
            }
        }
        true
    }

    fn copy(&self, alloc: Global) -> Result<Table<T>, NoMemory> {
        let mut items = Table::new(alloc);
        for x in self.as_slice() {
            items.push(x.copy(alloc)?)?;
        }
        Ok(items)
    }
}

impl Abc {
    /// A file that is equal to this one, and shares nothing with it.
    pub fn copy(&self, alloc: Global) -> Result<Abc, NoMemory>
        ensures { IfOk result (λ x. x ≡ self.now) }
    {
        let ints = self.ints.copy(alloc)?;
        let uints = self.uints.copy(alloc)?;
        let doubles = self.doubles.copy(alloc)?;
        let strings = self.strings.copy(alloc)?;
        let namespaces = self.namespaces.copy(alloc)?;
        let sets = self.sets.copy(alloc)?;
        let names = self.names.copy(alloc)?;
        let methods = self.methods.copy(alloc)?;
        let metadata = self.metadata.copy(alloc)?;
        let instances = self.instances.copy(alloc)?;
        let classes = self.classes.copy(alloc)?;
        let scripts = self.scripts.copy(alloc)?;
        let bodies = self.bodies.copy(alloc)?;
        Ok(Abc {
            ints,
            uints,
            doubles,
            strings,
            namespaces,
            sets,
            names,
            methods,
            metadata,
            instances,
            classes,
            scripts,
            bodies,
        })
    }
}

/// Whether two files are equal, table by table. It takes no memory.
pub fn same(a: &Abc, b: &Abc) -> bool
    ensures { IsTrue result ↔ (a.now ≡ b.now) }
{
    a.ints.same(&b.ints)
        && a.uints.same(&b.uints)
        && a.doubles.same(&b.doubles)
        && a.strings.same(&b.strings)
        && a.namespaces.same(&b.namespaces)
        && a.sets.same(&b.sets)
        && a.names.same(&b.names)
        && a.methods.same(&b.methods)
        && a.metadata.same(&b.metadata)
        && a.instances.same(&b.instances)
        && a.classes.same(&b.classes)
        && a.scripts.same(&b.scripts)
        && a.bodies.same(&b.bodies)
}
