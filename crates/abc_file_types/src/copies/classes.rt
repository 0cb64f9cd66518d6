ghost use Rattle.std.specs.Prelude.{◌≡◌, ◌↔◌, IsTrue};

use super::Whole;
use crate::classes::{ClassInfo, Instance, Script};
use abc_base::NoMemory;
use std::alloc::Global;

/// Whether two optional namespaces are equal.
fn same_space(a: Option<u32>, b: Option<u32>) -> bool
    ensures { IsTrue result ↔ (a ≡ b) }
{
    a == b
}

impl Whole for Instance {
    fn same(&self, other: &Instance) -> bool {
        self.name == other.name
            && self.super_name == other.super_name
            && self.flags == other.flags
            && same_space(self.protected_ns, other.protected_ns)
            && self.interfaces.same(&other.interfaces)
            && self.iinit == other.iinit
            && self.traits.same(&other.traits)
    }

    fn copy(&self, alloc: Global) -> Result<Instance, NoMemory> {
        let interfaces = self.interfaces.copy(alloc)?;
        let traits = self.traits.copy(alloc)?;
        Ok(Instance {
            name: self.name,
            super_name: self.super_name,
            flags: self.flags,
            protected_ns: self.protected_ns,
            interfaces,
            iinit: self.iinit,
            traits,
        })
    }
}

impl Whole for ClassInfo {
    fn same(&self, other: &ClassInfo) -> bool {
        self.cinit == other.cinit && self.traits.same(&other.traits)
    }

    fn copy(&self, alloc: Global) -> Result<ClassInfo, NoMemory> {
        let traits = self.traits.copy(alloc)?;
        Ok(ClassInfo {
            cinit: self.cinit,
            traits,
        })
    }
}

impl Whole for Script {
    fn same(&self, other: &Script) -> bool {
        self.init == other.init && self.traits.same(&other.traits)
    }

    fn copy(&self, alloc: Global) -> Result<Script, NoMemory> {
        let traits = self.traits.copy(alloc)?;
        Ok(Script {
            init: self.init,
            traits,
        })
    }
}
