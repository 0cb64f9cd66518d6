use super::Whole;
use crate::names::{Multiname, Namespace};
use abc_base::NoMemory;
use std::alloc::Global;

impl Whole for Namespace {
    fn same(&self, other: &Namespace) -> bool {
        self.kind == other.kind && self.name == other.name
    }

    fn copy(&self, _alloc: Global) -> Result<Namespace, NoMemory> {
        Ok(*self)
    }
}

impl Whole for Multiname {
    fn same(&self, other: &Multiname) -> bool {
        match self {
            Multiname::QName { attr, ns, name } => match other {
                Multiname::QName {
                    attr: a,
                    ns: s,
                    name: n,
                } => *attr == *a && *ns == *s && *name == *n,
                _ => false,
            },
            Multiname::Rt { attr, name } => match other {
                Multiname::Rt { attr: a, name: n } => *attr == *a && *name == *n,
                _ => false,
            },
            Multiname::RtL { attr } => match other {
                Multiname::RtL { attr: a } => *attr == *a,
                _ => false,
            },
            Multiname::Multi { attr, name, set } => match other {
                Multiname::Multi {
                    attr: a,
                    name: n,
                    set: s,
                } => *attr == *a && *name == *n && *set == *s,
                _ => false,
            },
            Multiname::MultiL { attr, set } => match other {
                Multiname::MultiL { attr: a, set: s } => *attr == *a && *set == *s,
                _ => false,
            },
            Multiname::TypeName { base, params } => match other {
                Multiname::TypeName { base: b, params: p } => *base == *b && params.same(p),
                _ => false,
            },
        }
    }

    fn copy(&self, alloc: Global) -> Result<Multiname, NoMemory> {
        match self {
            Multiname::QName { attr, ns, name } => Ok(Multiname::QName {
                attr: *attr,
                ns: *ns,
                name: *name,
            }),
            Multiname::Rt { attr, name } => Ok(Multiname::Rt {
                attr: *attr,
                name: *name,
            }),
            Multiname::RtL { attr } => Ok(Multiname::RtL { attr: *attr }),
            Multiname::Multi { attr, name, set } => Ok(Multiname::Multi {
                attr: *attr,
                name: *name,
                set: *set,
            }),
            Multiname::MultiL { attr, set } => Ok(Multiname::MultiL {
                attr: *attr,
                set: *set,
            }),
            Multiname::TypeName { base, params } => {
                let params = params.copy(alloc)?;
                Ok(Multiname::TypeName {
                    base: *base,
                    params,
                })
            }
        }
    }
}
