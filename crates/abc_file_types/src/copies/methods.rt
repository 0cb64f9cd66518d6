ghost use Rattle.std.specs.Prelude.{◌≡◌, ◌↔◌, IsTrue};

use super::Whole;
use crate::methods::{Metadata, Method, OptionValue};
use crate::traits::{TraitBody, TraitInfo};
use abc_base::NoMemory;
use std::alloc::Global;

impl Whole for OptionValue {
    fn same(&self, other: &OptionValue) -> bool {
        self.kind == other.kind && self.value == other.value
    }

    fn copy(&self, _alloc: Global) -> Result<OptionValue, NoMemory> {
        Ok(*self)
    }
}

impl Whole for Method {
    fn same(&self, other: &Method) -> bool {
        self.ret == other.ret
            && self.params.same(&other.params)
            && self.name == other.name
            && self.flags == other.flags
            && self.options.same(&other.options)
            && self.param_names.same(&other.param_names)
    }

    fn copy(&self, alloc: Global) -> Result<Method, NoMemory> {
        let params = self.params.copy(alloc)?;
        let options = self.options.copy(alloc)?;
        let param_names = self.param_names.copy(alloc)?;
        Ok(Method {
            ret: self.ret,
            params,
            name: self.name,
            flags: self.flags,
            options,
            param_names,
        })
    }
}

impl Whole for Metadata {
    fn same(&self, other: &Metadata) -> bool {
        self.name == other.name && self.items.same(&other.items)
    }

    fn copy(&self, alloc: Global) -> Result<Metadata, NoMemory> {
        let items = self.items.copy(alloc)?;
        Ok(Metadata {
            name: self.name,
            items,
        })
    }
}

/// Whether two slots have equal values, or neither has one.
fn same_value(a: Option<OptionValue>, b: Option<OptionValue>) -> bool
    ensures { IsTrue result ↔ (a ≡ b) }
{
    match a {
        None => b.is_none(),
        Some(x) => match b {
            None => false,
            Some(y) => x.same(&y),
        },
    }
}

impl Whole for TraitBody {
    fn same(&self, other: &TraitBody) -> bool {
        match *self {
            TraitBody::Slot {
                id,
                ty,
                value,
                constant,
            } => match *other {
                TraitBody::Slot {
                    id: i,
                    ty: t,
                    value: v,
                    constant: c,
                } => { id == i && ty == t && same_value(value, v) && constant == c }
                _ => false,
            },
            TraitBody::Method { disp, method } => match *other {
                TraitBody::Method { disp: d, method: m } => disp == d && method == m,
                _ => false,
            },
            TraitBody::Getter { disp, method } => match *other {
                TraitBody::Getter { disp: d, method: m } => disp == d && method == m,
                _ => false,
            },
            TraitBody::Setter { disp, method } => match *other {
                TraitBody::Setter { disp: d, method: m } => disp == d && method == m,
                _ => false,
            },
            TraitBody::Class { id, class } => match *other {
                TraitBody::Class { id: i, class: c } => id == i && class == c,
                _ => false,
            },
            TraitBody::Function { id, method } => match *other {
                TraitBody::Function { id: i, method: m } => id == i && method == m,
                _ => false,
            },
        }
    }

    fn copy(&self, _alloc: Global) -> Result<TraitBody, NoMemory> {
        Ok(*self)
    }
}

impl Whole for TraitInfo {
    fn same(&self, other: &TraitInfo) -> bool {
        self.name == other.name
            && self.attrs == other.attrs
            && self.body.same(&other.body)
            && self.metadata.same(&other.metadata)
    }

    fn copy(&self, alloc: Global) -> Result<TraitInfo, NoMemory> {
        let metadata = self.metadata.copy(alloc)?;
        Ok(TraitInfo {
            name: self.name,
            attrs: self.attrs,
            body: self.body,
            metadata,
        })
    }
}
