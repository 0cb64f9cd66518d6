use crate::methods::OptionValue;
use abc_base::Table;

/// The low four bits of a trait's kind byte.
#[derive(Clone, Copy, Debug, PartialEq, Eq)]
pub enum TraitKind {
    /// 0
    Slot,
    /// 1
    Method,
    /// 2
    Getter,
    /// 3
    Setter,
    /// 4
    Class,
    /// 5
    Function,
    /// 6
    Const,
}

/// A property that a class, an instance, a script or an activation has from the start (Overview, chapter 4, "Trait").
#[derive(Debug, Drop)]
pub struct TraitInfo {
    /// A multiname, counted from 1, never 0.
    pub name: u32,
    /// 0 to 15: 1 final, 2 override, 4 metadata, 8 kept.
    pub attrs: u8,
    pub body: TraitBody,
    /// Entries of the metadata table, counted from 0, where attribute 4 is set.
    pub metadata: Table<u32>,
}

/// What a trait declares. An `id` and a `disp` are below 2^30; methods and classes are counted from 0.
#[derive(Clone, Copy, Debug, PartialEq, Eq)]
pub enum TraitBody {
    /// A slot, or a constant: kinds 0 and 6. `ty` is a multiname, counted from 1, where 0 is any type.
    Slot {
        id: u32,
        ty: u32,
        value: Option<OptionValue>,
        constant: bool,
    },
    /// Kind 1.
    Method {
        disp: u32,
        method: u32,
    },
    /// Kind 2.
    Getter {
        disp: u32,
        method: u32,
    },
    /// Kind 3.
    Setter {
        disp: u32,
        method: u32,
    },
    /// Kind 4.
    Class {
        id: u32,
        class: u32,
    },
    /// Kind 5.
    Function {
        id: u32,
        method: u32,
    },
}
