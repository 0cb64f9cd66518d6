use crate::part::LayoutId;
use crate::start::Start;

/// Whose method a method is.
#[derive(Clone, Copy, Debug, PartialEq, Eq)]
pub enum Owner {
    /// No part names it: it is made a function by code.
    Free,
    /// The initializer of a script.
    ScriptInit(u32),
    /// A trait of a script.
    ScriptMethod(u32),
    /// The initializer of a class object.
    ClassInit(u32),
    /// A trait of a class object.
    Static(u32),
    /// The initializer of a class's instances.
    Iinit(u32),
    /// A trait of a class's instances.
    Instance(u32),
}

/// A method, and what names it.
#[derive(Clone, Copy, Debug, PartialEq, Eq)]
pub struct Naming {
    pub method: u32,
    pub owner: Owner,
}

/// The type of a slot, a parameter or a name.
#[derive(Clone, Copy, Debug, PartialEq, Eq)]
pub enum Ty {
    Any,
    Void,
    Object,
    Int,
    UInt,
    Number,
    Boolean,
    Text,
    Space,
    /// An object whose layout is the given one or below.
    Of(LayoutId),
    /// An instance of a class that names the interface.
    Interface(u32),
}

/// A slot of a layout.
#[derive(Clone, Copy, Debug, PartialEq, Eq)]
pub struct SlotInfo {
    pub ty: Ty,
    pub constant: bool,
    pub start: Start,
}

/// What is known of a value.
#[derive(Clone, Copy, Debug, PartialEq, Eq)]
pub enum Kind {
    Any,
    Undef,
    Null,
    Num,
    Bool,
    Text,
    Space,
    /// Null, or an object whose layout is the given one or below.
    Obj(LayoutId),
}
