use crate::boxed_list::BoxedList;

/// What a namespace is for (Overview, chapter 4, "Namespace").
#[derive(Clone, Copy, Debug, PartialEq, Eq)]
pub enum NsKind {
    /// 05: visible in its own class or file alone.
    Private,
    /// 08: a namespace of the program's own.
    Namespace,
    /// 16: a package's public names.
    Package,
    /// 17: a package's internal names.
    PackageInternal,
    /// 18: a class's protected instance names.
    Protected,
    /// 19: a namespace that is named explicitly.
    Explicit,
    /// 1A: a class's protected static names.
    StaticProtected,
}

/// A namespace of the constant pool (Overview, chapter 4).
#[derive(Clone, Copy, Debug, PartialEq, Eq)]
pub struct Namespace {
    pub kind: NsKind,
    /// A string of the pool, counted from 1; 0 is the empty text.
    pub name: u32,
}

/// What the kind byte of a multiname says: which fields it has, and of all but the last whether it names an attribute.
#[derive(Clone, Copy, Debug, PartialEq, Eq)]
pub enum MultinameKind {
    /// 07 and 0D: a namespace and a name.
    QName { attr: bool },
    /// 0F and 10: a name; the namespace comes at run time.
    Rt { attr: bool },
    /// 11 and 12: nothing; the namespace and the name come at run time.
    RtL { attr: bool },
    /// 09 and 0E: a name and a set of namespaces.
    Multi { attr: bool },
    /// 1B and 1C: a set of namespaces; the name comes at run time.
    MultiL { attr: bool },
    /// 1D: another multiname and its parameters.
    TypeName,
}

/// A name of the constant pool (Overview, chapter 4, "Multiname"). A name is a string of the pool, counted from 1, where
/// 0 is any name; a namespace is one of the pool, counted from 1, where 0 is any namespace; a set is one of the pool,
/// counted from 1, and never 0. `attr` says that it names an attribute.
#[derive(Debug, Drop)]
pub enum Multiname {
    /// Kinds 07 and 0D.
    QName { attr: bool, ns: u32, name: u32 },
    /// Kinds 0F and 10.
    Rt { attr: bool, name: u32 },
    /// Kinds 11 and 12.
    RtL { attr: bool },
    /// Kinds 09 and 0E.
    Multi { attr: bool, name: u32, set: u32 },
    /// Kinds 1B and 1C.
    MultiL { attr: bool, set: u32 },
    /// Kind 1D, which the Overview leaves out: a type with its parameters. The base is a multiname of the pool, counted
    /// from 1, and never 0; so is each parameter, where 0 is any type. They may be later entries, or this one.
    TypeName { base: u32, params: BoxedList },
}
