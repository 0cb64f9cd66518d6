use abc_base::HostClass;

/// What a name of a type, a base or an interface stands for.
#[derive(Clone, Copy, Debug, PartialEq, Eq)]
pub enum Named {
    /// Every value: the type of index 0.
    Any,
    /// `void`
    Void,
    /// A class of the host.
    Host(HostClass),
    /// A class of the file, counted from 0.
    Class(u32),
}

/// The namespaces of a name of a type, a base or an interface.
#[derive(Clone, Copy, Debug, PartialEq, Eq)]
pub enum Spaces {
    /// Any namespace.
    Every,
    /// A namespace of the pool, counted from 1.
    One(u32),
    /// A set of namespaces of the pool, counted from 1.
    Set(u32),
}

/// A QName or a Multiname that has a name.
#[derive(Clone, Copy, Debug, PartialEq, Eq)]
pub struct PlainName {
    /// A string of the pool, counted from 1.
    pub string: u32,
    pub spaces: Spaces,
}

/// A QName that has a namespace and a name, as classes and traits do.
#[derive(Clone, Copy, Debug, PartialEq, Eq)]
pub struct DefiniteName {
    /// A namespace of the pool, counted from 1.
    pub ns: u32,
    /// A string of the pool, counted from 1.
    pub string: u32,
}
