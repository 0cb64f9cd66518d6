use abc_heap_values::Span;

/// Which namespaces a name holds.
#[derive(Clone, Copy, Debug, PartialEq, Eq)]
pub enum Spaces {
    /// Any namespace.
    Any,
    /// The public namespace alone. It needs no entry of the pool.
    Public,
    /// A namespace of the pool, by its index from 1 on.
    One(u32),
    /// The namespaces of a set of the pool, by its index from 1 on.
    Set(u32),
}

/// What is searched for: a text, in some namespaces.
#[derive(Clone, Copy, Debug, PartialEq, Eq)]
pub struct Name {
    pub spaces: Spaces,
    pub text: Span,
}
