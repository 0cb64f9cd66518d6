use abc_heap_store::ScopeEntry;

/// A place of a search in scopes.
#[derive(Clone, Copy, Debug, PartialEq, Eq)]
pub(crate) enum Place {
    InScope(ScopeEntry),
    /// The global object of a script.
    InScript(u32),
    /// The host object.
    InHost,
}
