use crate::stack::Stack;
use abc_base::Table;
use abc_link_names::Kind;

/// A local scope.
#[derive(Clone, Copy, Debug, PartialEq, Eq)]
pub struct Scope {
    /// What is known of its object.
    pub kind: Kind,
    /// Whether `pushwith` pushed it.
    pub is_with: bool,
}

/// What is known before an instruction.
#[derive(Debug, Drop)]
pub struct State {
    /// The operands, the top first.
    pub stack: Stack<Kind>,
    /// The local scopes, the bottom first.
    pub scopes: Table<Scope>,
    pub locals: Table<Kind>,
}
