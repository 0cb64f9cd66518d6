use abc_heap_store::ScopeId;
use abc_heap_values::Value;

/// What a frame that called another does with what returns.
#[derive(Clone, Copy, Debug, PartialEq, Eq)]
pub enum Wait {
    /// It called none.
    Not,
    /// It pushes what returns.
    Push,
    /// It drops what returns.
    Drop,
    /// It drops what returns, and pushes this value: an object whose maker ran.
    Keep(Value),
    /// It executes its instruction again: a script was started.
    Again,
    /// It makes an object of what returns, a class that a getter gave, with so many arguments from the top of its stack.
    New(u32),
}

/// How many values a frame may keep: its locals, and at most so many operands and local scopes.
#[derive(Clone, Copy, Debug, PartialEq, Eq)]
pub struct Size {
    pub locals: u32,
    pub stack: u32,
    pub scopes: u32,
}

/// A method that is entered: its index in the file, its home script, its saved scope and the size of its frame.
#[derive(Clone, Copy, Debug, PartialEq, Eq)]
pub struct Entry {
    pub method: u32,
    pub home: u32,
    pub saved: Option<ScopeId>,
    pub size: Size,
}

/// Where a frame's locals, operands and scopes begin in the flat lists, and to how many of the last two it may grow. `used`
/// is how many values it and all frames below it may keep.
#[derive(Clone, Copy, Debug)]
pub struct Marks {
    pub locals_at: u32,
    pub stack_at: u32,
    pub scopes_at: u32,
    pub max_stack: u32,
    pub max_scopes: u32,
    pub used: u32,
}

/// A frame, but for what stands in the flat lists.
#[derive(Clone, Copy, Debug)]
pub struct Head {
    pub method: u32,
    pub home: u32,
    pub saved: Option<ScopeId>,
    pub place: u32,
    pub wait: Wait,
    pub marks: Marks,
}

/// A frame under another, and where its operands and scopes end.
#[derive(Clone, Copy, Debug)]
pub struct Below {
    pub head: Head,
    pub values: u32,
    pub scopes: u32,
}
