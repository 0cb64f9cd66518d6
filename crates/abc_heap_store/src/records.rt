ghost use Rattle.std.specs.Prelude.{◌≡◌};
ghost use Rattle.abc_heap_store.specs.What.{is_array};

use abc_base::HostClass;
use abc_heap_values::ObjId;

/// A captured scope, by its position among all captured scopes.
#[derive(Clone, Copy, Debug, PartialEq, Eq)]
pub struct ScopeId(pub u32);

/// An object on a scope stack, and whether it was put there by `pushwith`.
#[derive(Clone, Copy, Debug, PartialEq, Eq)]
pub struct ScopeEntry {
    pub object: ObjId,
    pub with_flag: bool,
}

/// A captured scope, and the one below it.
#[derive(Clone, Copy, Debug, PartialEq, Eq)]
pub struct ScopeNode {
    pub entry: ScopeEntry,
    pub parent: Option<ScopeId>,
}

/// What an object is. Methods, scripts and classes are named by their indices in the file.
#[derive(Clone, Copy, Debug, PartialEq, Eq)]
pub enum What {
    Plain,
    /// A function, with the top of its saved scopes, and the receiver where it is bound to one.
    Closure {
        method: u32,
        home: u32,
        scope: Option<ScopeId>,
        bound: Option<ObjId>,
    },
    /// The class object of a class of the file, with the saved scopes of its static and of its instance methods.
    ClassObject {
        class: u32,
        home: u32,
        statics: Option<ScopeId>,
        instances: ScopeId,
    },
    /// The class object of a host class.
    HostClass(HostClass),
    Trace,
    /// A formula of the host, by its position.
    Formula(u32),
    HostObject,
    /// The global object of a script.
    Global(u32),
    Activation,
    Catch,
    Array,
}

impl What {
    /// Whether this is an array.
    pub fn is_array(&self) -> bool
        ensures { result ≡ is_array self.now }
    {
        match self {
            What::Array => true,
            _ => false,
        }
    }
}

/// The five limits of a run, and how much of each is used: objects, cells, bytes of texts made, live frames, and the
/// values that these keep.
#[derive(Clone, Copy, Debug, PartialEq, Eq)]
pub struct Limits {
    pub objects: u32,
    pub cells: u32,
    pub text: u32,
    pub frames: u32,
    pub stack: u32,
}

/// One of the five limits.
#[derive(Clone, Copy, Debug, PartialEq, Eq)]
pub enum Limit {
    Objects,
    Cells,
    Text,
    Frames,
    Stack,
}

/// A count and its need pass this limit.
#[derive(Clone, Copy, Debug, PartialEq, Eq)]
pub struct Full(pub Limit);
