/// What the first operand of an instruction names.
#[derive(Clone, Copy, Debug, PartialEq, Eq)]
pub enum Operand {
    /// Nothing that has a table of its own.
    Unnamed,
    StringAt,
    IntAt,
    UintAt,
    DoubleAt,
    NamespaceAt,
    FunctionAt,
    ClassAt,
    HandlerAt,
    /// A name that may have runtime parts.
    NameAt,
    /// A name without runtime parts.
    PlainNameAt,
    TypeAt,
    /// A type, where 0 is the type any.
    TypeOrAny,
    ScopeAt,
}

/// What is asked of values that are taken.
#[derive(Clone, Copy, Debug, PartialEq, Eq)]
pub enum Need {
    /// A value of any kind.
    Value,
    /// A namespace.
    Namespace,
    /// A number.
    Index,
    /// Null, or an object that has the slot.
    Slotted,
    /// An instance of the class that the method stands in.
    Instance,
    /// The runtime parts of the name.
    Runtime,
}

/// A kind that a row names.
#[derive(Clone, Copy, Debug, PartialEq, Eq)]
pub enum RowKind {
    Any,
    Undef,
    Null,
    Num,
    Bool,
    Text,
    Space,
    /// An instance of Object.
    Object,
    /// An instance of Function.
    Function,
    /// An instance of Array.
    Array,
}

/// Where the kind of a value that is pushed or written comes from.
#[derive(Clone, Copy, Debug, PartialEq, Eq)]
pub enum Source {
    Fixed(RowKind),
    /// The value taken that stands so deep.
    Taken(u8),
    /// The local that is named.
    LocalKind,
    /// The local scope that is named.
    ScopeKind,
    /// The slot that is named, of the value taken that has to have it.
    SlotKind,
    /// The sum of the two values taken.
    SumKind,
    /// The type that is named.
    TypeKind,
    /// The type that is named, for a value that may turn out to be null.
    AsTypeKind,
    ActivationKind,
    ClassObjectKind,
    CatchObjectKind,
}

/// Needs, the top first.
#[derive(Clone, Copy, Debug, PartialEq, Eq)]
pub enum Takes {
    Nothing,
    One(Need),
    Two(Need, Need),
    Three(Need, Need, Need),
}

/// Sources, the top first.
#[derive(Clone, Copy, Debug, PartialEq, Eq)]
pub enum Gives {
    Nothing,
    One(Source),
    Two(Source, Source),
}

/// What happens to the locals.
#[derive(Clone, Copy, Debug, PartialEq, Eq)]
pub enum Locals {
    Untouched,
    /// The local that is named is read.
    Reads,
    /// The local that is named gets this kind.
    Sets(Source),
    /// The first of two is an object that is walked over, the second an index.
    Walks,
}

/// What happens to the local scopes.
#[derive(Clone, Copy, Debug, PartialEq, Eq)]
pub enum Scoping {
    Stays,
    /// The value taken is pushed, with this with flag.
    Pushes(bool),
    Pops,
}

/// Which places follow.
#[derive(Clone, Copy, Debug, PartialEq, Eq)]
pub enum Leads {
    Next,
    /// The next place and the target.
    Branches,
    Jumps,
    Switches,
    Ends,
}

/// Where an instruction may stand.
#[derive(Clone, Copy, Debug, PartialEq, Eq)]
pub enum Site {
    Anywhere,
    WithActivation,
    /// On the instances of a class with a base.
    OnInstance,
    /// Where instances of a class with a base are made.
    InMaker,
}

/// A row of the table.
#[derive(Clone, Copy, Debug)]
pub struct Row {
    pub operand: Operand,
    /// How many values are taken for each argument.
    pub args: u8,
    /// What is asked of the values below the arguments, the top first.
    pub takes: Takes,
    /// The kinds of the values that are pushed, the top first.
    pub gives: Gives,
    pub locals: Locals,
    pub scoping: Scoping,
    pub leads: Leads,
    pub site: Site,
}
