use abc_base::Fault;
use abc_heap_store::Limit;
use abc_heap_values::Span;
use abc_meaning::Thrown;

/// What a call gives, as its caller sees it.
#[derive(Clone, Copy, Debug, PartialEq, Eq)]
pub enum PlainValue {
    Undefined,
    Null,
    Bool(bool),
    /// A whole number, from -2147483648 to 4294967295.
    Num(i64),
    /// A text, whose bytes the machine tells.
    Text(Span),
    /// A namespace or an object.
    Other,
}

/// What comes of a call.
#[derive(Clone, Copy, Debug, PartialEq, Eq)]
pub enum Reply {
    /// The method returned this.
    Value(PlainValue),
    /// This was thrown, and nothing caught it.
    Uncaught(Thrown),
    /// The profile leaves it out: the method, and the number of the instruction in its body, from 0.
    Profile {
        method: u32,
        index: u32,
        fault: Fault,
    },
    /// So many steps were done as there was fuel for.
    FuelSpent,
    /// A limit is reached.
    Full(Limit),
    /// The sink failed, which ends the call.
    WriteFault,
}
