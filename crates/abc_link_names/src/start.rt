/// The value of a trait, before it is coerced to a type.
#[derive(Clone, Copy, Debug, PartialEq, Eq)]
pub enum Raw {
    Undefined,
    Null,
    Int(i32),
    UInt(u32),
    /// A double, which is never read.
    Double,
    Bool(bool),
    /// A string of the pool; 0 is the empty text.
    Text(u32),
    /// A namespace of the pool, counted from 1.
    Space(u32),
}

/// The value at which a slot starts.
#[derive(Clone, Copy, Debug, PartialEq, Eq)]
pub enum Start {
    Undefined,
    Null,
    /// A number from -2147483648 to 4294967295.
    Num(i64),
    Bool(bool),
    /// The fixed text `true` or `false`.
    BoolText(bool),
    /// A string of the pool; 0 is the empty text.
    Text(u32),
    /// A namespace of the pool, counted from 1.
    Space(u32),
}
