/// A text: the bytes from `start` on, `len` of them, of a part. Part 0 holds the fixed texts and the host's, part 1 the
/// texts made, and part 2 + i string i of the file's pool.
#[derive(Clone, Copy, Debug, PartialEq, Eq)]
pub struct Span {
    pub part: u32,
    pub start: u32,
    pub len: u32,
}

/// An object, by its position among all objects made.
#[derive(Clone, Copy, Debug, PartialEq, Eq)]
pub struct ObjId(pub u32);

/// What the machine computes with.
#[derive(Clone, Copy, Debug, PartialEq, Eq)]
pub enum Value {
    Undefined,
    Null,
    /// A whole number, from -2147483648 to 4294967295.
    Num(i64),
    Bool(bool),
    Text(Span),
    /// A namespace, by its index in the file's pool.
    Space(u32),
    Obj(ObjId),
}
