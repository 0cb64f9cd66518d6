use abc_base::HostClass;

/// What a value that nothing caught is of.
#[derive(Clone, Copy, Debug, PartialEq, Eq)]
pub enum Thrown {
    /// An instance of a class of the file, by its number.
    FileClass(u32),
    /// A value of a class of the host: class objects are of `Class` and functions of `Function`.
    HostClass(HostClass),
    Undefined,
    Null,
    /// The global object of a script.
    Global,
    Activation,
    Catch,
}
