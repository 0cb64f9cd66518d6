/// What the first token of a line says that the line is.
#[derive(Clone, Copy, Debug, PartialEq, Eq)]
pub enum Word {
    /// `abc`, with the version
    Abc,
    /// `int`
    Int,
    /// `uint`
    UInt,
    /// `double`
    Double,
    /// `string`
    Text,
    /// `ns`
    Namespace,
    /// `set`
    Set,
    /// `name`
    Name,
    /// `method`
    Method,
    /// `param`
    Param,
    /// `option`
    Optional,
    /// `pname`
    ParamName,
    /// `metadata`
    Metadata,
    /// `item`
    Entry,
    /// `instance`
    Instance,
    /// `protected`
    Protected,
    /// `implements`
    Implements,
    /// `iinit`
    Initializer,
    /// `trait`
    Trait,
    /// `tmeta`
    TraitMetadata,
    /// `class`
    Class,
    /// `script`
    Script,
    /// `body`
    Body,
    /// An instruction, with its opcode.
    Instruction(u8),
    /// A label and a colon.
    Label,
    /// `catch`
    Catch,
    /// No line word, instruction or label line.
    Unknown,
}
