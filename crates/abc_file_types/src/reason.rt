ghost use Rattle.std.specs.Prelude.{◌≡◌};
ghost use Rattle.abc_file_types.specs.Reasons.{reason_name};

/// Why bytes are refused.
#[derive(Clone, Copy, Debug, PartialEq, Eq)]
pub enum Reason {
    /// A byte is needed, and the input has ended.
    Short,
    /// The version is not minor 16, major 46.
    Version,
    /// The fifth byte of a number has its high bit set.
    LongNumber,
    /// A number that has to be below 2^30 is not.
    BigNumber,
    /// A namespace has no known kind.
    NamespaceKind,
    /// A multiname has no known kind.
    MultinameKind,
    /// An index is outside its table.
    Index,
    /// A method has more optional values than parameters.
    OptionCount,
    /// The kind of an optional value, or of a slot's value, is not known.
    OptionKind,
    /// A trait has no known kind.
    TraitKind,
    /// No instruction has this opcode.
    Opcode,
    /// Code has 2^23 bytes or more.
    CodeLength,
    /// An instruction needs a byte past the code's end.
    CodeEnds,
    /// A branch leads to no instruction's start, nor to the code's end.
    Target,
    /// A bound or the target of an exception is no instruction's start, nor the code's end.
    HandlerRange,
    /// The method has a body already.
    SecondBody,
    /// The file is complete, and another byte follows.
    Trailing,
    /// A byte is needed past the longest file, and is there.
    FileTooLong,
}

impl Reason {
    /// The reason's name, as error lines show it.
    pub fn name(&self) -> &[u8]
        ensures { result.now ≡ reason_name self.now }
    {
        match self {
            Reason::Short => b"Short",
            Reason::Version => b"Version",
            Reason::LongNumber => b"LongNumber",
            Reason::BigNumber => b"BigNumber",
            Reason::NamespaceKind => b"NamespaceKind",
            Reason::MultinameKind => b"MultinameKind",
            Reason::Index => b"Index",
            Reason::OptionCount => b"OptionCount",
            Reason::OptionKind => b"OptionKind",
            Reason::TraitKind => b"TraitKind",
            Reason::Opcode => b"Opcode",
            Reason::CodeLength => b"CodeLength",
            Reason::CodeEnds => b"CodeEnds",
            Reason::Target => b"Target",
            Reason::HandlerRange => b"HandlerRange",
            Reason::SecondBody => b"SecondBody",
            Reason::Trailing => b"Trailing",
            Reason::FileTooLong => b"FileTooLong",
        }
    }
}
