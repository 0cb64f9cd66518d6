/// What the program is asked for.
#[derive(Clone, Copy, Debug, PartialEq, Eq)]
pub enum Command {
    /// The canonical bytes of a file.
    Canon,
    /// The assembly text of a file.
    Dis,
    /// The canonical bytes of an assembly text.
    Asm,
    /// Whether a file is verified.
    Check,
    /// The canonical bytes of a file whose pools are tidied.
    Tidy,
    /// A run of a file.
    Run(RunOptions),
    /// A run of a generated file.
    Gen(GenOptions),
    /// Calls of a function that a file exports, on what its run left.
    Calls(CallsOptions),
    /// The log of a run of a file: what each step was.
    Log(RunOptions),
    /// Whether a log is that of its file.
    Replay,
}

/// How far a run may go: its fuel, and how much of each thing there may be.
#[derive(Clone, Copy, Debug, PartialEq, Eq)]
pub struct RunOptions {
    pub fuel: u32,
    pub objects: u32,
    pub cells: u32,
    pub text: u32,
    pub frames: u32,
    pub stack: u32,
}

/// What file is generated: the seed of its choices, and how many methods it has.
#[derive(Clone, Copy, Debug, PartialEq, Eq)]
pub struct GenOptions {
    pub seed: u32,
    pub methods: u32,
}

/// How far a run and each call after it may go, and how many calls there are.
#[derive(Clone, Copy, Debug, PartialEq, Eq)]
pub struct CallsOptions {
    pub run: RunOptions,
    pub times: u32,
}

/// Why the words ask for nothing.
#[derive(Clone, Copy, Debug, PartialEq, Eq)]
pub enum Usage {
    /// There are no words.
    NoCommand,
    /// The position of the first word with which no command line begins.
    Word(usize),
}
