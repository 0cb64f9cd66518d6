ghost use Rattle.std.specs.Prelude.{◌≡◌};
ghost use Rattle.abc_base.specs.Names.{status_code};

/// How the program ended.
#[derive(Clone, Copy, Debug, PartialEq, Eq)]
pub enum Status {
    /// All went well.
    Done,
    /// The input was refused.
    Refused,
    /// The words were not understood.
    Usage,
    /// An exception was not caught.
    Uncaught,
    /// The code asked for what this profile does not do.
    Profile,
    /// The fuel was spent.
    Fuel,
    /// A limit was met.
    Limit,
    /// A read failed.
    ReadFault,
    /// A write failed.
    WriteFault,
    /// Memory ran out.
    NoMemory,
}

impl Status {
    /// The exit code, 0 to 9, in the order of the variants.
    pub fn code(&self) -> u8
        ensures { result ≡ status_code self.now }
    {
        match self {
            Status::Done => 0,
            Status::Refused => 1,
            Status::Usage => 2,
            Status::Uncaught => 3,
            Status::Profile => 4,
            Status::Fuel => 5,
            Status::Limit => 6,
            Status::ReadFault => 7,
            Status::WriteFault => 8,
            Status::NoMemory => 9,
        }
    }
}
