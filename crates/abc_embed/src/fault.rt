use abc_base::{Failed, NoMemory};
use abc_link_names::LinkError;
use abc_objects::OpenError;
use abc_varint::ReadError;
use abc_verify::VerifyError;
use std::alloc::AllocFailed;
use thiserror::Error;

/// Why the host gives up.
#[derive(Clone, Copy, Debug, Error)]
pub enum Fault {
    /// Memory ran out.
    #[error("memory ran out")]
    NoMemory,
    /// The input is no file, breaks a rule, or can't be read.
    #[error("the file is refused")]
    Refused,
    /// What every run begins with passes a limit.
    #[error("a limit is too small")]
    TooSmall,
    /// The file exports nothing under this name.
    #[error("a function is missing")]
    NoExport,
    /// The run or a call ended otherwise than well.
    #[error("the code did not end well")]
    Ended,
    /// The output can't be written.
    #[error("the output can't be written")]
    Stream,
}

impl From<NoMemory> for Fault {
    fn from(_e: NoMemory) -> Fault {
        Fault::NoMemory
    }
}

impl<T: Drop> From<AllocFailed<T>> for Fault {
    fn from(_e: AllocFailed<T>) -> Fault {
        Fault::NoMemory
    }
}

impl From<Failed> for Fault {
    fn from(_e: Failed) -> Fault {
        Fault::Stream
    }
}

impl From<ReadError> for Fault {
    fn from(e: ReadError) -> Fault {
        match e {
            ReadError::NoMemory => Fault::NoMemory,
            ReadError::Refused { .. } | ReadError::ReadFault => Fault::Refused,
        }
    }
}

impl From<LinkError> for Fault {
    fn from(e: LinkError) -> Fault {
        match e {
            LinkError::NoMemory => Fault::NoMemory,
            LinkError::Refused { .. } => Fault::Refused,
        }
    }
}

impl From<VerifyError> for Fault {
    fn from(e: VerifyError) -> Fault {
        match e {
            VerifyError::NoMemory => Fault::NoMemory,
            VerifyError::Refused { .. } => Fault::Refused,
        }
    }
}

impl From<OpenError> for Fault {
    fn from(e: OpenError) -> Fault {
        match e {
            OpenError::NoMemory => Fault::NoMemory,
            OpenError::TooSmall(_) => Fault::TooSmall,
        }
    }
}
