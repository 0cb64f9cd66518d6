use abc_base::NoMemory;
use hex::FromHexError;
use std::alloc::{AllocError, AllocFailed};
use std::io;
use std::num::ParseIntError;

/// Why rows can't be run.
#[derive(Clone, Copy, Debug)]
pub enum Fault {
    /// Memory ran out.
    NoMemory,
    /// A line isn't understood.
    BadLine,
    /// The words or a file can't be read, or the output can't be written.
    Stream,
}

impl From<io::Error> for Fault {
    fn from(_e: io::Error) -> Fault {
        Fault::Stream
    }
}

impl From<NoMemory> for Fault {
    fn from(_e: NoMemory) -> Fault {
        Fault::NoMemory
    }
}

impl From<AllocError> for Fault {
    fn from(_e: AllocError) -> Fault {
        Fault::NoMemory
    }
}

impl<T: Drop> From<AllocFailed<T>> for Fault {
    fn from(_e: AllocFailed<T>) -> Fault {
        Fault::NoMemory
    }
}

impl From<ParseIntError> for Fault {
    fn from(_e: ParseIntError) -> Fault {
        Fault::BadLine
    }
}

impl From<FromHexError> for Fault {
    fn from(e: FromHexError) -> Fault {
        match e {
            FromHexError::OutOfMemory => Fault::NoMemory,
            _ => Fault::BadLine,
        }
    }
}
