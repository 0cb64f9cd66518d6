//! What the whole product stands on: lists of values, sources of bytes and sinks for them, the host's formulas, the
//! words of a command line, the program's statuses, and how numbers are spelled.
//!
//! How bytes are shown in the lines and texts that the program writes: printable ASCII as it is but for `"` and `\`, and
//! every other byte as `\` and two hexadecimal digits in lower case.
//!
//! The whole of an input in memory.
#![tactic(auto)]

mod calls;
mod escape;
mod formula;
mod host;
mod input_error;
mod memory;
mod names;
mod number;
mod plain;
mod releasing;
mod sink;
mod sinks;
mod source;
mod sources;
mod status;
mod streams;
mod table;
mod whole_input;
mod words;

pub use escape::write_escaped;
pub use formula::Formula;
pub use host::{BuiltinHost, Host};
pub use input_error::InputError;
pub use memory::NoMemory;
pub use names::{Fault, HOST_CLASSES, HostClass};
pub use number::{len_u30, len_u32};
pub use plain::Plain;
pub use releasing::release;
pub use sink::{Sink, write_all};
pub use sinks::{MemSink, StdSink, SteadySink};
pub use source::{Failed, Source};
pub use sources::{MemSource, StdSource, SteadySource};
pub use status::Status;
pub use streams::{Reader, Writer};
pub use table::{Bytes, Table};
pub use whole_input::read_input;
pub use words::Words;
