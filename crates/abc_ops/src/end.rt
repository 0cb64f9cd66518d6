use abc_base::{Fault, HostClass};
use abc_heap_store::Limit;

/// Why an operation has no value.
#[derive(Clone, Copy, Debug, PartialEq, Eq)]
pub enum OpEnd {
    /// It asks for what this profile doesn't do, and ends the run.
    Profile(Fault),
    /// The limit of texts is reached, and ends the run.
    Full(Limit),
    /// It throws a new error of this class.
    Throw(HostClass),
}
