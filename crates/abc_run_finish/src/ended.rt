use abc_base::Fault;
use abc_heap_store::Limit;
use abc_meaning::Thrown;

/// How a run ends in a step, where the last frame doesn't return.
#[derive(Clone, Copy)]
pub enum Ended {
    /// This was thrown, and nothing caught it.
    Uncaught(Thrown),
    /// The profile leaves it out: the method and the number of the instruction.
    Profile {
        method: u32,
        index: u32,
        fault: Fault,
    },
    /// A limit is reached.
    Full(Limit),
}
