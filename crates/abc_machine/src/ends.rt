use abc_base::Fault;
use abc_heap_store::Limit;
use abc_meaning::Thrown;

/// How a run ends.
#[derive(Clone, Copy, Debug, PartialEq, Eq)]
pub enum End {
    /// The init of the last script returned.
    Done,
    /// This was thrown, and nothing caught it.
    Uncaught(Thrown),
    /// The profile leaves it out: the method, and the number of the instruction in its body, from 0.
    Profile {
        method: u32,
        index: u32,
        fault: Fault,
    },
    /// So many steps were done as there was fuel for.
    FuelSpent,
    /// A limit is reached.
    Full(Limit),
    /// The sink failed, which ends the run.
    WriteFault,
}
