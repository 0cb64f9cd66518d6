use abc_base::{Fault, HostClass, Table};
use abc_frames::{Frames, Pile};
use abc_heap_store::{Full, Limit, ScopeId};
use abc_heap_values::Value;
use abc_objects::Arena;
use abc_ops::OpEnd;

/// What a run changes: the heap, the frames, which scripts were started, and the first locals of a method that is entered,
/// which are made beside the frames.
#[derive(Drop)]
pub struct State {
    pub arena: Arena,
    pub frames: Frames,
    pub started: Table<bool>,
    pub given: Pile<Value>,
}

/// Why a step goes no further.
#[derive(Clone, Copy)]
pub enum Stop {
    /// This value is thrown.
    Throws(Value),
    /// A new error of this class is thrown.
    Errs(HostClass),
    /// The profile leaves it out, which ends the run.
    Faults(Fault),
    /// A limit is reached, which ends the run.
    Fills(Limit),
}

/// What becomes of the operands that an instruction takes, so many, and of what comes: it is pushed in their place, or dropped.
#[derive(Clone, Copy)]
pub enum How {
    Push(u32),
    Drop(u32),
}

/// How an instruction leaves its frame.
#[derive(Clone, Copy)]
pub enum Left {
    /// It goes on, or another frame is above it.
    Goes,
    /// It returns this.
    Returns(Value),
    /// The texts of its top operands, so many, are to be made and written as a line, and then undefined comes.
    Traces { count: u32, how: How },
    /// A formula of the host is to be asked, with its top operands, so many, and what it gives comes.
    Asks { formula: u32, count: u32, how: How },
}

/// Where a method runs: its home script, by its index in the file, and its saved scope.
#[derive(Clone, Copy)]
pub struct Place {
    pub home: u32,
    pub saved: Option<ScopeId>,
}

impl From<Full> for Stop {
    ghost use Rattle.std.specs.Prelude.{◌≡◌};
    ghost use Rattle.abc_run_state.specs.Stops.{stop_of_full};

    ghost from_gives = { λ full stop. stop ≡ stop_of_full full };

    fn from(full: Full) -> Stop {
        Stop::Fills(full.0)
    }
}

impl From<OpEnd> for Stop {
    ghost use Rattle.std.specs.Prelude.{◌≡◌};
    ghost use Rattle.abc_run_state.specs.Stops.{stop_of_end};

    ghost from_gives = { λ end stop. stop ≡ stop_of_end end };

    fn from(end: OpEnd) -> Stop {
        match end {
            OpEnd::Profile(fault) => Stop::Faults(fault),
            OpEnd::Full(limit) => Stop::Fills(limit),
            OpEnd::Throw(class) => Stop::Errs(class),
        }
    }
}
