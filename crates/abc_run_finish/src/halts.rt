ghost use Rattle.std.specs.Prelude.{◌≡◌};
ghost use Rattle.abc_run_finish.specs.Steps.{halted_as};

use crate::ended::Ended;
use abc_heap_values::Value;

/// Why a run goes no further.
#[derive(Clone, Copy)]
pub enum Halt {
    /// The last frame returned this: the run is done.
    Returns(Value),
    /// It ends otherwise.
    Ends(Ended),
    /// The sink failed.
    Fails,
}

/// How a step ends that doesn't return, if it does.
pub(crate) fn halted(ended: Result<(), Ended>) -> Result<(), Halt>
    ensures { result ≡ halted_as ended }
{
    match ended {
        Ok(()) => Ok(()),
        Err(ended) => Err(Halt::Ends(ended)),
    }
}
