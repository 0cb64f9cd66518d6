ghost use Rattle.abc_meaning_sound.specs.Placed.{CallsCanBeTold, FaultsArePlaced, RunsEndSound};
ghost use Rattle.abc_meaning.specs.ThrowLaws.{IsNeverStuck};

use crate::call_laws::{calls_leave_sound, runs_leave_sound};
use crate::run_laws::verified_files_never_stick;

/// The end of a run of a verified file can be told: it is never stuck, and where it is a fault of the profile, its method has a
/// body, and its place is the number of one of the instructions of that body.
pub fn ends_can_be_told()
    ensures never_stuck { IsNeverStuck }
    ensures placed { FaultsArePlaced }
{
    verified_files_never_stick();
}

/// What comes of a call of a verified file can be told in the same way, on what its run and the calls before left.
pub fn calls_can_be_told()
    ensures runs { RunsEndSound }
    ensures calls { CallsCanBeTold }
{
    runs_leave_sound();
    calls_leave_sound();
}
