ghost use Rattle.abc_session.specs.Laws.{TicksCanBeTold};

use abc_meaning_sound::{calls_can_be_told, ends_can_be_told};

/// How a run of a verified file and the calls after it end can be told: they are never stuck, and where the end is a fault of the
/// profile, its place is the number of one of the instructions of its method's body.
pub fn ticks_can_be_told()
    ensures { TicksCanBeTold }
{
    ends_can_be_told();
    calls_can_be_told();
}
