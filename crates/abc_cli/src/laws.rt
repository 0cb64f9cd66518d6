ghost use Rattle.abc_cli.specs.Answered.{IsOneOutcome, IsSomeOutcome};

use abc_meaning_sound::verified_files_never_stick;
use abc_session::ticks_can_be_told;

/// The words, the formulas of a host and the input have one outcome: two answers that the definitions allow are equal, or both
/// refuse one method of the file that a command verifies, the first without a typing, each by a place and a rule that refute it.
pub fn one_outcome()
    ensures { IsOneOutcome }
{}

/// The words, the formulas of a host and the input have an outcome.
pub fn some_outcome()
    ensures { IsSomeOutcome }
{
    verified_files_never_stick();
    ticks_can_be_told();
}
