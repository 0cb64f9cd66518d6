ghost use Rattle.std.specs.Prelude.{◌≡◌, ◌<◌, ◌≤◌, MatchResult, length};
ghost use Rattle.abc_run_state.specs.Pairs.{with_operands};
ghost use Rattle.abc_run_finish.specs.Turned.{turned_at};
ghost use Rattle.abc_frames.specs.Frame.{newest};
ghost use Rattle.abc_run_state.specs.Outer.{Outer, setting_in, world};
ghost use Rattle.abc_run_state.specs.Standing.{IsSet};
ghost use Rattle.abc_run_state.specs.Stops.{why};
ghost use Rattle.abc_meaning.specs.Ops.{converts};
ghost use Rattle.abc_meaning.specs.World.{Stopped, Went};

use abc_heap_values::Conversion;
use abc_link::Linked;
use abc_run_state::{State, Stop, convert, operand};

/// Each of the top operands, so many, becomes what a conversion makes of it, the deepest first.
pub(crate) fn convert_arguments(
    linked: &Linked,
    s: &mut State,
    to: Conversion,
    count: u32,
) -> Result<(), Stop>
    ghost out: { Outer }
    requires set { IsSet linked.now s.old }
    requires live { 0 < length s.old.frames.living }
    requires operands { count ≤ length (newest s.old.frames).stack }
    ensures part { MatchResult result (λ _. turned_at (converts (setting_in linked.now out) to) count
        (newest s.old.frames).stack (world s.old out)
        ≡ Went (world s.new out) (newest s.new.frames).stack) (λ e. turned_at
        (converts (setting_in linked.now out) to) count (newest s.old.frames).stack (world s.old out)
        ≡ Stopped (world s.new out) (why e)) }
    ensures frames { s.new.frames ≡ with_operands (newest s.new.frames).stack s.old.frames }
    ensures set { IsSet linked.now s.new }
    ensures limit { s.new.given.limit ≡ s.old.given.limit }
{
    let mut left = count;
    while left > 0 {
        left -= 1;
        let v = operand(&s.frames, left);
        let made = convert(linked, s, to, v)?;
        s.frames.set_operand(left, made);
    }
    Ok(())
}
