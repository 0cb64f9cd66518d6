ghost use Rattle.std.specs.Prelude.{◌≡◌};
ghost use Rattle.abc_frames.specs.Frame.{newest};
ghost use Rattle.abc_frames.specs.Ready.{HasFrameRoom};
ghost use Rattle.abc_run_state.specs.Turns.{on_top};
ghost use Rattle.abc_run_state.specs.Settling.{given_by_how, after_settling, taken_by};

use crate::state::How;
use abc_frames::{Frames, drop_and_go, finish};
use abc_heap_values::Value;

/// What came at once is pushed in place of the operands that are taken, or dropped with them.
#[inline(always)]
pub fn settle(frames: &mut Frames, how: How, v: Value)
    requires { HasFrameRoom (taken_by how) (given_by_how how) frames.old }
    ensures { frames.new ≡ on_top (after_settling how v (newest frames.old)) frames.old }
{
    match how {
        How::Push(taken) => finish(frames, taken, v),
        How::Drop(taken) => drop_and_go(frames, taken),
    }
}
