ghost use Rattle.std.specs.Prelude.{◌≡◌, ◌<◌, IsSome, Some, length};
ghost use Rattle.abc_link_names.specs.Owners.{body_of};
ghost use Rattle.abc_frames.specs.Frame.{newest};

use abc_link::Linked;
use abc_run_state::State;

/// The body of the newest frame's method.
pub(crate) fn body_here(linked: &Linked, s: &State) -> u32
    requires live { 0 < length s.now.frames.living }
    requires there { IsSome (body_of linked.now.file (newest s.now.frames).method) }
    ensures { body_of linked.now.file (newest s.now.frames).method ≡ Some result }
{
    match linked.body_of(s.frames.method()) {
        Some(body) => body,
        None => unreachable!(),
    }
}
