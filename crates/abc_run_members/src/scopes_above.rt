ghost use Rattle.std.specs.Prelude.{◌≡◌, ◌<◌, length};
ghost use Rattle.abc_heap_store.specs.Texts.{IsText};
ghost use Rattle.abc_frames.specs.Frame.{newest};
ghost use Rattle.abc_run_state.specs.Outer.{Outer, setting_in, world};
ghost use Rattle.abc_run_state.specs.Standing.{IsSet};
ghost use Rattle.abc_run_members.specs.Found.{IsScopeThere, found_from_scopes as found_in_frame};

use abc_link::Linked;
use abc_lookup::find_in_scopes;
use abc_objects::{Name, ScopeFound, place_is_the_first};
use abc_run_state::State;

/// Where a name is found among the scopes of the newest frame.
pub fn find_here(linked: &Linked, s: &State, name: &Name) -> ScopeFound
    requires set { IsSet linked.now s.now }
    requires live { 0 < length s.now.frames.living }
    requires name { IsText linked.now.file.strings s.now.arena name.now.text }
    ensures is { (out : Outer)
        → result
        ≡ found_in_frame (setting_in linked.now out) (newest s.now.frames) name.now (world s.now out) }
    ensures there { IsScopeThere linked.now s.now.arena result }
{
    place_is_the_first();
    find_in_scopes(
        linked,
        &s.arena,
        s.frames.scopes(),
        s.frames.saved(),
        &s.started,
        name,
    )
}
