ghost use Rattle.std.specs.Prelude.{◌≡◌, length};
ghost use Rattle.abc_frames.specs.Frame.{no_frames};

use abc_frames::Frames;
use abc_run_state::State;

/// Leaves all frames.
fn leave_all(frames: &mut Frames)
    ensures { length frames.old.sizes ≡ length frames.old.living
        → frames.new ≡ no_frames frames.old.frame_limit frames.old.value_limit }
{
    for k in 0..frames.depth() {
        let _ = k;
        frames.leave();
    }
}

/// Drops all frames, and gives back their room. Nothing else changes.
pub fn drop_frames(s: &mut State)
    ensures drops { length s.old.frames.sizes ≡ length s.old.frames.living
        → s.new ≡ record s.old { frames = no_frames s.old.frames.frame_limit s.old.frames.value_limit } }
    ensures heap { s.new.arena ≡ s.old.arena }
{
    leave_all(&mut s.frames);
}
