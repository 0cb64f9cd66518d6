ghost use Rattle.std.specs.Prelude.{◌≡◌, ◌<◌, ◌≤◌, ◌+◌, ◌^◌, length};
ghost use Rattle.abc_frames.specs.Frame.{newest, newest_size, with_newest};
ghost use Rattle.abc_frames.specs.Moves.{makes_of, after_return};
ghost use Rattle.abc_frames.specs.Ready.{put_by};

use crate::frames::Frames;
use crate::records::Wait;
use abc_heap_values::Value;

/// Goes on in the newest frame, which waited, with what returns. Where it is to make an object of that, it says with how many
/// arguments, which are on its stack.
pub fn resume(frames: &mut Frames, v: Value) -> Option<u32>
    requires live { 0 < length frames.old.living }
    requires room { length (newest frames.old).stack + put_by (newest frames.old).wait
        ≤ (newest_size frames.old).stack }
    requires place { (newest frames.old).place + 1 < 2 ^ 32 }
    ensures makes { result ≡ makes_of (newest frames.old).wait }
    ensures frames { frames.new ≡ with_newest (after_return v) frames.old }
{
    let place = frames.place();
    match frames.take_wait() {
        Wait::Push => {
            frames.push(v);
            frames.go(place + 1);
            None
        }
        Wait::Keep(kept) => {
            frames.push(kept);
            frames.go(place + 1);
            None
        }
        Wait::Drop => {
            frames.go(place + 1);
            None
        }
        Wait::Again => None,
        Wait::New(count) => Some(count),
        Wait::Not => None,
    }
}
