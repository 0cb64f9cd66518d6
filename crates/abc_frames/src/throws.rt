ghost use Rattle.std.specs.Prelude.{◌≡◌, ◌<◌, ℕ, length, nat_lt};
ghost use Rattle.abc_frames.specs.Frame.{Frame};
ghost use Rattle.abc_frames.specs.Throws.{CanCatch, Targets, sizes_left, unwound};

use crate::frames::Frames;
use abc_heap_values::Value;

/// What tells where a value that is thrown is caught.
pub trait Handlers {
    /// Where a method goes on from a place, if it catches there.
    ghost targets: { Self → Targets };

    /// The instruction at which a method goes on, if it catches at a place.
    fn target(&self, method: u32, place: u32) -> Option<u32>
        ensures { result ≡ targets self.now method place };
}

/// Goes on at the handler of the newest frame that has one, and leaves the frames above it; or leaves all. It says whether a
/// frame is left over.
pub fn unwind<H: Handlers>(frames: &mut Frames, handlers: &H, v: Value) -> bool
    requires { CanCatch (H.targets handlers.now) frames.old.living frames.old.sizes }
    ensures living { frames.new.living ≡ unwound (H.targets handlers.now) v frames.old.living }
    ensures sizes { frames.new.sizes
        ≡ sizes_left (H.targets handlers.now) frames.old.living frames.old.sizes }
    ensures limits { (frames.new.frame_limit ≡ frames.old.frame_limit)
        × (frames.new.value_limit ≡ frames.old.value_limit) }
    ensures caught { result ≡ nat_lt 0 (length frames.new.living) }
{
    while frames.depth() > 0 {
        match handlers.target(frames.method(), frames.place()) {
            Some(target) => {
                frames.catch_at(v, target);
                return true;
            }
            None => frames.leave(),
        }
    }
    false
}
