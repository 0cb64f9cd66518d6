ghost use Rattle.std.specs.Prelude.{◌≡◌, ◌<◌, length};
ghost use Rattle.abc_heap_store.specs.Heap.{Heap};
ghost use Rattle.abc_objects.specs.Stands.{EachAt};
ghost use Rattle.abc_objects.specs.Values.{Exists};
ghost use Rattle.abc_link_names.specs.Linked.{LinkedFile};
ghost use Rattle.abc_frames.specs.Frame.{newest};
ghost use Rattle.abc_run_state.specs.Operands.{local_at, operand_at};

use abc_frames::Frames;
use abc_heap_values::Value;

/// The n-th operand of the newest frame, from the top.
#[inline]
#[tactic(auto, using(crate::proofs::Places::operand_is))]
pub fn operand(frames: &Frames, n: u32) -> Value
    requires { n < length (newest frames.now).stack }
    ensures is { result ≡ operand_at n (newest frames.now) }
    ensures there { (l : LinkedFile) (h : Heap) → EachAt (Exists l h) (newest frames.now).stack
        → Exists l h result }
{
    frames.operand(n)
}

/// A local of the newest frame.
#[inline]
#[tactic(auto, using(crate::proofs::Places::local_is))]
pub fn local(frames: &Frames, n: u32) -> Value
    requires { n < length (newest frames.now).locals }
    ensures is { result ≡ local_at n (newest frames.now) }
    ensures there { (l : LinkedFile) (h : Heap) → EachAt (Exists l h) (newest frames.now).locals
        → Exists l h result }
{
    frames.local(n)
}
