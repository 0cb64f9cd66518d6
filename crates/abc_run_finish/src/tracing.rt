ghost use Rattle.std.specs.Prelude.{◌≡◌, ◌≤◌};
ghost use Rattle.abc_base.specs.Faults.{Rose};
ghost use Rattle.abc_frames.specs.Ready.{HasFrameRoom};
ghost use Rattle.abc_run_finish.specs.Outward.{TracesAs};
ghost use Rattle.abc_run_finish.specs.declared.outward_halts.Unwritten.TheVariants.{Fails};
ghost use Rattle.abc_run_state.specs.Outer.{Outer};
ghost use Rattle.abc_run_state.specs.Settling.{given_by_how, taken_by};
ghost use Rattle.abc_run_state.specs.Standing.{IsSet};

use crate::outward_arguments::convert_arguments;
use crate::outward_halts::Unwritten;
use abc_base::Sink;
use abc_heap_values::{Conversion, Value};
use abc_link::Linked;
use abc_objects::write_line;
use abc_run_state::{How, State, settle};

/// The texts of the top operands, so many, are made and then written as a line, and undefined comes. It answers `Fails` where
/// the sink failed, after a front of the line; then the texts are made.
pub fn trace<K: Sink>(
    linked: &Linked,
    s: &mut State,
    sink: &mut K,
    count: u32,
    how: How,
) -> Result<(), Unwritten>
    ghost out: { Outer }
    requires set { IsSet linked.now s.old }
    requires ready { HasFrameRoom (taken_by how) (given_by_how how) s.old.frames }
    requires count { count ≤ taken_by how }
    ensures traces { TracesAs linked.now out count how s.old result s.new (K.written sink.old)
        (K.written sink.new) }
    ensures later { K.faults sink.old ≤ K.faults sink.new }
    ensures cause { result ≡ Err Fails → Rose (K.faults sink.old) (K.faults sink.new) }
    ensures limit { s.new.given.limit ≡ s.old.given.limit }
{
    if let Err(stop) = convert_arguments(linked, s, Conversion::ConvertS, count) {
        return Err(Unwritten::Stops(stop));
    }
    let texts = s.frames.arguments(count);
    match write_line(sink, linked, &s.arena, texts) {
        Ok(()) => {
            settle(&mut s.frames, how, Value::Undefined);
            Ok(())
        }
        Err(_) => Err(Unwritten::Fails),
    }
}
