ghost use Rattle.std.specs.Prelude.{◌≡◌, ◌≤◌, ℕ, pos, negsuc, length, MatchOption};
ghost use Rattle.abc_base.specs.Ranges.{IsNumber};
ghost use Rattle.abc_frames.specs.Ready.{HasFrameRoom};
ghost use Rattle.abc_frames.specs.Frame.{arguments, newest};
ghost use Rattle.abc_run_state.specs.Outer.{Outer, setting_in, world};
ghost use Rattle.abc_run_state.specs.Settling.{given_by_how, taken_by};
ghost use Rattle.abc_run_state.specs.Standing.{IsSet, Stays};
ghost use Rattle.abc_run_state.specs.Stops.{part_outcome};
ghost use Rattle.abc_run_state.specs.Turns.{Runs};
ghost use Rattle.abc_meaning.specs.Making.{new_elements};
ghost use Rattle.abc_run_calls.specs.Calls.{makes_elements};

use abc_base::Fault;
use abc_heap_values::{ObjId, Value};
use abc_link::Linked;
use abc_run_state::{How, State, Stop, make_array, make_undefined, operand, settle};

/// The length that a number is, unless it is negative.
fn length_of(n: i64) -> Option<u32>
    requires { IsNumber n }
    ensures { MatchOption result ((k : ℕ) × (n ≡ negsuc k)) (λ k. n ≡ pos k) }
{
    if n < 0 { None } else { Some(n as u32) }
}

/// The array of `new` on Array: of so many arguments, but one that is a number is a length.
fn array_for(linked: &Linked, s: &mut State, count: u32) -> Result<ObjId, Stop>
    requires set { IsSet linked.now s.old }
    requires there { count ≤ length (newest s.old.frames).stack }
    ensures part { (out : Outer)
        → new_elements (setting_in linked.now out) (arguments count (newest s.old.frames)) (world s.old out)
        ≡ part_outcome result (world s.new out) }
    ensures stays { Stays linked.now s.old s.new }
{
    if count != 1 {
        return make_array(linked, s, count);
    }
    match operand(&s.frames, 0) {
        Value::Num(n) => match length_of(n) {
            Some(length) => make_undefined(linked, s, length),
            None => Err(Stop::Faults(Fault::ArrayIndex)),
        },
        _ => make_array(linked, s, 1),
    }
}

/// `new` on Array.
pub(crate) fn make_elements(
    linked: &Linked,
    s: &mut State,
    count: u32,
    how: How,
) -> Result<(), Stop>
    requires set { IsSet linked.now s.old }
    requires ready { HasFrameRoom (taken_by how) (given_by_how how) s.old.frames }
    requires count { count ≤ taken_by how }
    ensures runs { (out : Outer)
        → Runs linked.now out (makes_elements (setting_in linked.now out) count how (newest s.old.frames))
        s.old result s.new }
    ensures limit { s.new.given.limit ≡ s.old.given.limit }
{
    let made = array_for(linked, s, count)?;
    settle(&mut s.frames, how, Value::Obj(made));
    Ok(())
}
