ghost use Rattle.std.specs.Prelude.{◌≡◌, ◌+◌, ◌-◌, ◌<◌, ◌≤◌, true, Some, length, slice_get};
ghost use Rattle.abc_heap_values.specs.declared.values.Value.TheVariants.{Obj};
ghost use Rattle.abc_frames.specs.Frame.{newest};
ghost use Rattle.abc_run_state.specs.Operands.{operand_at};
ghost use Rattle.abc_run_state.specs.Outer.{Outer, setting_in, world};
ghost use Rattle.abc_run_state.specs.Stops.{IsOpen};
ghost use Rattle.abc_run_state.specs.Turns.{IsDoneIf};
ghost use Rattle.abc_run_calls.specs.Entering.{enters_above, place_in_meaning};
ghost use Rattle.abc_run_calls.specs.InPlace.{AreOfTypes, StandsInPlace};
ghost use Rattle.abc_run_state.specs.OfType.{IsOfNamed};

use crate::methods::{entry_of, takes_array};
use abc_file_types::Method;
use abc_frames::{Frames, Wait, try_enter};
use abc_heap_values::{ObjId, Value};
use abc_link::Linked;
use abc_run_state::{Place, State, is_of_named, operand};

/// Whether the k-th of so many arguments is what it is coerced to, a type of the file.
#[inline(always)]
fn is_argument_of(linked: &Linked, frames: &Frames, count: u32, k: usize, ty: u32) -> bool
    requires there { count ≤ length (newest frames.now).stack }
    requires within { k < count }
    ensures { result ≡ true → IsOfNamed linked.now ty (operand_at (count - 1 - k) (newest frames.now)) }
{
    is_of_named(linked, ty, operand(frames, count - 1 - k as u32))
}

/// Whether the arguments of a method, one for each parameter, are all what they are coerced to.
#[inline(always)]
fn are_of_types(linked: &Linked, frames: &Frames, method: &Method, count: u32) -> bool
    requires there { count ≤ length (newest frames.now).stack }
    requires many { length method.now.params ≡ count }
    ensures { result ≡ true → AreOfTypes linked.now method.now count (newest frames.now) }
{
    let types = method.params.as_slice();
    for (k, ty) in types.iter().enumerate() {
        if !is_argument_of(linked, frames, count, k, *ty) {
            return false;
        }
    }
    true
}

/// Whether a value is an object.
fn is_object(v: Value, o: ObjId) -> bool
    ensures { result ≡ true → v ≡ Obj o }
{
    match v {
        Value::Obj(x) => x.0 == o.0,
        _ => false,
    }
}

/// Whether the receiver, an object, stands under so many arguments.
#[inline(always)]
fn stands_under(frames: &Frames, count: u32, this: Value) -> bool
    requires { count < length (newest frames.now).stack }
    ensures { result ≡ true → operand_at count (newest frames.now) ≡ this }
{
    match this {
        Value::Obj(o) => is_object(operand(frames, count), o),
        _ => false,
    }
}

/// Whether all operands that leave are so many arguments, and one under them.
fn is_one_more(taken: u32, count: u32) -> bool
    ensures { result ≡ true → taken ≡ count + 1 }
{
    if taken <= count {
        return false;
    }
    if taken - count != 1 {
        return false;
    }
    true
}

/// Whether there is an argument for each parameter of a method.
fn has_all(method: &Method, count: u32) -> bool
    ensures { result ≡ true → length method.now.params ≡ count }
{
    if method.params.len() != count as usize {
        return false;
    }
    true
}

/// Whether the first locals of a method are operands as they stand: all that leave are its receiver and so many arguments above
/// it, one for each parameter, each of which is what it is coerced to.
#[inline(always)]
pub(crate) fn is_in_place(
    linked: &Linked,
    frames: &Frames,
    method: &Method,
    this: Value,
    count: u32,
    taken: u32,
) -> bool
    requires { taken ≤ length (newest frames.now).stack }
    ensures { result ≡ true → StandsInPlace linked.now method.now this count taken (newest frames.now) }
{
    if !is_one_more(taken, count) {
        return false;
    }
    if takes_array(method.flags) {
        return false;
    }
    if !has_all(method, count) {
        return false;
    }
    if !stands_under(frames, count, this) {
        return false;
    }
    are_of_types(linked, frames, method, count)
}

/// Enters a method whose first locals are operands as they stand, where there is room: these stay where they are. Whether it is
/// done; else nothing is.
#[inline(always)]
pub(crate) fn enters_in_place(
    linked: &Linked,
    s: &mut State,
    signature: &Method,
    method: u32,
    this: Value,
    at: Place,
    count: u32,
    taken: u32,
    wait: Wait,
) -> bool
    ghost out: { Outer }
    requires live { 0 < length s.old.frames.living }
    requires taken { taken ≤ length (newest s.old.frames).stack }
    requires signature { slice_get linked.now.file.methods method ≡ Some signature.now }
    requires in_place { StandsInPlace linked.now signature.now this count taken (newest s.old.frames) }
    requires free { IsOpen (enters_above (setting_in linked.now out) method this (place_in_meaning at) count
        taken wait (newest s.old.frames) (world s.old out)) }
    ensures { IsDoneIf result linked.now out (enters_above (setting_in linked.now out) method this
        (place_in_meaning at) count taken wait (newest s.old.frames)) s.old s.new }
{
    let _ = signature;
    let _ = this;
    let _ = count;
    let entry = entry_of(linked, method, at);
    match try_enter(&mut s.frames, entry, taken, 0, wait) {
        Ok(()) => true,
        Err(_) => false,
    }
}
