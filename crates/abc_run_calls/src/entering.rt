ghost use Rattle.std.specs.Prelude.{◌≡◌, ◌<◌, ◌≤◌, ◌∷◌, length, drop, OnOk};
ghost use Rattle.abc_heap_values.specs.declared.values.Value.TheVariants.{Obj};
ghost use Rattle.abc_frames.specs.Frame.{arguments as operands, newest};
ghost use Rattle.abc_run_state.specs.Outer.{Outer, setting_in, world};
ghost use Rattle.abc_run_state.specs.Standing.{IsSet};
ghost use Rattle.abc_run_state.specs.Stops.{IsOpen, part_outcome};
ghost use Rattle.abc_run_state.specs.Turns.{IsDoneIf};
ghost use Rattle.abc_run_calls.specs.Arguments.{HasArgumentRoom, Makes, makes_arguments, first_receiver, with_values};
ghost use Rattle.abc_run_calls.specs.Entering.{enters_above, enters_owned_above, place_in_meaning, puts_on, starts_above};
ghost use Rattle.abc_run_state.specs.Doing.{Does};
ghost use Rattle.abc_run_calls.specs.Doing.{CanDo};

use crate::arguments::{array_of, coerce_arguments, give};
use crate::keeping::{enters_in_place, is_in_place};
use crate::methods::{entry_of, may_take, method_at};
use crate::places::{global_of, place_of_owner};
use abc_base::HostClass;
use abc_frames::{Wait, try_enter_with};
use abc_heap_values::{ObjId, Value};
use abc_link::Linked;
use abc_run_state::{Place, State, Stop};

/// Makes the first locals of a method: its receiver, and its arguments, of which so many are given on top of the operands.
#[inline(always)]
pub fn prepare(
    linked: &Linked,
    s: &mut State,
    method: u32,
    this: Value,
    count: u32,
) -> Result<(), Stop>
    ghost out: { Outer }
    requires set { IsSet linked.now s.old }
    requires known { HasArgumentRoom linked.now s.old.given.limit }
    requires there { count ≤ length (newest s.old.frames).stack }
    requires free { IsOpen (makes_arguments (setting_in linked.now out) method
        (operands count (newest s.old.frames)) (world s.old out)) }
    ensures part { makes_arguments (setting_in linked.now out) method (operands count (newest s.old.frames))
        (world s.old out)
        ≡ part_outcome (with_values result (drop 1 s.new.given.items)) (world s.new out) }
    ensures makes { Makes linked.now s.old s.new }
    ensures given { OnOk result ((s.new.given.items ≡ this ∷ drop 1 s.new.given.items)
        × (length s.new.given.items < s.new.given.limit)) }
{
    let signature = method_at(linked, method);
    if !may_take(signature, count) {
        return Err(Stop::Errs(HostClass::ArgumentError));
    }
    s.given.cut(0);
    s.given.push(this);
    coerce_arguments(linked, s, signature, count)
}

/// A method whose first locals are made is put on top, with the array that it may take of so many arguments, which are on top of
/// the operands. Its room is taken last of all.
#[inline(always)]
pub fn put_on(
    linked: &Linked,
    s: &mut State,
    method: u32,
    at: Place,
    count: u32,
    taken: u32,
    wait: Wait,
) -> Result<(), Stop>
    ghost out: { Outer }
    requires set { IsSet linked.now s.old }
    requires live { 0 < length s.old.frames.living }
    requires there { count ≤ length (newest s.old.frames).stack }
    requires taken { taken ≤ length (newest s.old.frames).stack }
    requires given { 0 < length s.old.given.items }
    requires room { length s.old.given.items < s.old.given.limit }
    requires free { IsOpen (puts_on (setting_in linked.now out) method (place_in_meaning at)
        (first_receiver s.old.given.items) (drop 1 s.old.given.items) count taken wait
        (newest s.old.frames) (world s.old out)) }
    ensures { Does linked.now out (λ p. puts_on p method (place_in_meaning at)
        (first_receiver s.old.given.items) (drop 1 s.old.given.items) count taken wait) s.old result
        s.new }
{
    let array = array_of(linked, s, method_at(linked, method), count)?;
    give(&mut s.given, array);
    let entry = entry_of(linked, method, at);
    try_enter_with(&mut s.frames, entry, s.given.as_slice(), taken, wait)?;
    Ok(())
}

/// The same as `enter`, with the first locals made beside the frames.
#[inline(never)]
fn enter_prepared(
    linked: &Linked,
    s: &mut State,
    method: u32,
    this: Value,
    at: Place,
    count: u32,
    taken: u32,
    wait: Wait,
) -> Result<(), Stop>
    ghost out: { Outer }
    requires can { CanDo linked.now out
        (λ p. enters_above p method this (place_in_meaning at) count taken wait) s.old }
    requires live { 0 < length s.old.frames.living }
    requires there { count ≤ length (newest s.old.frames).stack }
    requires taken { taken ≤ length (newest s.old.frames).stack }
    ensures { Does linked.now out (λ p. enters_above p method this (place_in_meaning at) count taken wait)
        s.old result s.new }
{
    prepare(linked, s, method, this, count)?;
    put_on(linked, s, method, at, count, taken, wait)
}

/// Enters a method with so many arguments, where its first locals are operands as they stand, and there is room: whether it is done;
/// else nothing is.
#[inline(always)]
fn enters_at_once(
    linked: &Linked,
    s: &mut State,
    method: u32,
    this: Value,
    at: Place,
    count: u32,
    taken: u32,
    wait: Wait,
) -> bool
    ghost out: { Outer }
    requires live { 0 < length s.old.frames.living }
    requires taken { taken ≤ length (newest s.old.frames).stack }
    requires free { IsOpen (enters_above (setting_in linked.now out) method this (place_in_meaning at) count
        taken wait (newest s.old.frames) (world s.old out)) }
    ensures { IsDoneIf result linked.now out (enters_above (setting_in linked.now out) method this
        (place_in_meaning at) count taken wait (newest s.old.frames)) s.old s.new }
{
    let signature = method_at(linked, method);
    if !is_in_place(linked, &s.frames, signature, this, count, taken) {
        return false;
    }
    enters_in_place(linked, s, signature, method, this, at, count, taken, wait)
}

/// Enters a method with so many arguments, which are on top of the operands. So many operands leave the frame, which waits.
/// Most often the first locals are operands as they stand.
#[inline(always)]
pub fn enter(
    linked: &Linked,
    s: &mut State,
    method: u32,
    this: Value,
    at: Place,
    count: u32,
    taken: u32,
    wait: Wait,
) -> Result<(), Stop>
    ghost out: { Outer }
    requires can { CanDo linked.now out
        (λ p. enters_above p method this (place_in_meaning at) count taken wait) s.old }
    requires live { 0 < length s.old.frames.living }
    requires there { count ≤ length (newest s.old.frames).stack }
    requires taken { taken ≤ length (newest s.old.frames).stack }
    ensures { Does linked.now out (λ p. enters_above p method this (place_in_meaning at) count taken wait)
        s.old result s.new }
{
    if enters_at_once(linked, s, method, this, at, count, taken, wait) {
        return Ok(());
    }
    enter_prepared(linked, s, method, this, at, count, taken, wait)
}

/// Enters a method of an owner, where its owner keeps it.
#[inline(never)]
pub fn enter_owned(
    linked: &Linked,
    s: &mut State,
    method: u32,
    this: Value,
    count: u32,
    taken: u32,
    wait: Wait,
) -> Result<(), Stop>
    ghost out: { Outer }
    requires can { CanDo linked.now out (λ p. enters_owned_above p method this count taken wait) s.old }
    requires live { 0 < length s.old.frames.living }
    requires there { count ≤ length (newest s.old.frames).stack }
    requires taken { taken ≤ length (newest s.old.frames).stack }
    ensures { Does linked.now out (λ p. enters_owned_above p method this count taken wait) s.old result
        s.new }
{
    let at = place_of_owner(linked, s, linked.owner(method));
    enter(linked, s, method, this, at, count, taken, wait)
}

/// Enters a method of an owner on an object, where its first locals are operands as they stand, and there is room: whether it is done;
/// else nothing is. (That is most often so: it stands in line where it is called, and hands nothing on through memory.)
#[inline(always)]
pub fn enters_on_object(
    linked: &Linked,
    s: &mut State,
    method: u32,
    o: ObjId,
    count: u32,
    taken: u32,
    wait: Wait,
) -> bool
    ghost out: { Outer }
    requires set { IsSet linked.now s.old }
    requires live { 0 < length s.old.frames.living }
    requires taken { taken ≤ length (newest s.old.frames).stack }
    requires free { IsOpen (enters_owned_above (setting_in linked.now out) method (Obj o) count taken wait
        (newest s.old.frames) (world s.old out)) }
    ensures { IsDoneIf result linked.now out
        (enters_owned_above (setting_in linked.now out) method (Obj o) count taken wait (newest s.old.frames))
        s.old s.new }
{
    let at = place_of_owner(linked, s, linked.owner(method));
    enters_at_once(linked, s, method, Value::Obj(o), at, count, taken, wait)
}

/// Starts a script above the newest frame, which executes its instruction again after that. The script counts as started from
/// here on.
pub fn start_above(linked: &Linked, s: &mut State, script: u32) -> Result<(), Stop>
    ghost out: { Outer }
    requires can { CanDo linked.now out (λ p. starts_above p script) s.old }
    requires live { 0 < length s.old.frames.living }
    requires script { script < length linked.now.file.scripts }
    requires started { script < length s.old.started }
    ensures { Does linked.now out (λ p. starts_above p script) s.old result s.new }
{
    s.started.set(script as usize, true);
    let this = global_of(linked, s, script);
    let init = linked.abc().scripts.get(script as usize).init;
    let at = Place {
        home: script,
        saved: None,
    };
    enter(linked, s, init, this, at, 0, 0, Wait::Again)
}
