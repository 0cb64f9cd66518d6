ghost use Rattle.std.specs.Prelude.{◌≡◌, ◌+◌, ◌≤◌, ◌<◌, ◌^◌, Ok};
ghost use Rattle.abc_heap_values.specs.declared.values.Value.TheVariants.{Obj};
ghost use Rattle.abc_frames.specs.Ready.{HasFrameRoom};
ghost use Rattle.abc_objects.specs.Values.{Exists};
ghost use Rattle.abc_frames.specs.Frame.{newest};
ghost use Rattle.abc_run_state.specs.Outer.{Outer, setting_in, world};
ghost use Rattle.abc_run_state.specs.Settling.{given_by_how, taken_by};
ghost use Rattle.abc_run_state.specs.Standing.{IsSet};
ghost use Rattle.abc_run_state.specs.Stops.{IsOpen};
ghost use Rattle.abc_run_state.specs.declared.state.Left.TheVariants.{Goes};
ghost use Rattle.abc_run_members.specs.Members.{IsFoundThere, calls_found, calls_value_found, constructs_found, constructs_getter, constructs_value, enters_found, reads_found, reads_value};
ghost use Rattle.abc_run_calls.specs.Doing.{CanDo, Dispatches, DoesOrLeaves};
ghost use Rattle.abc_run_state.specs.Doing.{Does, DoesIf};

use crate::values::{value_found, value_of};
use abc_base::Fault;
use abc_frames::Wait;
use abc_heap_values::{ObjId, Value};
use abc_link::Linked;
use abc_objects::Found;
use abc_run_calls::{call, enter_owned, enters_on_object, make, waiting};
use abc_run_state::{How, Left, State, Stop, goes, settle};

/// Enters a method of an owner on an object, with so many arguments. The object is one, since the method was found on it.
#[inline(always)]
pub(crate) fn enter_on(
    linked: &Linked,
    s: &mut State,
    method: u32,
    v: Value,
    count: u32,
    how: How,
) -> Result<(), Stop>
    ghost out: { Outer }
    requires can { CanDo linked.now out (λ p. enters_found p method v count how) s.old }
    requires ready { HasFrameRoom (taken_by how) (given_by_how how) s.old.frames }
    requires count { count ≤ taken_by how }
    ensures { Does linked.now out (λ p. enters_found p method v count how) s.old result s.new }
{
    let (taken, wait) = waiting(how);
    enter_owned(linked, s, method, v, count, taken, wait)
}

/// Reads the value that was found, which settles at once.
#[inline(always)]
fn read_value(linked: &Linked, s: &mut State, found: Found, v: Value, how: How) -> Result<(), Stop>
    ghost out: { Outer }
    requires set { IsSet linked.now s.old }
    requires ready { HasFrameRoom (taken_by how) (given_by_how how) s.old.frames }
    requires value { Exists linked.now s.old.arena v }
    requires found { IsFoundThere linked.now s.old.arena found }
    requires free { IsOpen
        (reads_value (setting_in linked.now out) found v how (newest s.old.frames) (world s.old out)) }
    ensures { Does linked.now out (λ p. reads_value p found v how) s.old result s.new }
{
    let value = value_of(linked, s, found, v)?;
    settle(&mut s.frames, how, value);
    Ok(())
}

/// Reads what was found on a value.
#[inline(always)]
pub fn read_found(
    linked: &Linked,
    s: &mut State,
    found: Found,
    v: Value,
    how: How,
) -> Result<(), Stop>
    ghost out: { Outer }
    requires can { CanDo linked.now out (λ p. reads_found p found v how) s.old }
    requires ready { HasFrameRoom (taken_by how) (given_by_how how) s.old.frames }
    requires value { Exists linked.now s.old.arena v }
    requires found { IsFoundThere linked.now s.old.arena found }
    ensures { Does linked.now out (λ p. reads_found p found v how) s.old result s.new }
{
    match found {
        Found::Getter(method) => enter_on(linked, s, method, v, 0, how),
        _ => read_value(linked, s, found, v, how),
    }
}

/// Calls a method of an owner on an object, with so many arguments.
#[inline(always)]
fn call_method(
    linked: &Linked,
    s: &mut State,
    method: u32,
    v: Value,
    count: u32,
    how: How,
) -> Result<Left, Stop>
    ghost out: { Outer }
    requires can { CanDo linked.now out (λ p. enters_found p method v count how) s.old }
    requires ready { HasFrameRoom (taken_by how) (given_by_how how) s.old.frames }
    requires count { count ≤ taken_by how }
    ensures { DoesOrLeaves linked.now out (λ p. enters_found p method v count how) s.old result s.new }
{
    enter_on(linked, s, method, v, count, how)?;
    Ok(Left::Goes)
}

/// Enters a method of an owner on an object, with so many arguments, where nothing has to be made for it: whether it is done; else
/// nothing is.
#[inline(always)]
fn enters_object(
    linked: &Linked,
    s: &mut State,
    method: u32,
    o: ObjId,
    count: u32,
    how: How,
) -> bool
    ghost out: { Outer }
    requires set { IsSet linked.now s.old }
    requires ready { HasFrameRoom (taken_by how) (given_by_how how) s.old.frames }
    requires free { IsOpen (enters_found (setting_in linked.now out) method (Obj o) count how
        (newest s.old.frames) (world s.old out)) }
    ensures { DoesIf result linked.now out (λ p. enters_found p method (Obj o) count how) s.old s.new }
{
    let (taken, wait) = waiting(how);
    enters_on_object(linked, s, method, o, count, taken, wait)
}

/// Calls a method of an owner on an object, with so many arguments, for which something has to be made. It answers whether the frame goes
/// on; else `left` says why not.
#[inline(never)]
fn enter_slowly(
    linked: &Linked,
    s: &mut State,
    method: u32,
    o: ObjId,
    count: u32,
    how: How,
    left: &mut Result<Left, Stop>,
) -> bool
    ghost out: { Outer }
    requires can { CanDo linked.now out (λ p. enters_found p method (Obj o) count how) s.old }
    requires ready { HasFrameRoom (taken_by how) (given_by_how how) s.old.frames }
    requires count { count ≤ taken_by how }
    requires none { left.old ≡ Ok Goes }
    ensures { Dispatches linked.now out (λ p. enters_found p method (Obj o) count how) s.old result left.new
        s.new }
{
    goes(enter_on(linked, s, method, Value::Obj(o), count, how), left)
}

/// Calls a method of an owner on an object, with so many arguments. It answers whether the frame goes on; else `left` says why not.
#[inline(always)]
pub fn call_object_method(
    linked: &Linked,
    s: &mut State,
    method: u32,
    o: ObjId,
    count: u32,
    how: How,
    left: &mut Result<Left, Stop>,
) -> bool
    ghost out: { Outer }
    requires can { CanDo linked.now out (λ p. enters_found p method (Obj o) count how) s.old }
    requires ready { HasFrameRoom (taken_by how) (given_by_how how) s.old.frames }
    requires count { count ≤ taken_by how }
    requires none { left.old ≡ Ok Goes }
    ensures { Dispatches linked.now out (λ p. enters_found p method (Obj o) count how) s.old result left.new
        s.new }
{
    if enters_object(linked, s, method, o, count, how) {
        return true;
    }
    enter_slowly(linked, s, method, o, count, how, left)
}

/// Calls the value that was found, with so many arguments.
fn call_value_found(
    linked: &Linked,
    s: &mut State,
    found: Found,
    v: Value,
    receiver: Value,
    count: u32,
    how: How,
) -> Result<Left, Stop>
    ghost out: { Outer }
    requires can { CanDo linked.now out (λ p. calls_value_found p found v receiver count how) s.old }
    requires ready { HasFrameRoom (taken_by how) (given_by_how how) s.old.frames }
    requires count { count ≤ taken_by how }
    requires value { Exists linked.now s.old.arena v }
    requires found { IsFoundThere linked.now s.old.arena found }
    ensures { DoesOrLeaves linked.now out (λ p. calls_value_found p found v receiver count how) s.old result
        s.new }
{
    let callee = value_found(linked, s, found, v)?;
    call(linked, s, callee, receiver, count, how)
}

/// Calls what was found on a value, with so many arguments.
#[inline(always)]
pub fn call_found(
    linked: &Linked,
    s: &mut State,
    found: Found,
    v: Value,
    receiver: Value,
    count: u32,
    how: How,
) -> Result<Left, Stop>
    ghost out: { Outer }
    requires can { CanDo linked.now out (λ p. calls_found p found v receiver count how) s.old }
    requires ready { HasFrameRoom (taken_by how) (given_by_how how) s.old.frames }
    requires count { count ≤ taken_by how }
    requires value { Exists linked.now s.old.arena v }
    requires found { IsFoundThere linked.now s.old.arena found }
    ensures { DoesOrLeaves linked.now out (λ p. calls_found p found v receiver count how) s.old result s.new }
{
    match found {
        Found::Method { method, .. } => call_method(linked, s, method, v, count, how),
        Found::Getter(_) => Err(Stop::Faults(Fault::GetterCall)),
        _ => call_value_found(linked, s, found, v, receiver, count, how),
    }
}

/// Does `new` on what a getter returns, with the arguments that stay on the stack: the operands under them leave.
fn construct_getter(
    linked: &Linked,
    s: &mut State,
    method: u32,
    v: Value,
    under: u32,
    count: u32,
) -> Result<(), Stop>
    ghost out: { Outer }
    requires can { CanDo linked.now out (λ p. constructs_getter p method v under count) s.old }
    requires ready { HasFrameRoom (count + under) 1 s.old.frames }
    ensures { Does linked.now out (λ p. constructs_getter p method v under count) s.old result s.new }
{
    s.frames.drop_under(count, under);
    enter_owned(linked, s, method, v, 0, 0, Wait::New(count))
}

/// Does `new` on the value that was found, with so many arguments.
fn construct_value(
    linked: &Linked,
    s: &mut State,
    found: Found,
    v: Value,
    under: u32,
    count: u32,
) -> Result<(), Stop>
    ghost out: { Outer }
    requires can { CanDo linked.now out (λ p. constructs_value p found v under count) s.old }
    requires ready { HasFrameRoom (count + under) 1 s.old.frames }
    requires few { count + under < 2 ^ 32 }
    requires value { Exists linked.now s.old.arena v }
    requires found { IsFoundThere linked.now s.old.arena found }
    ensures { Does linked.now out (λ p. constructs_value p found v under count) s.old result s.new }
{
    let of = value_of(linked, s, found, v)?;
    make(linked, s, of, count, How::Push(count + under))
}

/// Does `new` on what was found on a value, with so many arguments.
pub(crate) fn construct_found(
    linked: &Linked,
    s: &mut State,
    found: Found,
    v: Value,
    under: u32,
    count: u32,
) -> Result<(), Stop>
    ghost out: { Outer }
    requires can { CanDo linked.now out (λ p. constructs_found p found v under count) s.old }
    requires ready { HasFrameRoom (count + under) 1 s.old.frames }
    requires few { count + under < 2 ^ 32 }
    requires value { Exists linked.now s.old.arena v }
    requires found { IsFoundThere linked.now s.old.arena found }
    ensures { Does linked.now out (λ p. constructs_found p found v under count) s.old result s.new }
{
    match found {
        Found::Getter(method) => construct_getter(linked, s, method, v, under, count),
        _ => construct_value(linked, s, found, v, under, count),
    }
}
