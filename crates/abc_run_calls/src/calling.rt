ghost use Rattle.std.specs.Prelude.{◌≡◌, ◌<◌, ◌≤◌, length};
ghost use Rattle.abc_frames.specs.Ready.{HasFrameRoom};
ghost use Rattle.abc_objects.specs.Stands.{NamesParts, StandsOver};
ghost use Rattle.abc_objects.specs.Values.{Exists};
ghost use Rattle.abc_run_calls.specs.Entering.{place_in_meaning};
ghost use Rattle.abc_run_state.specs.Outer.{Outer, world};
ghost use Rattle.abc_run_state.specs.Settling.{given_by_how, taken_by, wait_of};
ghost use Rattle.abc_meaning.specs.Calling.{this_of as this_so};
ghost use Rattle.abc_run_calls.specs.Calls.{calls_object, calls_value, enters_settled};
ghost use Rattle.abc_run_state.specs.Doing.{Does};
ghost use Rattle.abc_run_calls.specs.Doing.{CanDo, DoesOrLeaves};

use crate::entering::enter;
use crate::hosts::call_class;
use crate::places::global_of;
use abc_base::HostClass;
use abc_frames::Wait;
use abc_heap_store::What;
use abc_heap_values::{ObjId, Value};
use abc_link::Linked;
use abc_run_state::{How, Left, Place, State, Stop, class_type, host_type};

/// The receiver of a function: one that is bound ignores the receiver given, and to another null and undefined are the global
/// object of its script.
fn this_of(linked: &Linked, s: &State, bound: Option<ObjId>, home: u32, receiver: Value) -> Value
    requires over { StandsOver linked.now s.now.arena }
    requires home { home < length linked.now.file.scripts }
    ensures { (out : Outer) → result ≡ this_so bound home receiver (world s.now out) }
{
    match bound {
        Some(o) => Value::Obj(o),
        None => match receiver {
            Value::Undefined => global_of(linked, s, home),
            Value::Null => global_of(linked, s, home),
            Value::Num(_) => receiver,
            Value::Bool(_) => receiver,
            Value::Text(_) => receiver,
            Value::Space(_) => receiver,
            Value::Obj(_) => receiver,
        },
    }
}

/// How many operands leave, and how the frame waits for what a method returns.
pub fn waiting(how: How) -> (u32, Wait)
    ensures taken { result.0 ≡ taken_by how }
    ensures wait { result.1 ≡ wait_of how }
{
    match how {
        How::Push(taken) => (taken, Wait::Push),
        How::Drop(taken) => (taken, Wait::Drop),
    }
}

/// Calls a function with so many arguments.
fn call_function(
    linked: &Linked,
    s: &mut State,
    method: u32,
    at: Place,
    this: Value,
    count: u32,
    how: How,
) -> Result<(), Stop>
    ghost out: { Outer }
    requires can { CanDo linked.now out (λ p. enters_settled p method this (place_in_meaning at) count how)
        s.old }
    requires ready { HasFrameRoom (taken_by how) (given_by_how how) s.old.frames }
    requires count { count ≤ taken_by how }
    ensures { Does linked.now out (λ p. enters_settled p method this (place_in_meaning at) count how) s.old
        result s.new }
{
    let (taken, wait) = waiting(how);
    enter(linked, s, method, this, at, count, taken, wait)
}

/// Calls an object with so many arguments, by what it is.
fn call_what(
    linked: &Linked,
    s: &mut State,
    what: What,
    receiver: Value,
    count: u32,
    how: How,
) -> Result<Left, Stop>
    ghost out: { Outer }
    requires can { CanDo linked.now out (λ p. calls_object p what receiver count how) s.old }
    requires ready { HasFrameRoom (taken_by how) (given_by_how how) s.old.frames }
    requires count { count ≤ taken_by how }
    requires names { NamesParts linked.now s.old.arena what }
    ensures { DoesOrLeaves linked.now out (λ p. calls_object p what receiver count how) s.old result s.new }
{
    match what {
        What::Closure {
            method,
            home,
            scope,
            bound,
        } => {
            let this = this_of(linked, s, bound, home, receiver);
            let at = Place { home, saved: scope };
            call_function(linked, s, method, at, this, count, how)?;
            Ok(Left::Goes)
        }
        What::ClassObject { class, .. } => {
            let ty = class_type(linked, class);
            call_class(linked, s, ty, count, how)?;
            Ok(Left::Goes)
        }
        What::HostClass(class) => {
            let ty = host_type(linked, class);
            call_class(linked, s, ty, count, how)?;
            Ok(Left::Goes)
        }
        What::Trace => Ok(Left::Traces { count, how }),
        What::Formula(formula) => Ok(Left::Asks {
            formula,
            count,
            how,
        }),
        _ => Err(Stop::Errs(HostClass::TypeError)),
    }
}

/// Calls a value with so many arguments, which are on top of the operands. What comes takes the place of the operands that `how`
/// says; a line or a formula is answered to the step. A value that can't be called throws a TypeError.
pub fn call(
    linked: &Linked,
    s: &mut State,
    callee: Value,
    receiver: Value,
    count: u32,
    how: How,
) -> Result<Left, Stop>
    ghost out: { Outer }
    requires can { CanDo linked.now out (λ p. calls_value p callee receiver count how) s.old }
    requires ready { HasFrameRoom (taken_by how) (given_by_how how) s.old.frames }
    requires count { count ≤ taken_by how }
    requires callee { Exists linked.now s.old.arena callee }
    ensures { DoesOrLeaves linked.now out (λ p. calls_value p callee receiver count how) s.old result s.new }
{
    let Value::Obj(o) = callee else {
        return Err(Stop::Errs(HostClass::TypeError));
    };
    let what = s.arena.what(o);
    call_what(linked, s, what, receiver, count, how)
}
