ghost use Rattle.std.specs.Prelude.{◌≡◌, ◌+◌, ◌<◌, ◌≤◌, ◌++◌, true, length, drop, IfOk, OnOk};
ghost use Rattle.abc_heap_values.specs.Filling.{HasRoom};
ghost use Rattle.abc_objects.specs.Values.{Exists};
ghost use Rattle.abc_frames.specs.Frame.{arguments as operands, newest};
ghost use Rattle.abc_run_state.specs.Outer.{Outer, setting_in, world};
ghost use Rattle.abc_run_state.specs.Standing.{IsSet, Stays};
ghost use Rattle.abc_run_state.specs.Stops.{IsOpen, part_outcome};
ghost use Rattle.abc_meaning.specs.Entering.{array_of as array_so, coerced_arguments, extra};
ghost use Rattle.abc_meaning.specs.Setting.{may_take_arguments as may_take_so, options_of};
ghost use Rattle.abc_meaning.specs.World.{World};
ghost use Rattle.abc_run_calls.specs.Arguments.{HasOptions, Makes, coerces_first, first_or_option, list_of, list_result, first_receiver, with_values};

use crate::methods::{ARGUMENTS, REST};
use crate::options::option_given;
use abc_file_types::{Method, has_flag};
use abc_frames::Pile;
use abc_heap_values::Value;
use abc_link::Linked;
use abc_run_state::{State, Stop, coerce, make_array, operand};

/// The k-th argument of so many on top of the operands, the first the one that was pushed first; past them the value of the
/// parameter's option.
#[inline(always)]
fn argument(
    linked: &Linked,
    s: &State,
    method: &Method,
    count: u32,
    k: usize,
) -> Result<Value, Stop>
    requires set { IsSet linked.now s.now }
    requires there { count ≤ length (newest s.now.frames).stack }
    requires takes { may_take_so method.now count ≡ true }
    requires parameter { k < length method.now.params }
    requires options { HasOptions linked.now method.now }
    ensures part { (out : Outer) (w : World)
        → first_or_option (setting_in linked.now out) (drop k (options_of method.now))
        (drop k (operands count (newest s.now.frames))) w ≡ part_outcome result w }
    ensures there { IfOk result (Exists linked.now s.now.arena) }
{
    if k < count as usize {
        return Ok(operand(&s.frames, count - 1 - k as u32));
    }
    let first = method.params.len().saturating_sub(method.options.len());
    match method.options.fetch(k - first) {
        Some(option) => option_given(linked, option),
        None => unreachable!(),
    }
}

/// The k-th argument, coerced to a type.
#[inline(always)]
fn coerce_argument(
    linked: &Linked,
    s: &mut State,
    method: &Method,
    count: u32,
    k: usize,
    ty: u32,
) -> Result<Value, Stop>
    ghost out: { Outer }
    requires set { IsSet linked.now s.old }
    requires there { count ≤ length (newest s.old.frames).stack }
    requires takes { may_take_so method.now count ≡ true }
    requires parameter { k < length method.now.params }
    requires options { HasOptions linked.now method.now }
    requires free { IsOpen (coerces_first (setting_in linked.now out) ty (drop k (options_of method.now))
        (drop k (operands count (newest s.old.frames))) (world s.old out)) }
    ensures part { coerces_first (setting_in linked.now out) ty (drop k (options_of method.now))
        (drop k (operands count (newest s.old.frames))) (world s.old out)
        ≡ part_outcome result (world s.new out) }
    ensures stays { Stays linked.now s.old s.new }
{
    let v = argument(linked, s, method, count, k)?;
    match linked.type_of(ty) {
        Some(found) => coerce(linked, s, found, v),
        None => unreachable!(),
    }
}

/// The arguments are coerced to the types of the parameters, in order, behind the receiver, which is given alone before.
#[inline(always)]
pub(crate) fn coerce_arguments(
    linked: &Linked,
    s: &mut State,
    method: &Method,
    count: u32,
) -> Result<(), Stop>
    ghost out: { Outer }
    requires set { IsSet linked.now s.old }
    requires there { count ≤ length (newest s.old.frames).stack }
    requires takes { may_take_so method.now count ≡ true }
    requires options { HasOptions linked.now method.now }
    requires room { length method.now.params + 2 ≤ s.old.given.limit }
    requires alone { length s.old.given.items ≡ 1 }
    requires free { IsOpen (coerced_arguments (setting_in linked.now out) method.now.params
        (options_of method.now) (operands count (newest s.old.frames)) (world s.old out)) }
    ensures part { coerced_arguments (setting_in linked.now out) method.now.params (options_of method.now)
        (operands count (newest s.old.frames)) (world s.old out)
        ≡ part_outcome (with_values result (drop 1 s.new.given.items)) (world s.new out) }
    ensures makes { Makes linked.now s.old s.new }
    ensures given { OnOk result ((first_receiver s.new.given.items ≡ first_receiver s.old.given.items)
        × (length s.new.given.items ≡ length method.now.params + 1)) }
{
    let types = method.params.as_slice();
    for (k, ty) in types.iter().enumerate() {
        let v = coerce_argument(linked, s, method, count, k, *ty)?;
        s.given.push(v);
    }
    Ok(())
}

/// The array of so many arguments, which are on top of the operands.
fn array_with(linked: &Linked, s: &mut State, count: u32) -> Result<Option<Value>, Stop>
    requires set { IsSet linked.now s.old }
    requires there { count ≤ length (newest s.old.frames).stack }
    ensures part { (out : Outer)
        → array_so (setting_in linked.now out) (operands count (newest s.old.frames)) (world s.old out)
        ≡ part_outcome (list_result result) (world s.new out) }
    ensures stays { Stays linked.now s.old s.new }
{
    let made = make_array(linked, s, count)?;
    Ok(Some(Value::Obj(made)))
}

/// The array of the arguments behind the parameters, or of all, as they were given, where a method takes one.
#[inline(always)]
pub(crate) fn array_of(
    linked: &Linked,
    s: &mut State,
    method: &Method,
    count: u32,
) -> Result<Option<Value>, Stop>
    requires set { IsSet linked.now s.old }
    requires there { count ≤ length (newest s.old.frames).stack }
    ensures part { (out : Outer)
        → extra (setting_in linked.now out) method.now (operands count (newest s.old.frames))
        (world s.old out) ≡ part_outcome (list_result result) (world s.new out) }
    ensures stays { Stays linked.now s.old s.new }
{
    if has_flag(method.flags, REST) {
        let more = (count as usize).saturating_sub(method.params.len()) as u32;
        return array_with(linked, s, more);
    }
    if has_flag(method.flags, ARGUMENTS) {
        return array_with(linked, s, count);
    }
    Ok(None)
}

/// One more value is given, if there is one.
#[inline(always)]
pub(crate) fn give(given: &mut Pile<Value>, more: Option<Value>)
    requires { HasRoom given.old 1 }
    ensures { given.new ≡ record { items = given.old.items ++ list_of more; limit = given.old.limit } }
{
    if let Some(v) = more {
        given.push(v);
    }
}
