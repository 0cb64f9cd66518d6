ghost use Rattle.std.specs.Prelude.{◌≡◌, ◌+◌, ◌<◌, ◌≤◌, ◌^◌, ◌∷◌, true, length, drop, IfOk, OnOk};
ghost use Rattle.abc_run_calls.specs.Arguments.{HasOptions, HasArgumentRoom, Makes, coerces_first, first_or_option, makes_arguments, first_receiver, with_values};
ghost use Rattle.abc_heap_store.specs.Heap.{Heap};
ghost use Rattle.abc_meaning.specs.Entering.{coerced_arguments};
ghost use Rattle.abc_run_state.specs.Outer.{Outer, setting_in, world};
ghost use Rattle.abc_meaning.specs.Setting.{may_take_arguments as may_take_so, options_of};
ghost use Rattle.abc_run_state.specs.Standing.{Stays};
ghost use Rattle.abc_run_state.specs.Stops.{IsOpen, part_outcome};
ghost use Rattle.abc_meaning.specs.World.{World};
ghost use Rattle.abc_objects.specs.Stands.{EachAt, StandsOver};
ghost use Rattle.abc_objects.specs.Values.{Exists};

use abc_base::HostClass;
use abc_file_types::Method;
use abc_heap_values::Value;
use abc_link::Linked;
use abc_run_calls::{may_take, method_at, option_given};
use abc_run_state::{State, Stop, coerce};

/// The k-th argument; past them the value of the parameter's option.
fn argument(linked: &Linked, method: &Method, args: &[Value], k: usize) -> Result<Value, Stop>
    requires takes { may_take_so method.now (length args.now) ≡ true }
    requires parameter { k < length method.now.params }
    requires options { HasOptions linked.now method.now }
    ensures part { (out : Outer) (w : World)
        → first_or_option (setting_in linked.now out) (drop k (options_of method.now)) (drop k args.now) w
        ≡ part_outcome result w }
    ensures there { (h : Heap) → StandsOver linked.now h → EachAt (Exists linked.now h) args.now
        → IfOk result (Exists linked.now h) }
{
    if k < args.len() {
        return Ok(args[k]);
    }
    let first = method.params.len().saturating_sub(method.options.len());
    match method.options.fetch(k - first) {
        Some(option) => option_given(linked, option),
        None => unreachable!(),
    }
}

/// The k-th argument, coerced to a type.
fn coerce_argument(
    linked: &Linked,
    s: &mut State,
    method: &Method,
    args: &[Value],
    k: usize,
    ty: u32,
) -> Result<Value, Stop>
    ghost out: { Outer }
    requires over { StandsOver linked.now s.old.arena }
    requires there { EachAt (Exists linked.now s.old.arena) args.now }
    requires takes { may_take_so method.now (length args.now) ≡ true }
    requires parameter { k < length method.now.params }
    requires options { HasOptions linked.now method.now }
    requires free { IsOpen (coerces_first (setting_in linked.now out) ty (drop k (options_of method.now))
        (drop k args.now) (world s.old out)) }
    ensures part { coerces_first (setting_in linked.now out) ty (drop k (options_of method.now))
        (drop k args.now) (world s.old out) ≡ part_outcome result (world s.new out) }
    ensures stays { Stays linked.now s.old s.new }
{
    let v = argument(linked, method, args, k)?;
    match linked.type_of(ty) {
        Some(found) => coerce(linked, s, found, v),
        None => unreachable!(),
    }
}

/// The arguments are coerced to the types of the parameters, in order, behind the receiver, which is given alone before.
fn coerce_arguments(
    linked: &Linked,
    s: &mut State,
    method: &Method,
    args: &[Value],
) -> Result<(), Stop>
    ghost out: { Outer }
    requires over { StandsOver linked.now s.old.arena }
    requires there { EachAt (Exists linked.now s.old.arena) args.now }
    requires takes { may_take_so method.now (length args.now) ≡ true }
    requires options { HasOptions linked.now method.now }
    requires room { length method.now.params + 2 ≤ s.old.given.limit }
    requires alone { length s.old.given.items ≡ 1 }
    requires free { IsOpen (coerced_arguments (setting_in linked.now out) method.now.params
        (options_of method.now) args.now (world s.old out)) }
    ensures part { coerced_arguments (setting_in linked.now out) method.now.params (options_of method.now)
        args.now (world s.old out)
        ≡ part_outcome (with_values result (drop 1 s.new.given.items)) (world s.new out) }
    ensures makes { Makes linked.now s.old s.new }
    ensures given { OnOk result ((first_receiver s.new.given.items ≡ first_receiver s.old.given.items)
        × (length s.new.given.items ≡ length method.now.params + 1)) }
{
    let types = method.params.as_slice();
    for (k, ty) in types.iter().enumerate() {
        let v = coerce_argument(linked, s, method, args, k, *ty)?;
        s.given.push(v);
    }
    Ok(())
}

/// Makes the first locals of a method: its receiver, and its arguments.
pub(crate) fn prepare(
    linked: &Linked,
    s: &mut State,
    method: u32,
    this: Value,
    args: &[Value],
) -> Result<(), Stop>
    ghost out: { Outer }
    requires over { StandsOver linked.now s.old.arena }
    requires there { EachAt (Exists linked.now s.old.arena) args.now }
    requires few { length args.now < 2 ^ 32 }
    requires known { HasArgumentRoom linked.now s.old.given.limit }
    requires free { IsOpen (makes_arguments (setting_in linked.now out) method args.now (world s.old out)) }
    ensures part { makes_arguments (setting_in linked.now out) method args.now (world s.old out)
        ≡ part_outcome (with_values result (drop 1 s.new.given.items)) (world s.new out) }
    ensures makes { Makes linked.now s.old s.new }
    ensures given { OnOk result ((s.new.given.items ≡ this ∷ drop 1 s.new.given.items)
        × (length s.new.given.items < s.new.given.limit)) }
{
    let signature = method_at(linked, method);
    if !may_take(signature, args.len() as u32) {
        return Err(Stop::Errs(HostClass::ArgumentError));
    }
    s.given.cut(0);
    s.given.push(this);
    coerce_arguments(linked, s, signature, args)
}
