ghost use Rattle.std.specs.Prelude.{◌≡◌, ◌<◌, ◌^◌, [], ◌∷◌, length, take};
ghost use Rattle.abc_base.specs.Hosts.{plain_arguments};
ghost use Rattle.abc_run_finish.specs.Calling.{CanBeginCall, enters_last};
ghost use Rattle.abc_meaning.specs.Calls.{begins_call, numbers, stops_call};
ghost use Rattle.abc_run_finish.specs.Ending.{IsUnstuck, IsSized, IsThrowable, stepped_by};
ghost use Rattle.abc_run_calls.specs.Arguments.{HasArgumentRoom};
ghost use Rattle.abc_run_finish.specs.Starting.{begins, went_alone};
ghost use Rattle.abc_meaning.specs.Throwing.{last_script};
ghost use Rattle.abc_objects.specs.Stands.{EachAt, StandsOver};
ghost use Rattle.abc_objects.specs.Values.{Exists};
ghost use Rattle.abc_run_state.specs.Outer.{Outer, setting_in, world};
ghost use Rattle.abc_run_state.specs.Stops.{IsOpen, why};
ghost use Rattle.abc_meaning.specs.Entering.{global};

use crate::call_arguments::prepare;
use crate::ended::Ended;
use crate::starting::put_alone;
use crate::stopping::stopped;
use abc_base::Plain;
use abc_heap_values::Value;
use abc_link::Linked;
use abc_run_calls::{global_of, place_of_owner};
use abc_run_state::{State, Stop};

/// The global object of the last script.
fn last_global(linked: &Linked, s: &State) -> Value
    requires over { StandsOver linked.now s.now.arena }
    requires scripts { 0 < length linked.now.file.scripts }
    requires few { length linked.now.file.scripts < 2 ^ 32 }
    ensures { (out : Outer) → result ≡ global (last_script (setting_in linked.now out)) (world s.now out) }
{
    let scripts = linked.abc().scripts.len();
    global_of(linked, s, scripts as u32 - 1)
}

/// Enters a method over no frame, with its arguments, on the global object of the last script.
fn enter_alone(linked: &Linked, s: &mut State, method: u32, args: &[Value]) -> Result<(), Stop>
    ghost out: { Outer }
    requires over { StandsOver linked.now s.old.arena }
    requires there { EachAt (Exists linked.now s.old.arena) args.now }
    requires short { length args.now < 2 ^ 32 }
    requires none { s.old.frames.living ≡ [] }
    requires known { HasArgumentRoom linked.now s.old.given.limit }
    requires scripts { 0 < length linked.now.file.scripts }
    requires few { length linked.now.file.scripts < 2 ^ 32 }
    requires free { IsOpen (enters_last (setting_in linked.now out) method args.now (world s.old out)) }
    ensures begins { begins (setting_in linked.now out) s.old.frames
        (enters_last (setting_in linked.now out) method args.now (world s.old out))
        ≡ went_alone result (world s.new out) s.new.frames }
    ensures limit { s.new.given.limit ≡ s.old.given.limit }
{
    let this = last_global(linked, s);
    let at = place_of_owner(linked, s, linked.owner(method));
    prepare(linked, s, method, this, args)?;
    put_alone(linked, s, method, at, args)
}

/// The four numbers of a call, of which so many count.
fn four_values(args: &Plain) -> [Value; 4]
    ensures { result ≡ numbers (args.now.a ∷ args.now.b ∷ args.now.c ∷ args.now.d ∷ []) }
{
    [
        Value::Num(args.a),
        Value::Num(args.b),
        Value::Num(args.c),
        Value::Num(args.d),
    ]
}

/// The values of a call: the first so many of the four.
fn first_values<'a>(values: &'a [Value; 4], args: &Plain) -> &'a [Value]
    ensures { result.now ≡ take args.now.count values.now }
{
    &values[..args.count as usize]
}

/// Where a call goes no further: no frame catches an error, and a fault is at the method's first instruction.
fn call_stopped(linked: &Linked, s: &mut State, method: u32, stop: Stop) -> Result<(), Ended>
    ghost out: { Outer }
    requires over { StandsOver linked.now s.old.arena }
    requires scripts { 0 < length linked.now.file.scripts }
    requires none { s.old.frames.living ≡ [] }
    requires value { IsThrowable linked.now s.old.arena stop }
    requires sized { IsSized (setting_in linked.now out) s.old.arena.limits s.old.frames }
    requires free { IsUnstuck (stops_call (setting_in linked.now out) method (world s.old out) (why stop)) }
    ensures step { stops_call (setting_in linked.now out) method (world s.old out) (why stop)
        ≡ stepped_by result (world s.new out) s.new.frames }
    ensures sized { IsSized (setting_in linked.now out) s.new.arena.limits s.new.frames }
    ensures limit { s.new.given.limit ≡ s.old.given.limit }
{
    match stop {
        Stop::Throws(v) => stopped(linked, s, Stop::Throws(v)),
        Stop::Errs(class) => stopped(linked, s, Stop::Errs(class)),
        Stop::Faults(fault) => Err(Ended::Profile {
            method,
            index: 0,
            fault,
        }),
        Stop::Fills(limit) => Err(Ended::Full(limit)),
    }
}

/// Enters a method trait of the last script with numbers, over no frame, on the script's global object. The arguments are coerced, or
/// options stand for them; nothing catches an error that is thrown, and a fault is at the method's first instruction.
pub fn begin_call(linked: &Linked, s: &mut State, method: u32, args: &Plain) -> Result<(), Ended>
    ghost out: { Outer }
    requires { CanBeginCall linked.now out method (plain_arguments args.now) s.old }
    ensures step { begins_call (setting_in linked.now out) (world s.old out) method (plain_arguments args.now)
        ≡ stepped_by result (world s.new out) s.new.frames }
    ensures sized { IsSized (setting_in linked.now out) s.new.arena.limits s.new.frames }
    ensures limit { s.new.given.limit ≡ s.old.given.limit }
{
    let values = four_values(args);
    let given = first_values(&values, args);
    match enter_alone(linked, s, method, given) {
        Ok(()) => Ok(()),
        Err(stop) => call_stopped(linked, s, method, stop),
    }
}
