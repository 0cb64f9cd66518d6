ghost use Rattle.std.specs.Prelude.{◌≡◌, ◌≢◌, ◌<◌, ◌++◌, ℕ, List, [], Err, IsSome, Some, drop, length, slice_get};
ghost use Rattle.std.specs.declared.option.Option.{Option};
ghost use Rattle.abc_heap_values.specs.Filling.{HasRoom};
ghost use Rattle.abc_heap_values.specs.declared.values.Value.{Value};
ghost use Rattle.abc_run_finish.specs.Ending.{IsSized, stepped_by};
ghost use Rattle.abc_run_calls.specs.Arguments.{HasArgumentRoom, list_of, list_result, first_receiver};
ghost use Rattle.abc_run_calls.specs.Entering.{place_in_meaning};
ghost use Rattle.abc_objects.specs.Stands.{EachAt, StandsOver};
ghost use Rattle.abc_objects.specs.Values.{Exists};
ghost use Rattle.abc_run_state.specs.Outer.{Outer, setting_in, world};
ghost use Rattle.abc_run_state.specs.Standing.{Stays};
ghost use Rattle.abc_run_state.specs.Stops.{IsOpen, part_outcome};
ghost use Rattle.abc_meaning.specs.Entering.{array_of, extra, starts_script};
ghost use Rattle.abc_run_finish.specs.Fairly.{CanStart};
ghost use Rattle.abc_run_finish.specs.Starting.{begins, frames_alone, went_alone};
ghost use Rattle.abc_run_finish.specs.Steps.{StepsAs, step_here};
ghost use Rattle.abc_run_finish.specs.declared.halts.Halt.TheVariants.{Fails, Returns};

use crate::ended::Ended;
use crate::halts::{Halt, halted};
use crate::stopping::stopped;
use abc_file_types::{Method, has_flag};
use abc_frames::{Pile, try_start};
use abc_heap_values::Value;
use abc_link::Linked;
use abc_run_calls::{entry_of, global_of, prepare};
use abc_run_state::{Place, State, Stop};

/// The flag of a method that takes an array of all arguments.
const ARGUMENTS: u8 = 0x01;

/// The flag of a method that takes an array of the arguments behind its parameters.
const REST: u8 = 0x04;

/// A method of the file.
pub fn method_at(linked: &Linked, method: u32) -> &Method
    requires { IsSome (slice_get linked.now.file.methods method) }
    ensures { slice_get linked.now.file.methods method ≡ Some result.now }
{
    match linked.abc().methods.find(method as usize) {
        Some(found) => found,
        None => unreachable!(),
    }
}

/// The array of some arguments.
fn array_with(linked: &Linked, s: &mut State, args: &[Value]) -> Result<Option<Value>, Stop>
    requires over { StandsOver linked.now s.old.arena }
    requires there { EachAt (Exists linked.now s.old.arena) args.now }
    ensures part { (out : Outer)
        → array_of (setting_in linked.now out) args.now (world s.old out)
        ≡ part_outcome (list_result result) (world s.new out) }
    ensures stays { Stays linked.now s.old s.new }
{
    match s.arena.new_array(linked, args) {
        Ok(made) => Ok(Some(Value::Obj(made))),
        Err(full) => Err(Stop::Fills(full.0)),
    }
}

/// The arguments behind so many parameters.
fn behind(args: &[Value], params: usize) -> &[Value]
    ensures { result.now ≡ drop params args.now }
{
    if params < args.len() {
        &args[params..]
    } else {
        &[]
    }
}

/// The array of the arguments behind the parameters, or of all, as they were given, where a method takes one.
fn array_for(
    linked: &Linked,
    s: &mut State,
    method: &Method,
    args: &[Value],
) -> Result<Option<Value>, Stop>
    requires over { StandsOver linked.now s.old.arena }
    requires there { EachAt (Exists linked.now s.old.arena) args.now }
    ensures part { (out : Outer)
        → extra (setting_in linked.now out) method.now args.now (world s.old out)
        ≡ part_outcome (list_result result) (world s.new out) }
    ensures stays { Stays linked.now s.old s.new }
{
    if has_flag(method.flags, REST) {
        return array_with(linked, s, behind(args, method.params.len()));
    }
    if has_flag(method.flags, ARGUMENTS) {
        return array_with(linked, s, args);
    }
    Ok(None)
}

/// One more value is given, if there is one.
fn give(given: &mut Pile<Value>, more: Option<Value>)
    requires { HasRoom given.old 1 }
    ensures { given.new ≡ record { items = given.old.items ++ list_of more; limit = given.old.limit } }
{
    if let Some(v) = more {
        given.push(v);
    }
}

/// A method whose first locals are made is put over no frame, with the array that it may take of the arguments that were given.
/// Its room is taken last of all.
pub fn put_alone(
    linked: &Linked,
    s: &mut State,
    method: u32,
    at: Place,
    args: &[Value],
) -> Result<(), Stop>
    ghost out: { Outer }
    requires over { StandsOver linked.now s.old.arena }
    requires there { EachAt (Exists linked.now s.old.arena) args.now }
    requires none { s.old.frames.living ≡ [] }
    requires given { 0 < length s.old.given.items }
    requires room { length s.old.given.items < s.old.given.limit }
    requires free { IsOpen (frames_alone (setting_in linked.now out) method (place_in_meaning at)
        (first_receiver s.old.given.items) (drop 1 s.old.given.items) args.now (world s.old out)) }
    ensures begins { begins (setting_in linked.now out) s.old.frames (frames_alone (setting_in linked.now out)
        method (place_in_meaning at) (first_receiver s.old.given.items) (drop 1 s.old.given.items)
        args.now (world s.old out)) ≡ went_alone result (world s.new out) s.new.frames }
    ensures limit { s.new.given.limit ≡ s.old.given.limit }
{
    let array = array_for(linked, s, method_at(linked, method), args)?;
    give(&mut s.given, array);
    let entry = entry_of(linked, method, at);
    try_start(&mut s.frames, entry, s.given.as_slice())?;
    Ok(())
}

/// A script is started over no frame. It counts as started from here on.
fn start_alone(linked: &Linked, s: &mut State, script: u32) -> Result<(), Stop>
    ghost out: { Outer }
    requires over { StandsOver linked.now s.old.arena }
    requires none { s.old.frames.living ≡ [] }
    requires known { HasArgumentRoom linked.now s.old.given.limit }
    requires script { script < length linked.now.file.scripts }
    requires started { length s.old.started ≡ length linked.now.file.scripts }
    requires free { IsOpen (starts_script (setting_in linked.now out) script (world s.old out)) }
    ensures begins { begins (setting_in linked.now out) s.old.frames
        (starts_script (setting_in linked.now out) script (world s.old out))
        ≡ went_alone result (world s.new out) s.new.frames }
    ensures limit { s.new.given.limit ≡ s.old.given.limit }
{
    s.started.set(script as usize, true);
    let this = global_of(linked, s, script);
    let init = linked.abc().scripts.get(script as usize).init;
    prepare(linked, s, init, this, 0)?;
    let at = Place {
        home: script,
        saved: None,
    };
    put_alone(linked, s, init, at, &[])
}

/// The last script is started over no frame, and what it throws is not caught.
fn start_or_end(linked: &Linked, s: &mut State) -> Result<(), Ended>
    ghost out: { Outer }
    requires { CanStart linked.now out s.old }
    ensures step { step_here linked.now out s.old ≡ stepped_by result (world s.new out) s.new.frames }
    ensures sized { IsSized (setting_in linked.now out) s.new.arena.limits s.new.frames }
    ensures limit { s.new.given.limit ≡ s.old.given.limit }
{
    let scripts = linked.abc().scripts.len();
    match start_alone(linked, s, scripts as u32 - 1) {
        Ok(()) => Ok(()),
        Err(stop) => stopped(linked, s, stop),
    }
}

/// The step that begins a run: the last script is started, over no frame. Nothing is written.
#[inline(never)]
pub fn start_last(linked: &Linked, s: &mut State) -> Result<(), Halt>
    ghost out: { Outer }
    requires { CanStart linked.now out s.old }
    ensures step { (before : Option (List ℕ)) → StepsAs linked.now out s.old result s.new before before }
    ensures ends { result ≢ Err Fails }
    ensures none { (v : Value) → result ≢ Err (Returns v) }
    ensures sized { IsSized (setting_in linked.now out) s.new.arena.limits s.new.frames }
    ensures limit { s.new.given.limit ≡ s.old.given.limit }
{
    halted(start_or_end(linked, s))
}
