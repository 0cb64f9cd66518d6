ghost use Rattle.std.specs.Prelude.{◌≡◌, ◌<◌, length, OnOk};
ghost use Rattle.abc_meaning.specs.Throwing.{fault_at as fault_so, stops, thrown_as as thrown_so, thrown_part as thrown_part_so, unwinds};
ghost use Rattle.abc_objects.specs.Stands.{StandsOver};
ghost use Rattle.abc_objects.specs.Values.{Exists};
ghost use Rattle.abc_run_state.specs.Outer.{Outer, setting_in, world};
ghost use Rattle.abc_run_state.specs.Stops.{why};
ghost use Rattle.abc_run_state.specs.declared.state.Stop.TheVariants.{Fills};
ghost use Rattle.abc_run_finish.specs.Ending.{IsUnstuck, IsLimitReached, IsSized, IsThrowable, end_of_run, stepped_by};

use crate::ended::Ended;
use crate::handlers::HandlersFor;
use abc_base::{Fault, HostClass};
use abc_frames::unwind;
use abc_heap_store::{Limit, What};
use abc_heap_values::Value;
use abc_link::Linked;
use abc_link_names::Part;
use abc_meaning::Thrown;
use abc_run_state::{State, Stop, make_of_host};

/// What an object is thrown as, by its layout.
fn thrown_part(part: Part) -> Thrown
    ensures { result ≡ thrown_part_so part }
{
    match part {
        Part::Host(class) => Thrown::HostClass(class),
        Part::Instance(class) => Thrown::FileClass(class),
        Part::ClassObject(_) => Thrown::HostClass(HostClass::Class),
        Part::HostClassObject(_) => Thrown::HostClass(HostClass::Class),
        Part::Global(_) => Thrown::Global,
        Part::Activation(_) => Thrown::Activation,
        Part::Catch(_, _) => Thrown::Catch,
    }
}

/// What a value that nothing caught is of.
fn thrown_as(linked: &Linked, s: &State, v: Value) -> Thrown
    ghost out: { Outer }
    requires over { StandsOver linked.now s.now.arena }
    requires value { Exists linked.now s.now.arena v }
    ensures { result ≡ thrown_so (setting_in linked.now out) (world s.now out) v }
{
    match v {
        Value::Undefined => Thrown::Undefined,
        Value::Null => Thrown::Null,
        Value::Num(_) => Thrown::HostClass(HostClass::Number),
        Value::Bool(_) => Thrown::HostClass(HostClass::Boolean),
        Value::Text(_) => Thrown::HostClass(HostClass::Str),
        Value::Space(_) => Thrown::HostClass(HostClass::Namespace),
        Value::Obj(o) => thrown_part(linked.part_of(s.arena.layout(o))),
    }
}

/// A value is thrown: it is caught, or the run ends.
fn throw(linked: &Linked, s: &mut State, v: Value) -> Result<(), Ended>
    ghost out: { Outer }
    requires over { StandsOver linked.now s.old.arena }
    requires value { Exists linked.now s.old.arena v }
    requires sized { IsSized (setting_in linked.now out) s.old.arena.limits s.old.frames }
    requires free { IsUnstuck (unwinds (setting_in linked.now out) (world s.old out) v s.old.frames.living) }
    ensures step { unwinds (setting_in linked.now out) (world s.old out) v s.old.frames.living
        ≡ stepped_by result (world s.new out) s.new.frames }
    ensures sized { IsSized (setting_in linked.now out) s.new.arena.limits s.new.frames }
    ensures limit { s.new.given.limit ≡ s.old.given.limit }
{
    let handlers = HandlersFor::new(linked, &s.arena, v);
    if unwind(&mut s.frames, &handlers, v) {
        Ok(())
    } else {
        Err(Ended::Uncaught(thrown_as(linked, s, v)))
    }
}

/// The place of a fault: the instruction of the step, or in the first script start that script's init.
fn fault_at(linked: &Linked, s: &State, fault: Fault) -> Ended
    ghost out: { Outer }
    requires { 0 < length linked.now.file.scripts }
    ensures { end_of_run result ≡ fault_so (setting_in linked.now out) s.now.frames.living fault }
{
    if s.frames.depth() > 0 {
        return Ended::Profile {
            method: s.frames.method(),
            index: s.frames.place(),
            fault,
        };
    }
    let scripts = &linked.abc().scripts;
    Ended::Profile {
        method: scripts.get(scripts.len() - 1).init,
        index: 0,
        fault,
    }
}

/// The limit that a part of a step reached.
fn limit_of(stop: Stop) -> Limit
    requires { IsLimitReached stop }
    ensures { stop ≡ Fills result }
{
    match stop {
        Stop::Fills(limit) => limit,
        Stop::Throws(_) => unreachable!(),
        Stop::Errs(_) => unreachable!(),
        Stop::Faults(_) => unreachable!(),
    }
}

/// What becomes of a step that goes no further. An error is a new object of its class, which takes its room first.
pub fn stopped(linked: &Linked, s: &mut State, stop: Stop) -> Result<(), Ended>
    ghost out: { Outer }
    requires over { StandsOver linked.now s.old.arena }
    requires scripts { 0 < length linked.now.file.scripts }
    requires value { IsThrowable linked.now s.old.arena stop }
    requires sized { IsSized (setting_in linked.now out) s.old.arena.limits s.old.frames }
    requires free { IsUnstuck
        (stops (setting_in linked.now out) (world s.old out) s.old.frames.living (why stop)) }
    ensures step { stops (setting_in linked.now out) (world s.old out) s.old.frames.living (why stop)
        ≡ stepped_by result (world s.new out) s.new.frames }
    ensures sized { IsSized (setting_in linked.now out) s.new.arena.limits s.new.frames }
    ensures limit { s.new.given.limit ≡ s.old.given.limit }
{
    match stop {
        Stop::Throws(v) => throw(linked, s, v),
        Stop::Errs(class) => match make_of_host(linked, s, class, What::Plain) {
            Ok(o) => throw(linked, s, Value::Obj(o)),
            Err(stop) => Err(Ended::Full(limit_of(stop))),
        },
        Stop::Faults(fault) => Err(fault_at(linked, s, fault)),
        Stop::Fills(limit) => Err(Ended::Full(limit)),
    }
}
