ghost use Rattle.std.specs.Prelude.{◌≡◌, ◌≢◌, ◌<◌, ◌≤◌, length};
ghost use Rattle.abc_base.specs.declared.names.HostClass.TheVariants.{Array};
ghost use Rattle.abc_frames.specs.Ready.{HasFrameRoom};
ghost use Rattle.abc_objects.specs.Stands.{NamesParts};
ghost use Rattle.abc_objects.specs.Values.{Exists, IsObject};
ghost use Rattle.abc_frames.specs.Frame.{arguments, newest};
ghost use Rattle.abc_run_state.specs.Outer.{Outer, setting_in, world};
ghost use Rattle.abc_run_state.specs.Settling.{given_by_how, taken_by, wait_with};
ghost use Rattle.abc_run_state.specs.Standing.{IsSet, Stays};
ghost use Rattle.abc_run_state.specs.Stops.{part_outcome};
ghost use Rattle.abc_run_calls.specs.Calls.{makes_instance, makes_of_what, makes_of_class, makes_plain, makes_value, plain_object};
ghost use Rattle.abc_run_state.specs.Doing.{Does};
ghost use Rattle.abc_run_calls.specs.Doing.{CanDo};

use crate::elements::make_elements;
use crate::entering::{prepare, put_on};
use crate::hosts::convert_only;
use crate::messages::{message_of, set_message};
use abc_base::{Fault, HostClass};
use abc_frames::Wait;
use abc_heap_store::{ScopeId, What};
use abc_heap_values::{Conversion, ObjId, Value};
use abc_link::Linked;
use abc_link_names::Part;
use abc_run_state::{How, Place, State, Stop, is_interface, make_object, prototype_of, settle};

/// An object of Object, Error or one of its three, with its message.
fn plain_of(
    linked: &Linked,
    s: &mut State,
    class_object: ObjId,
    class: HostClass,
    count: u32,
) -> Result<ObjId, Stop>
    ghost out: { Outer }
    requires set { IsSet linked.now s.old }
    requires there { count ≤ length (newest s.old.frames).stack }
    requires inside { IsObject s.old.arena class_object }
    requires class { class ≢ Array }
    ensures part { plain_object (setting_in linked.now out) class_object class
        (arguments count (newest s.old.frames)) (world s.old out)
        ≡ part_outcome result (world s.new out) }
    ensures stays { Stays linked.now s.old s.new }
{
    let message = message_of(linked, s, class, count)?;
    let delegate = prototype_of(linked, s, class_object);
    let layout = linked.layout_of(Part::Host(class));
    let made = make_object(linked, s, layout, delegate, What::Plain)?;
    set_message(linked, s, made, message)?;
    Ok(made)
}

/// `new` on Object, Error and its three.
fn make_plain(
    linked: &Linked,
    s: &mut State,
    class_object: ObjId,
    class: HostClass,
    count: u32,
    how: How,
) -> Result<(), Stop>
    ghost out: { Outer }
    requires set { IsSet linked.now s.old }
    requires ready { HasFrameRoom (taken_by how) (given_by_how how) s.old.frames }
    requires count { count ≤ taken_by how }
    requires inside { IsObject s.old.arena class_object }
    requires class { class ≢ Array }
    ensures { Does linked.now out (λ p. makes_plain p class_object class count how) s.old result s.new }
{
    let made = plain_of(linked, s, class_object, class, count)?;
    settle(&mut s.frames, how, Value::Obj(made));
    Ok(())
}

/// `new` on a class of the host.
fn make_of_class(
    linked: &Linked,
    s: &mut State,
    class_object: ObjId,
    class: HostClass,
    count: u32,
    how: How,
) -> Result<(), Stop>
    ghost out: { Outer }
    requires set { IsSet linked.now s.old }
    requires ready { HasFrameRoom (taken_by how) (given_by_how how) s.old.frames }
    requires count { count ≤ taken_by how }
    requires inside { IsObject s.old.arena class_object }
    ensures { Does linked.now out (λ p. makes_of_class p class_object class count how) s.old result s.new }
{
    match class {
        HostClass::Str => convert_only(linked, s, Conversion::ConvertS, count, how),
        HostClass::Int => convert_only(linked, s, Conversion::ConvertI, count, how),
        HostClass::UInt => convert_only(linked, s, Conversion::ConvertU, count, how),
        HostClass::Number => convert_only(linked, s, Conversion::ConvertD, count, how),
        HostClass::Boolean => convert_only(linked, s, Conversion::ConvertB, count, how),
        HostClass::Array => make_elements(linked, s, count, how),
        HostClass::Class => Err(Stop::Errs(HostClass::TypeError)),
        HostClass::Function => Err(Stop::Errs(HostClass::TypeError)),
        HostClass::Namespace => Err(Stop::Errs(HostClass::TypeError)),
        HostClass::Object => make_plain(linked, s, class_object, class, count, how),
        HostClass::Error => make_plain(linked, s, class_object, class, count, how),
        HostClass::TypeError => make_plain(linked, s, class_object, class, count, how),
        HostClass::ReferenceError => make_plain(linked, s, class_object, class, count, how),
        HostClass::ArgumentError => make_plain(linked, s, class_object, class, count, how),
    }
}

/// How many operands leave, and how a frame waits for the maker of an object.
fn keeping(how: How, made: Value) -> (u32, Wait)
    ensures taken { result.0 ≡ taken_by how }
    ensures wait { result.1 ≡ wait_with how made }
{
    match how {
        How::Push(taken) => (taken, Wait::Keep(made)),
        How::Drop(taken) => (taken, Wait::Drop),
    }
}

/// `new` on a class of the file: the arguments, then the object, and then its maker is run on it.
fn make_instance(
    linked: &Linked,
    s: &mut State,
    class_object: ObjId,
    class: u32,
    home: u32,
    instances: ScopeId,
    count: u32,
    how: How,
) -> Result<(), Stop>
    ghost out: { Outer }
    requires can { CanDo linked.now out (λ p. makes_instance p class_object class home instances count how)
        s.old }
    requires ready { HasFrameRoom (taken_by how) (given_by_how how) s.old.frames }
    requires count { count ≤ taken_by how }
    requires inside { IsObject s.old.arena class_object }
    requires class { class < length linked.now.file.instances }
    ensures { Does linked.now out (λ p. makes_instance p class_object class home instances count how) s.old
        result s.new }
{
    let maker = linked.abc().instances.get(class as usize).iinit;
    prepare(linked, s, maker, Value::Undefined, count)?;
    let delegate = prototype_of(linked, s, class_object);
    let layout = linked.layout_of(Part::Instance(class));
    let object = make_object(linked, s, layout, delegate, What::Plain)?;
    let made = Value::Obj(object);
    s.given.set(0, made);
    let (taken, wait) = keeping(how, made);
    let at = Place {
        home,
        saved: Some(instances),
    };
    put_on(linked, s, maker, at, count, taken, wait)
}

/// `new` on an object, by what it is.
fn make_of(
    linked: &Linked,
    s: &mut State,
    o: ObjId,
    what: What,
    count: u32,
    how: How,
) -> Result<(), Stop>
    ghost out: { Outer }
    requires can { CanDo linked.now out (λ p. makes_of_what p o what count how) s.old }
    requires ready { HasFrameRoom (taken_by how) (given_by_how how) s.old.frames }
    requires count { count ≤ taken_by how }
    requires inside { IsObject s.old.arena o }
    requires names { NamesParts linked.now s.old.arena what }
    ensures { Does linked.now out (λ p. makes_of_what p o what count how) s.old result s.new }
{
    match what {
        What::ClassObject {
            class,
            home,
            instances,
            ..
        } => {
            if is_interface(linked, class) {
                return Err(Stop::Errs(HostClass::TypeError));
            }
            make_instance(linked, s, o, class, home, instances, count, how)
        }
        What::HostClass(class) => make_of_class(linked, s, o, class, count, how),
        What::Closure { .. } => Err(Stop::Faults(Fault::FunctionConstruct)),
        What::Trace => Err(Stop::Faults(Fault::FunctionConstruct)),
        What::Formula(_) => Err(Stop::Faults(Fault::FunctionConstruct)),
        _ => Err(Stop::Errs(HostClass::TypeError)),
    }
}

/// Does `new` on a value, with so many arguments, which are on top of the operands. What comes takes the place of the operands
/// that `how` says. A value that is no class throws a TypeError; `new` on a function is a fault.
pub fn make(linked: &Linked, s: &mut State, of: Value, count: u32, how: How) -> Result<(), Stop>
    ghost out: { Outer }
    requires can { CanDo linked.now out (λ p. makes_value p of count how) s.old }
    requires ready { HasFrameRoom (taken_by how) (given_by_how how) s.old.frames }
    requires count { count ≤ taken_by how }
    requires value { Exists linked.now s.old.arena of }
    ensures { Does linked.now out (λ p. makes_value p of count how) s.old result s.new }
{
    let Value::Obj(o) = of else {
        return Err(Stop::Errs(HostClass::TypeError));
    };
    let what = s.arena.what(o);
    make_of(linked, s, o, what, count, how)
}
