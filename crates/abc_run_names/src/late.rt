ghost use Rattle.std.specs.Prelude.{◌≡◌, Some};
ghost use Rattle.abc_meaning.specs.Late.{is_prototype_among as is_among_delegates, is_found as is_found_value, is_instance as is_instance_value, late_type as type_late, type_of_what as type_of_kept};
ghost use Rattle.abc_heap_values.specs.declared.values.Value.TheVariants.{Obj};
ghost use Rattle.abc_heap_store.specs.Texts.{IsText};
ghost use Rattle.abc_frames.specs.Ready.{HasFrameRoom};
ghost use Rattle.abc_objects.specs.Stands.{IsObjectOrNone, StandsOver};
ghost use Rattle.abc_objects.specs.Values.{Exists, IsObject};
ghost use Rattle.abc_objects.specs.Objects.{delegate_of as delegate_number, number_of_object};
ghost use Rattle.abc_objects.specs.Searches.{found_on};
ghost use Rattle.abc_objects.specs.declared.found.Want.TheVariants.{Read};
ghost use Rattle.abc_objects.specs.declared.name.Spaces.TheVariants.{Public};
ghost use Rattle.abc_frames.specs.Frame.{newest};
ghost use Rattle.abc_run_state.specs.Outer.{Outer, setting_in, world};
ghost use Rattle.abc_run_state.specs.Standing.{IsSet};
ghost use Rattle.abc_run_state.specs.Stops.{part_outcome};
ghost use Rattle.abc_run_state.specs.Turns.{Runs};
ghost use Rattle.abc_meaning.specs.World.{World};
ghost use Rattle.abc_run_names.specs.Late.{keeps_late, tests_instance, tests_late, tests_name};
ghost use Rattle.abc_run_state.specs.Doing.{Does};

use crate::receivers::is_holder;
use abc_base::HostClass;
use abc_frames::finish;
use abc_heap_store::What;
use abc_heap_values::{ObjId, Span, Value};
use abc_link::Linked;
use abc_link_names::Ty;
use abc_lookup::find_on;
use abc_objects::{Found, Name, Spaces, Want};
use abc_run_state::{
    State, Stop, class_type, host_type, is_it, operand, prototype_for, prototype_of, spell,
    value_or_null,
};

/// The type that a class object is of; what is none throws.
fn type_of_what(linked: &Linked, what: What) -> Result<Ty, Stop>
    ensures { (out : Outer) (w : World)
        → type_of_kept (setting_in linked.now out) what w ≡ part_outcome result w }
{
    match what {
        What::ClassObject { class, .. } => Ok(class_type(linked, class)),
        What::HostClass(class) => Ok(host_type(linked, class)),
        _ => Err(Stop::Errs(HostClass::TypeError)),
    }
}

/// The type that an object is a class object of.
fn type_of_object(linked: &Linked, s: &State, o: ObjId) -> Result<Ty, Stop>
    requires { IsObject s.now.arena o }
    ensures { (out : Outer)
        → type_late (setting_in linked.now out) (Obj o) (world s.now out)
        ≡ part_outcome result (world s.now out) }
{
    type_of_what(linked, s.arena.what(o))
}

/// The type that a value is a class object of.
fn late_type(linked: &Linked, s: &State, v: Value) -> Result<Ty, Stop>
    requires { Exists linked.now s.now.arena v }
    ensures { (out : Outer)
        → type_late (setting_in linked.now out) v (world s.now out) ≡ part_outcome result (world s.now out) }
{
    match v {
        Value::Obj(o) => type_of_object(linked, s, o),
        Value::Undefined => Err(Stop::Errs(HostClass::TypeError)),
        Value::Null => Err(Stop::Errs(HostClass::TypeError)),
        Value::Num(_) => Err(Stop::Errs(HostClass::TypeError)),
        Value::Bool(_) => Err(Stop::Errs(HostClass::TypeError)),
        Value::Text(_) => Err(Stop::Errs(HostClass::TypeError)),
        Value::Space(_) => Err(Stop::Errs(HostClass::TypeError)),
    }
}

/// `astypelate`: the value, or null where it is not of the type that the class object on top is of.
pub fn as_late(linked: &Linked, s: &mut State) -> Result<(), Stop>
    requires set { IsSet linked.now s.old }
    requires ready { HasFrameRoom 2 1 s.old.frames }
    ensures runs { (out : Outer)
        → Runs linked.now out (keeps_late (setting_in linked.now out) (newest s.old.frames)) s.old result
        s.new }
    ensures limit { s.new.given.limit ≡ s.old.given.limit }
{
    let v = operand(&s.frames, 1);
    let class = operand(&s.frames, 0);
    let ty = late_type(linked, s, class)?;
    let is = is_it(linked, s, ty, v);
    finish(&mut s.frames, 2, value_or_null(v, is));
    Ok(())
}

/// `istypelate`.
pub fn is_late(linked: &Linked, s: &mut State) -> Result<(), Stop>
    requires set { IsSet linked.now s.old }
    requires ready { HasFrameRoom 2 1 s.old.frames }
    ensures runs { (out : Outer)
        → Runs linked.now out (tests_late (setting_in linked.now out) (newest s.old.frames)) s.old result
        s.new }
    ensures limit { s.new.given.limit ≡ s.old.given.limit }
{
    let v = operand(&s.frames, 1);
    let class = operand(&s.frames, 0);
    let ty = late_type(linked, s, class)?;
    let is = is_it(linked, s, ty, v);
    finish(&mut s.frames, 2, Value::Bool(is));
    Ok(())
}

/// `instanceof`: whether the prototype of the class object on top is among the delegates of the value.
pub fn is_instance_of(linked: &Linked, s: &mut State) -> Result<(), Stop>
    requires set { IsSet linked.now s.old }
    requires ready { HasFrameRoom 2 1 s.old.frames }
    ensures runs { (out : Outer)
        → Runs linked.now out (tests_instance (setting_in linked.now out) (newest s.old.frames)) s.old result
        s.new }
    ensures limit { s.new.given.limit ≡ s.old.given.limit }
{
    let v = operand(&s.frames, 1);
    let class = operand(&s.frames, 0);
    late_type(linked, s, class)?;
    let is = is_instance(linked, s, v, class);
    finish(&mut s.frames, 2, Value::Bool(is));
    Ok(())
}

/// Whether the prototype of a class object is among the delegates of a value.
fn is_instance(linked: &Linked, s: &State, v: Value, class: Value) -> bool
    requires over { StandsOver linked.now s.now.arena }
    requires value { Exists linked.now s.now.arena v }
    requires class { Exists linked.now s.now.arena class }
    ensures { (out : Outer) → result ≡ is_instance_value v class (world s.now out) }
{
    match class {
        Value::Obj(o) => match prototype_of(linked, s, o) {
            Some(p) => is_among(linked, s, v, p),
            None => false,
        },
        _ => false,
    }
}

/// The first delegate of a value: of one that is no object, the prototype of its class.
fn delegate_of(linked: &Linked, s: &State, v: Value) -> Option<ObjId>
    requires over { StandsOver linked.now s.now.arena }
    requires value { Exists linked.now s.now.arena v }
    ensures is { number_of_object result ≡ delegate_number s.now.arena v }
    ensures there { IsObjectOrNone s.now.arena result }
{
    match v {
        Value::Undefined | Value::Null => None,
        Value::Obj(o) => s.arena.delegate(o),
        Value::Num(_) => prototype_for(linked, s, HostClass::Number),
        Value::Bool(_) => prototype_for(linked, s, HostClass::Boolean),
        Value::Text(_) => prototype_for(linked, s, HostClass::Str),
        Value::Space(_) => prototype_for(linked, s, HostClass::Namespace),
    }
}

/// Whether an object is among the delegates of a value.
fn is_among(linked: &Linked, s: &State, v: Value, wanted: ObjId) -> bool
    requires over { StandsOver linked.now s.now.arena }
    requires value { Exists linked.now s.now.arena v }
    ensures { result ≡ is_among_delegates s.now.arena v (Some wanted) }
{
    let mut at = delegate_of(linked, s, v);
    while let Some(o) = at {
        if o.0 == wanted.0 {
            return true;
        }
        at = s.arena.delegate(o);
    }
    false
}

/// What a public name finds on a value.
fn find_public(linked: &Linked, s: &State, object: Value, text: Span) -> Found
    requires over { StandsOver linked.now s.now.arena }
    requires object { Exists linked.now s.now.arena object }
    requires text { IsText linked.now.file.strings s.now.arena text }
    ensures { result ≡ found_on linked.now s.now.arena object (record { spaces = Public; text = text }) Read }
{
    let name = Name {
        spaces: Spaces::Public,
        text,
    };
    find_on(linked, &s.arena, object, &name, Want::Read)
}

/// Whether something was found, which may be of the other side of a pair of accessors.
fn is_found(found: Found) -> bool
    ensures { result ≡ is_found_value found }
{
    match found {
        Found::Missing => false,
        _ => true,
    }
}

/// `in`: a public name, made a text before the object is asked; null and undefined throw.
pub fn has_name(linked: &Linked, s: &mut State) -> Result<(), Stop>
    ghost out: { Outer }
    requires set { IsSet linked.now s.old }
    requires ready { HasFrameRoom 2 1 s.old.frames }
    ensures { Does linked.now out (λ p. tests_name p) s.old result s.new }
{
    let name = operand(&s.frames, 1);
    let object = operand(&s.frames, 0);
    let text = spell(linked, s, name)?;
    is_holder(object)?;
    let found = find_public(linked, s, object, text);
    finish(&mut s.frames, 2, Value::Bool(is_found(found)));
    Ok(())
}
