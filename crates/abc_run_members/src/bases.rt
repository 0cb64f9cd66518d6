ghost use Rattle.std.specs.Prelude.{◌≡◌, ◌<◌, IfOk, None, length, true};
ghost use Rattle.abc_link_names.specs.Bases.{base_named, is_some_class};
ghost use Rattle.abc_objects.specs.Stands.{IsObjectOrNone, StandsOver};
ghost use Rattle.abc_objects.specs.Values.{Exists};
ghost use Rattle.abc_link_names.specs.Parts.{base_part};
ghost use Rattle.abc_meaning.specs.Newing.{base_prototype as base_prototype_so, is_none, is_same_object};
ghost use Rattle.abc_run_state.specs.Outer.{Outer, world};
ghost use Rattle.abc_run_state.specs.Stops.{part_outcome};
ghost use Rattle.abc_meaning.specs.World.{World};
ghost use Rattle.abc_run_members.specs.Based.{IsBase, IsClassPart, named_of};

use abc_base::HostClass;
use abc_heap_values::{ObjId, Value};
use abc_link::Linked;
use abc_link_names::{Part, super_name};
use abc_run_state::{State, Stop, prototype_of};

/// The base of a class of the file.
#[derive(Clone, Copy)]
pub enum Base {
    Nothing,
    /// A class of the file.
    Class(u32),
    /// A class of the host.
    Host(HostClass),
}

/// The base of which a part is the instances.
fn base_in(part: Part) -> Base
    requires { IsClassPart part }
    ensures part { base_part (named_of result) ≡ part }
    ensures some { is_some_class (named_of result) ≡ true }
{
    match part {
        Part::Instance(base) => Base::Class(base),
        Part::Host(base) => Base::Host(base),
        Part::ClassObject(_) => unreachable!(),
        Part::HostClassObject(_) => unreachable!(),
        Part::Global(_) => unreachable!(),
        Part::Activation(_) => unreachable!(),
        Part::Catch(_, _) => unreachable!(),
    }
}

/// The base of a class.
pub fn base_of(linked: &Linked, class: u32) -> Base
    requires { class < length linked.now.file.instances }
    ensures is { base_named linked.now.file class ≡ named_of result }
    ensures there { IsBase linked.now result }
{
    linked.linked_law();
    let name = super_name(linked.abc(), class);
    if name == 0 {
        return Base::Nothing;
    }
    let layout = linked.layout_of(Part::Instance(class));
    let above = linked.above(layout);
    base_in(linked.part_of(above))
}

/// The prototype of a class without a base: null stands for the base, and another value throws.
fn no_prototype(v: Value) -> Result<Option<ObjId>, Stop>
    ensures part { (w : World) → is_none v w ≡ part_outcome result w }
    ensures none { IfOk result (λ o. o ≡ None) }
{
    match v {
        Value::Null => Ok(None),
        Value::Undefined => Err(Stop::Errs(HostClass::TypeError)),
        Value::Num(_) => Err(Stop::Errs(HostClass::TypeError)),
        Value::Bool(_) => Err(Stop::Errs(HostClass::TypeError)),
        Value::Text(_) => Err(Stop::Errs(HostClass::TypeError)),
        Value::Space(_) => Err(Stop::Errs(HostClass::TypeError)),
        Value::Obj(_) => Err(Stop::Errs(HostClass::TypeError)),
    }
}

/// The prototype of a class object, where the value is that object; another value throws.
fn prototype_if(
    linked: &Linked,
    s: &State,
    made: Option<ObjId>,
    v: Value,
) -> Result<Option<ObjId>, Stop>
    requires over { StandsOver linked.now s.now.arena }
    requires value { Exists linked.now s.now.arena v }
    ensures part { (out : Outer)
        → is_same_object made v (world s.now out) ≡ part_outcome result (world s.now out) }
    ensures there { IfOk result (IsObjectOrNone s.now.arena) }
{
    let Some(o) = made else {
        return Err(Stop::Errs(HostClass::TypeError));
    };
    let Value::Obj(given) = v else {
        return Err(Stop::Errs(HostClass::TypeError));
    };
    if o.0 != given.0 {
        return Err(Stop::Errs(HostClass::TypeError));
    }
    Ok(prototype_of(linked, s, o))
}

/// The prototype of the base that `newclass` takes: that of the class object of the base, or none for null where there is no base.
/// Another value throws.
pub fn base_prototype(
    linked: &Linked,
    s: &State,
    base: Base,
    v: Value,
) -> Result<Option<ObjId>, Stop>
    requires over { StandsOver linked.now s.now.arena }
    requires base { IsBase linked.now base }
    requires value { Exists linked.now s.now.arena v }
    ensures part { (out : Outer)
        → base_prototype_so (named_of base) v (world s.now out) ≡ part_outcome result (world s.now out) }
    ensures there { IfOk result (IsObjectOrNone s.now.arena) }
{
    match base {
        Base::Nothing => no_prototype(v),
        Base::Class(k) => {
            let made = s.arena.class_object(k);
            prototype_if(linked, s, made, v)
        }
        Base::Host(c) => {
            let made = s.arena.host_class(c);
            prototype_if(linked, s, Some(made), v)
        }
    }
}
