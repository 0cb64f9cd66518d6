ghost use Rattle.std.specs.Prelude.{◌≡◌, IfOk, pos};
ghost use Rattle.abc_heap_values.specs.declared.values.Value.TheVariants.{Num};
ghost use Rattle.abc_heap_store.specs.Heap.{Heap};
ghost use Rattle.abc_link_names.specs.Linked.{LinkedFile};
ghost use Rattle.abc_objects.specs.Stands.{StandsOver};
ghost use Rattle.abc_objects.specs.Values.{Exists, IsObject};
ghost use Rattle.abc_link_names.specs.Owners.{owner_of};
ghost use Rattle.abc_run_state.specs.Outer.{Outer, setting_in, world};
ghost use Rattle.abc_run_state.specs.Standing.{Stays};
ghost use Rattle.abc_run_state.specs.Stops.{IsOpen, part_outcome};
ghost use Rattle.abc_meaning.specs.Members.{bound_function as bound_so, value_found as value_so};
ghost use Rattle.abc_run_members.specs.Members.{IsFoundThere, read_element, length_on, slot_on, value_read};
ghost use Rattle.abc_objects.specs.declared.found.Found.TheVariants.{Method, Missing};
ghost use Rattle.abc_meaning.specs.World.{Went};

use abc_base::HostClass;
use abc_heap_store::What;
use abc_heap_values::{ObjId, Value};
use abc_link::Linked;
use abc_link_names::Owner;
use abc_objects::Found;
use abc_run_calls::place_of_owner;
use abc_run_names::is_dynamic;
use abc_run_state::{State, Stop, make_of_host};

/// A method that is read is a new function, bound to the object.
fn bound_function(
    linked: &Linked,
    s: &mut State,
    owner: Owner,
    method: u32,
    o: ObjId,
) -> Result<Value, Stop>
    ghost out: { Outer }
    requires over { StandsOver linked.now s.old.arena }
    requires inside { IsObject s.old.arena o }
    requires owner { owner ≡ owner_of linked.now.file method }
    requires free { IsOpen (bound_so (setting_in linked.now out) owner method o (world s.old out)) }
    ensures part { bound_so (setting_in linked.now out) owner method o (world s.old out)
        ≡ part_outcome result (world s.new out) }
    ensures stays { Stays linked.now s.old s.new }
    ensures there { IfOk result (Exists linked.now s.new.arena) }
{
    let at = place_of_owner(linked, s, owner);
    let what = What::Closure {
        method,
        home: at.home,
        scope: at.saved,
        bound: Some(o),
    };
    match make_of_host(linked, s, HostClass::Function, what) {
        Ok(made) => Ok(Value::Obj(made)),
        Err(stop) => Err(stop),
    }
}

/// What is read where nothing is found: a dynamic object gives undefined.
fn missing_on(linked: &Linked, s: &State, v: Value) -> Result<Value, Stop>
    requires over { StandsOver linked.now s.now.arena }
    requires value { Exists linked.now s.now.arena v }
    ensures part { (out : Outer)
        → value_so (setting_in linked.now out) Missing v (world s.now out)
        ≡ part_outcome result (world s.now out) }
    ensures there { IfOk result (Exists linked.now s.now.arena) }
{
    if is_dynamic(linked, s, v) {
        Ok(Value::Undefined)
    } else {
        Err(Stop::Errs(HostClass::ReferenceError))
    }
}

/// A slot of an object.
fn slot_of(linked: &Linked, s: &State, v: Value, slot: u32) -> Value
    ghost out: { Outer }
    requires over { StandsOver linked.now s.now.arena }
    requires free { IsOpen (slot_on v slot (world s.now out)) }
    ensures part { slot_on v slot (world s.now out) ≡ Went (world s.now out) result }
    ensures there { Exists linked.now s.now.arena result }
{
    let _ = linked;
    match v {
        Value::Obj(o) => s.arena.slot(o, slot),
        _ => unreachable!(),
    }
}

/// An element of an array.
#[inline(always)]
fn element_of(linked: &Linked, s: &State, holder: ObjId, index: u32) -> Value
    ghost out: { Outer }
    requires over { StandsOver linked.now s.now.arena }
    requires free { IsOpen (read_element holder index (world s.now out)) }
    ensures part { read_element holder index (world s.now out) ≡ Went (world s.now out) result }
    ensures there { Exists linked.now s.now.arena result }
{
    let _ = linked;
    s.arena.element(holder, index)
}

/// A count, as a value.
fn number(count: u32) -> Value
    ensures is { result ≡ Num (pos count) }
    ensures there { (l : LinkedFile) (h : Heap) → Exists l h result }
{
    Value::Num(i64::from(count))
}

/// The length of an array.
fn length_of(linked: &Linked, s: &State, holder: ObjId) -> Value
    ghost out: { Outer }
    requires over { StandsOver linked.now s.now.arena }
    requires free { IsOpen (length_on holder (world s.now out)) }
    ensures part { length_on holder (world s.now out) ≡ Went (world s.now out) result }
    ensures there { Exists linked.now s.now.arena result }
{
    let _ = linked;
    let count = s.arena.length(holder);
    number(count)
}

/// The value that was found, where no method is.
#[inline(always)]
pub fn value_found(linked: &Linked, s: &State, found: Found, v: Value) -> Result<Value, Stop>
    ghost out: { Outer }
    requires over { StandsOver linked.now s.now.arena }
    requires value { Exists linked.now s.now.arena v }
    requires found { IsFoundThere linked.now s.now.arena found }
    requires free { IsOpen (value_so (setting_in linked.now out) found v (world s.now out)) }
    ensures part { value_so (setting_in linked.now out) found v (world s.now out)
        ≡ part_outcome result (world s.now out) }
    ensures there { IfOk result (Exists linked.now s.now.arena) }
{
    match found {
        Found::Slot { slot, .. } => Ok(slot_of(linked, s, v, slot)),
        Found::Property { value, .. } => Ok(value),
        Found::Element { holder, index } => Ok(element_of(linked, s, holder, index)),
        Found::Length(holder) => Ok(length_of(linked, s, holder)),
        Found::WrongSide => Err(Stop::Errs(HostClass::ReferenceError)),
        Found::Missing => missing_on(linked, s, v),
        Found::Method { .. } => unreachable!(),
        Found::Getter(_) => unreachable!(),
        Found::Setter(_) => unreachable!(),
    }
}

/// A method that is found on a value, which is an object, is bound to it.
fn bind(linked: &Linked, s: &mut State, owner: Owner, method: u32, v: Value) -> Result<Value, Stop>
    ghost out: { Outer }
    requires over { StandsOver linked.now s.old.arena }
    requires value { Exists linked.now s.old.arena v }
    requires owner { owner ≡ owner_of linked.now.file method }
    requires free { IsOpen
        (value_read (setting_in linked.now out) (Method owner method) v (world s.old out)) }
    ensures part { value_read (setting_in linked.now out) (Method owner method) v (world s.old out)
        ≡ part_outcome result (world s.new out) }
    ensures stays { Stays linked.now s.old s.new }
    ensures there { IfOk result (Exists linked.now s.new.arena) }
{
    match v {
        Value::Obj(o) => bound_function(linked, s, owner, method, o),
        _ => unreachable!(),
    }
}

/// The value that was found, where no getter is: a method that is read is bound to the object.
#[inline(always)]
pub(crate) fn value_of(
    linked: &Linked,
    s: &mut State,
    found: Found,
    v: Value,
) -> Result<Value, Stop>
    ghost out: { Outer }
    requires over { StandsOver linked.now s.old.arena }
    requires value { Exists linked.now s.old.arena v }
    requires found { IsFoundThere linked.now s.old.arena found }
    requires free { IsOpen (value_read (setting_in linked.now out) found v (world s.old out)) }
    ensures part { value_read (setting_in linked.now out) found v (world s.old out)
        ≡ part_outcome result (world s.new out) }
    ensures stays { Stays linked.now s.old s.new }
    ensures there { IfOk result (Exists linked.now s.new.arena) }
{
    match found {
        Found::Method { class, method } => bind(linked, s, class, method, v),
        _ => value_found(linked, s, found, v),
    }
}
