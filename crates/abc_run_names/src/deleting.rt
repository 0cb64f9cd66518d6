ghost use Rattle.std.specs.Prelude.{◌≡◌, ◌+◌, ◌<◌, length, true};
ghost use Rattle.abc_heap_values.specs.declared.values.Value.TheVariants.{Obj, Undefined};
ghost use Rattle.abc_heap_store.specs.Changes.{with_element, with_object};
ghost use Rattle.abc_heap_store.specs.Heap.{elements_of};
ghost use Rattle.abc_heap_store.specs.Texts.{IsText};
ghost use Rattle.abc_frames.specs.Ready.{HasFrameRoom};
ghost use Rattle.abc_objects.specs.Stands.{StandsOver};
ghost use Rattle.abc_objects.specs.Values.{Exists, IsObject};
ghost use Rattle.abc_objects.specs.Laws.{IsFoundPresent};
ghost use Rattle.abc_frames.specs.Frame.{newest};
ghost use Rattle.abc_run_state.specs.Outer.{Outer, setting_in, world};
ghost use Rattle.abc_run_state.specs.Standing.{IsSet, Stays};
ghost use Rattle.abc_run_state.specs.Stops.{IsOpen, part_outcome};
ghost use Rattle.abc_meaning.specs.Members.{delete_found as found_deleted, deletes, deletes_own, is_dynamic as is_dynamic_value};
ghost use Rattle.abc_meaning.specs.Objects.{without_property};
ghost use Rattle.abc_meaning.specs.Setting.{is_dynamic_part as is_dynamic_of};
ghost use Rattle.abc_meaning.specs.World.{Went, changes};
ghost use Rattle.abc_run_names.specs.Deleted.{deletes_named};
ghost use Rattle.abc_run_names.specs.Named.{name_form_at, name_parts_count};
ghost use Rattle.abc_run_state.specs.Doing.{Does};

use crate::runtime_names::{name_of, parts_of};
use abc_base::HostClass;
use abc_file_types::has_flag;
use abc_frames::finish;
use abc_heap_values::{ObjId, Span, Value};
use abc_link::Linked;
use abc_link_names::{Part, class_flags};
use abc_lookup::find_on;
use abc_objects::{Found, Name, Want, found_is_there};
use abc_run_state::{State, Stop, operand};

/// All objects are dynamic but activations, catch objects and instances of sealed classes.
fn is_dynamic_part(linked: &Linked, part: Part) -> bool
    ensures { (out : Outer) → result ≡ is_dynamic_of (setting_in linked.now out) part }
{
    match part {
        Part::Activation(_) => false,
        Part::Catch(_, _) => false,
        Part::Instance(class) => !has_flag(class_flags(linked.abc(), class), 0x01),
        Part::Host(_) => true,
        Part::ClassObject(_) => true,
        Part::HostClassObject(_) => true,
        Part::Global(_) => true,
    }
}

fn is_dynamic_object(linked: &Linked, s: &State, o: ObjId) -> bool
    requires over { StandsOver linked.now s.now.arena }
    requires object { IsObject s.now.arena o }
    ensures { (out : Outer)
        → result ≡ is_dynamic_value (setting_in linked.now out) (Obj o) (world s.now out) }
{
    is_dynamic_part(linked, linked.part_of(s.arena.layout(o)))
}

/// Whether a value is a dynamic object.
pub fn is_dynamic(linked: &Linked, s: &State, v: Value) -> bool
    requires over { StandsOver linked.now s.now.arena }
    requires value { Exists linked.now s.now.arena v }
    ensures { (out : Outer) → result ≡ is_dynamic_value (setting_in linked.now out) v (world s.now out) }
{
    match v {
        Value::Obj(o) => is_dynamic_object(linked, s, o),
        Value::Undefined => false,
        Value::Null => false,
        Value::Num(_) => false,
        Value::Bool(_) => false,
        Value::Text(_) => false,
        Value::Space(_) => false,
    }
}

/// Deletes an own property; one of a delegate stays.
fn delete_own(linked: &Linked, s: &mut State, holder: ObjId, o: ObjId, text: Span)
    requires over { StandsOver linked.now s.old.arena }
    requires object { IsObject s.old.arena o }
    requires text { IsText linked.now.file.strings s.old.arena text }
    ensures part { (out : Outer)
        → deletes_own holder o (changes (without_property (setting_in linked.now out) o text) (λ h. tt))
        (world s.old out) ≡ Went (world s.new out) true }
    ensures stays { Stays linked.now s.old s.new }
{
    if holder.0 != o.0 {
        return;
    }
    s.arena.delete_property(linked, o, text);
}

/// Makes an own element undefined; one of a delegate stays.
fn delete_element(linked: &Linked, s: &mut State, holder: ObjId, o: ObjId, index: u32)
    requires over { StandsOver linked.now s.old.arena }
    requires index { index < length (elements_of s.old.arena.objects holder.0) }
    ensures part { (out : Outer)
        → deletes_own holder o (changes (with_object (with_element index Undefined) o.0) (λ h. tt))
        (world s.old out) ≡ Went (world s.new out) true }
    ensures stays { Stays linked.now s.old s.new }
{
    let _ = linked;
    if holder.0 != o.0 {
        return;
    }
    s.arena.set_element(o, index, Value::Undefined);
}

/// Deletes what was found on a dynamic object, and tells whether it may.
fn delete_found(linked: &Linked, s: &mut State, o: ObjId, text: Span, found: Found) -> bool
    requires over { StandsOver linked.now s.old.arena }
    requires object { IsObject s.old.arena o }
    requires text { IsText linked.now.file.strings s.old.arena text }
    requires found { IsFoundPresent s.old.arena found }
    ensures part { (out : Outer)
        → found_deleted (setting_in linked.now out) o text found (world s.old out)
        ≡ Went (world s.new out) result }
    ensures stays { Stays linked.now s.old s.new }
{
    match found {
        Found::Property { holder, .. } => {
            delete_own(linked, s, holder, o, text);
            true
        }
        Found::Element { holder, index } => {
            delete_element(linked, s, holder, o, index);
            true
        }
        Found::Length(holder) => holder.0 != o.0,
        Found::Missing => true,
        Found::Slot { .. } => false,
        Found::Method { .. } => false,
        Found::Getter(_) => false,
        Found::Setter(_) => false,
        Found::WrongSide => false,
    }
}

/// Deletes by a name on an object, and tells whether it may.
fn delete_on(linked: &Linked, s: &mut State, o: ObjId, name: &Name) -> bool
    requires over { StandsOver linked.now s.old.arena }
    requires object { IsObject s.old.arena o }
    requires text { IsText linked.now.file.strings s.old.arena name.now.text }
    ensures part { (out : Outer)
        → deletes (setting_in linked.now out) (Obj o) name.now (world s.old out)
        ≡ Went (world s.new out) result }
    ensures stays { Stays linked.now s.old s.new }
{
    found_is_there();
    let found = find_on(linked, &s.arena, Value::Obj(o), name, Want::Read);
    let dynamic = is_dynamic_object(linked, s, o);
    if !dynamic {
        return false;
    }
    delete_found(linked, s, o, name.text, found)
}

/// Deletes by a name on a value, and tells whether it may; null and undefined throw.
fn delete(linked: &Linked, s: &mut State, v: Value, name: &Name) -> Result<bool, Stop>
    requires over { StandsOver linked.now s.old.arena }
    requires value { Exists linked.now s.old.arena v }
    requires text { IsText linked.now.file.strings s.old.arena name.now.text }
    ensures part { (out : Outer)
        → deletes (setting_in linked.now out) v name.now (world s.old out)
        ≡ part_outcome result (world s.new out) }
    ensures stays { Stays linked.now s.old s.new }
{
    match v {
        Value::Obj(o) => Ok(delete_on(linked, s, o, name)),
        Value::Undefined => Err(Stop::Errs(HostClass::TypeError)),
        Value::Null => Err(Stop::Errs(HostClass::TypeError)),
        Value::Num(_) => Ok(false),
        Value::Bool(_) => Ok(false),
        Value::Text(_) => Ok(false),
        Value::Space(_) => Ok(false),
    }
}

/// `deleteproperty`: of the object under the parts of the name.
pub fn delete_property(linked: &Linked, s: &mut State, name: u32) -> Result<(), Stop>
    ghost out: { Outer }
    requires set { IsSet linked.now s.old }
    requires ready { HasFrameRoom (name_parts_count (name_form_at (setting_in linked.now out) name) + 1) 1
        s.old.frames }
    requires free { IsOpen
        (deletes_named (setting_in linked.now out) name (newest s.old.frames) (world s.old out)) }
    ensures { Does linked.now out (λ p. deletes_named p name) s.old result s.new }
{
    let parts = parts_of(linked, name);
    let v = operand(&s.frames, parts);
    let wanted = name_of(linked, s, name, 0)?;
    let is = delete(linked, s, v, &wanted)?;
    finish(&mut s.frames, parts + 1, Value::Bool(is));
    Ok(())
}
