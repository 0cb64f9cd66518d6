ghost use Rattle.std.specs.Prelude.{◌≡◌, ◌<◌, ◌≤◌, Bool, true, length, not, MatchOption, None, Some, ◌||◌};
ghost use Rattle.abc_heap_values.specs.declared.values.Value.TheVariants.{Obj};
ghost use Rattle.abc_heap_store.specs.Heap.{elements_of, object_at};
ghost use Rattle.abc_heap_store.specs.Texts.{IsText};
ghost use Rattle.abc_heap_store.specs.What.{is_array};
ghost use Rattle.abc_lookup.specs.Named.{element_in};
ghost use Rattle.abc_frames.specs.Ready.{HasFrameRoom};
ghost use Rattle.abc_objects.specs.Stands.{StandsOver};
ghost use Rattle.abc_objects.specs.Values.{Exists, IsObject};
ghost use Rattle.abc_objects.specs.ElementNames.{IsNumber};
ghost use Rattle.abc_frames.specs.Frame.{newest};
ghost use Rattle.abc_run_state.specs.Operands.{operand_at};
ghost use Rattle.abc_run_state.specs.Outer.{Outer, setting_in, world};
ghost use Rattle.abc_run_state.specs.Settling.{given_by_how, taken_by};
ghost use Rattle.abc_run_state.specs.Standing.{IsSet, Stays};
ghost use Rattle.abc_run_state.specs.Stops.{IsOpen, part_outcome};
ghost use Rattle.abc_meaning.specs.Members.{write_element as write_element_so, write_own as write_own_so, write_property as write_property_so, writes_to};
ghost use Rattle.abc_run_members.specs.Members.{may_take_property as may_take_so, public_written, puts_element, slot_written_if, value_written, writes_found, writes_value};
ghost use Rattle.abc_run_calls.specs.Doing.{CanDo};
ghost use Rattle.abc_run_state.specs.Doing.{Does};

use crate::found::enter_on;
use abc_base::{Fault, HostClass};
use abc_heap_values::{ObjId, Span, Value};
use abc_link::Linked;
use abc_lookup::{ElementName, element_named, holds_public, is_plain};
use abc_objects::{Found, Name};
use abc_run_names::{is_dynamic, write_slot};
use abc_run_state::{How, State, Stop, put_property, settle};

/// Writes an element of an array: it is replaced, or added at the end.
#[inline(always)]
fn write_element(linked: &Linked, s: &mut State, o: ObjId, k: u32, v: Value) -> Result<(), Stop>
    requires over { StandsOver linked.now s.old.arena }
    requires inside { IsObject s.old.arena o }
    requires array { is_array (object_at s.old.arena.objects o.0).what ≡ true }
    requires value { Exists linked.now s.old.arena v }
    ensures part { (out : Outer)
        → write_element_so o (length (elements_of s.old.arena.objects o.0)) k v (world s.old out)
        ≡ part_outcome result (world s.new out) }
    ensures stays { Stays linked.now s.old s.new }
{
    let _ = linked;
    let length = s.arena.length(o);
    if k < length {
        s.arena.set_element(o, k, v);
        return Ok(());
    }
    if length < k {
        return Err(Stop::Faults(Fault::ArrayIndex));
    }
    match s.arena.push_element(o, v) {
        Ok(()) => Ok(()),
        Err(full) => Err(Stop::Fills(full.0)),
    }
}

/// The number of an element that an array has, which a name names.
#[inline(always)]
fn kept_at(s: &State, o: ObjId, element: ElementName) -> Option<u32>
    requires { IsObject s.now.arena o }
    ensures { MatchOption result (Unit {0}) (λ k. (element_in (Some element) ≡ Some (IsNumber k))
        × (k < length (elements_of s.now.arena.objects o.0))) }
{
    match element {
        ElementName::Number(k) => { if k < s.arena.length(o) { Some(k) } else { None } }
        ElementName::Length => None,
    }
}

/// The number of the element that is replaced by a write on an object by a name, if that is told at once: an array has no traits,
/// and the element is there.
#[inline(always)]
pub(crate) fn kept_element(linked: &Linked, s: &State, o: ObjId, name: &Name) -> Option<u32>
    requires over { StandsOver linked.now s.now.arena }
    requires inside { IsObject s.now.arena o }
    requires name { IsText linked.now.file.strings s.now.arena name.now.text }
    ensures { MatchOption result (Unit {0}) (λ k. (k < length (elements_of s.now.arena.objects o.0))
        × ((out : Outer) (x : Value) (initial : Bool)
        → writes_to (setting_in linked.now out) (Obj o) name.now x initial (world s.now out)
        ≡ puts_element o (length (elements_of s.now.arena.objects o.0)) k x
        (world s.now out))) }
{
    if !is_plain(linked, &s.arena, o, name) {
        return None;
    }
    match element_named(linked, &s.arena, o, name.text) {
        Some(element) => kept_at(s, o, element),
        None => None,
    }
}

/// Whether an object may take a property of a text: it is dynamic, or has one of its own.
#[inline(always)]
fn may_take(linked: &Linked, s: &State, o: ObjId, text: Span) -> bool
    requires over { StandsOver linked.now s.now.arena }
    requires inside { IsObject s.now.arena o }
    requires name { IsText linked.now.file.strings s.now.arena text }
    ensures { (out : Outer) → result ≡ may_take_so (setting_in linked.now out) o text (world s.now out) }
{
    if is_dynamic(linked, s, Value::Obj(o)) {
        return true;
    }
    s.arena.property(linked, o, text).is_some()
}

/// Writes a property that no element is: an own one takes the value, and a dynamic object makes one.
#[inline(always)]
fn write_own(linked: &Linked, s: &mut State, o: ObjId, text: Span, v: Value) -> Result<(), Stop>
    requires over { StandsOver linked.now s.old.arena }
    requires inside { IsObject s.old.arena o }
    requires name { IsText linked.now.file.strings s.old.arena text }
    requires value { Exists linked.now s.old.arena v }
    ensures part { (out : Outer)
        → write_own_so (setting_in linked.now out) o (object_at s.old.arena.objects o.0) text v None
        (world s.old out) ≡ part_outcome result (world s.new out) }
    ensures stays { Stays linked.now s.old s.new }
{
    if may_take(linked, s, o, text) {
        put_property(linked, s, o, text, v)
    } else {
        Err(Stop::Errs(HostClass::ReferenceError))
    }
}

/// Writes a property of an object; an array's element names come first.
#[inline(always)]
fn write_property(
    linked: &Linked,
    s: &mut State,
    o: ObjId,
    text: Span,
    v: Value,
) -> Result<(), Stop>
    requires over { StandsOver linked.now s.old.arena }
    requires inside { IsObject s.old.arena o }
    requires name { IsText linked.now.file.strings s.old.arena text }
    requires value { Exists linked.now s.old.arena v }
    ensures part { (out : Outer)
        → write_property_so (setting_in linked.now out) o text v (world s.old out)
        ≡ part_outcome result (world s.new out) }
    ensures stays { Stays linked.now s.old s.new }
{
    match element_named(linked, &s.arena, o, text) {
        Some(name) => match name {
            ElementName::Length => Err(Stop::Errs(HostClass::ReferenceError)),
            ElementName::Number(k) => write_element(linked, s, o, k, v),
        },
        None => write_own(linked, s, o, text, v),
    }
}

/// Writes a slot, unless it is constant and not written for the first time.
fn write_to_slot(
    linked: &Linked,
    s: &mut State,
    o: ObjId,
    slot: u32,
    v: Value,
    allowed: bool,
) -> Result<(), Stop>
    ghost out: { Outer }
    requires over { StandsOver linked.now s.old.arena }
    requires inside { IsObject s.old.arena o }
    requires value { Exists linked.now s.old.arena v }
    requires free { IsOpen (slot_written_if allowed (setting_in linked.now out) o slot v (world s.old out)) }
    ensures part { slot_written_if allowed (setting_in linked.now out) o slot v (world s.old out)
        ≡ part_outcome result (world s.new out) }
    ensures stays { Stays linked.now s.old s.new }
{
    if allowed {
        write_slot(linked, s, o, slot, v)
    } else {
        Err(Stop::Errs(HostClass::ReferenceError))
    }
}

/// Whether a slot may be written: a constant one only for the first time.
fn may_write(constant: bool, initial: bool) -> bool
    ensures { result ≡ (initial || not constant) }
{
    initial || !constant
}

/// Writes a property, where the name holds the public namespace.
#[inline(always)]
fn write_public(linked: &Linked, s: &mut State, o: ObjId, name: &Name, v: Value) -> Result<(), Stop>
    requires over { StandsOver linked.now s.old.arena }
    requires inside { IsObject s.old.arena o }
    requires name { IsText linked.now.file.strings s.old.arena name.now.text }
    requires value { Exists linked.now s.old.arena v }
    ensures part { (out : Outer)
        → public_written (setting_in linked.now out) o name.now v (world s.old out)
        ≡ part_outcome result (world s.new out) }
    ensures stays { Stays linked.now s.old s.new }
{
    if holds_public(linked, name.spaces) {
        write_property(linked, s, o, name.text, v)
    } else {
        Err(Stop::Errs(HostClass::ReferenceError))
    }
}

/// Writes what was found among the declared traits, where no setter is; where nothing was, a property.
#[inline(always)]
fn write_value(
    linked: &Linked,
    s: &mut State,
    o: ObjId,
    name: &Name,
    v: Value,
    initial: bool,
    found: Found,
) -> Result<(), Stop>
    ghost out: { Outer }
    requires over { StandsOver linked.now s.old.arena }
    requires inside { IsObject s.old.arena o }
    requires name { IsText linked.now.file.strings s.old.arena name.now.text }
    requires value { Exists linked.now s.old.arena v }
    requires free { IsOpen
        (value_written (setting_in linked.now out) o name.now v initial found (world s.old out)) }
    ensures part { value_written (setting_in linked.now out) o name.now v initial found (world s.old out)
        ≡ part_outcome result (world s.new out) }
    ensures stays { Stays linked.now s.old s.new }
{
    match found {
        Found::Slot { slot, constant } => {
            write_to_slot(linked, s, o, slot, v, may_write(constant, initial))
        }
        Found::Missing => write_public(linked, s, o, name, v),
        Found::Method { .. } => Err(Stop::Errs(HostClass::ReferenceError)),
        Found::WrongSide => Err(Stop::Errs(HostClass::ReferenceError)),
        _ => unreachable!(),
    }
}

/// Writes what was found, where no setter is, and settles at once.
#[inline(always)]
fn write_at_once(
    linked: &Linked,
    s: &mut State,
    o: ObjId,
    name: &Name,
    v: Value,
    initial: bool,
    found: Found,
    how: How,
) -> Result<(), Stop>
    ghost out: { Outer }
    requires set { IsSet linked.now s.old }
    requires ready { HasFrameRoom (taken_by how) (given_by_how how) s.old.frames }
    requires inside { IsObject s.old.arena o }
    requires name { IsText linked.now.file.strings s.old.arena name.now.text }
    requires value { Exists linked.now s.old.arena v }
    requires free { IsOpen (writes_value (setting_in linked.now out) o name.now v initial found how
        (newest s.old.frames) (world s.old out)) }
    ensures { Does linked.now out (λ p. writes_value p o name.now v initial found how) s.old result s.new }
{
    write_value(linked, s, o, name, v, initial, found)?;
    settle(&mut s.frames, how, Value::Undefined);
    Ok(())
}

/// The same as `write_at_once`, for a found trait.
#[inline(never)]
fn write_declared(
    linked: &Linked,
    s: &mut State,
    o: ObjId,
    name: &Name,
    v: Value,
    initial: bool,
    found: Found,
    how: How,
) -> Result<(), Stop>
    ghost out: { Outer }
    requires set { IsSet linked.now s.old }
    requires ready { HasFrameRoom (taken_by how) (given_by_how how) s.old.frames }
    requires inside { IsObject s.old.arena o }
    requires name { IsText linked.now.file.strings s.old.arena name.now.text }
    requires value { Exists linked.now s.old.arena v }
    requires free { IsOpen (writes_value (setting_in linked.now out) o name.now v initial found how
        (newest s.old.frames) (world s.old out)) }
    ensures { Does linked.now out (λ p. writes_value p o name.now v initial found how) s.old result s.new }
{
    write_at_once(linked, s, o, name, v, initial, found, how)
}

/// Writes what was found among the declared traits; where nothing was, a property, and nothing else is asked then. The value is the top
/// operand, where a setter finds it.
#[inline(always)]
pub fn write_found(
    linked: &Linked,
    s: &mut State,
    o: ObjId,
    name: &Name,
    v: Value,
    initial: bool,
    found: Found,
    how: How,
) -> Result<(), Stop>
    ghost out: { Outer }
    requires can { CanDo linked.now out (λ p. writes_found p o name.now v initial found how) s.old }
    requires ready { HasFrameRoom (taken_by how) (given_by_how how) s.old.frames }
    requires one { 1 ≤ taken_by how }
    requires inside { IsObject s.old.arena o }
    requires name { IsText linked.now.file.strings s.old.arena name.now.text }
    requires value { Exists linked.now s.old.arena v }
    requires top { v ≡ operand_at 0 (newest s.old.frames) }
    ensures { Does linked.now out (λ p. writes_found p o name.now v initial found how) s.old result s.new }
{
    match found {
        Found::Missing => write_at_once(linked, s, o, name, v, initial, Found::Missing, how),
        Found::Setter(method) => enter_on(linked, s, method, Value::Obj(o), 1, how),
        _ => write_declared(linked, s, o, name, v, initial, found, how),
    }
}
