ghost use Rattle.std.specs.Prelude.{◌≡◌, ◌+◌, ◌<◌, ◌≤◌, MatchOption, Some, length, pos};
ghost use Rattle.abc_heap_values.specs.declared.values.Value.TheVariants.{Num, Obj};
ghost use Rattle.abc_heap_store.specs.Heap.{elements_of};
ghost use Rattle.abc_frames.specs.Ready.{HasFrameRoom};
ghost use Rattle.abc_objects.specs.Stands.{StandsOver};
ghost use Rattle.abc_objects.specs.Values.{Exists, IsObject};
ghost use Rattle.abc_run_members.specs.AtOnce.{TellsElement};
ghost use Rattle.abc_frames.specs.Frame.{newest};
ghost use Rattle.abc_run_members.specs.Members.{gets_named, parts_at, sets_named};
ghost use Rattle.abc_run_names.specs.Named.{name_form_at};
ghost use Rattle.abc_run_state.specs.Operands.{operand_at};
ghost use Rattle.abc_run_state.specs.Outer.{Outer, setting_in};
ghost use Rattle.abc_run_state.specs.Standing.{IsSet};
ghost use Rattle.abc_meaning.specs.Setting.{NoText};
ghost use Rattle.abc_run_state.specs.Doing.{DoesIf};

use abc_heap_values::{ObjId, Span, Value};
use abc_link::Linked;
use abc_lookup::is_plain;
use abc_objects::{Name, Spaces};
use abc_run_names::late_text;
use abc_run_state::{How, State, operand, settle};

// (A number on the stack tells which element its text would name, so the text is made and isn't read.)

/// A name of some namespaces, where these alone matter.
#[inline(always)]
fn of_any_text(spaces: Spaces) -> Name
    ensures { result.spaces ≡ spaces }
{
    let text = Span {
        part: 0,
        start: 0,
        len: 0,
    };
    Name { spaces, text }
}

/// The number of an element that an array has, for a number.
#[inline(always)]
fn element_numbered(s: &State, o: ObjId, n: i64) -> Option<u32>
    requires { IsObject s.now.arena o }
    ensures { MatchOption result (Unit {0})
        (λ k. (n ≡ pos k) × (k ≤ 4294967294) × (k < length (elements_of s.now.arena.objects o.0))) }
{
    if n < 0 || i64::from(s.arena.length(o)) <= n {
        return None;
    }
    Some(n as u32)
}

/// The number of an element that an array has, for a value.
#[inline(always)]
fn element_of(linked: &Linked, s: &State, o: ObjId, asked: Value) -> Option<u32>
    requires inside { IsObject s.now.arena o }
    requires asked { Exists linked.now s.now.arena asked }
    ensures { MatchOption result (Unit {0})
        (λ k. (asked ≡ Num (pos k)) × (k ≤ 4294967294) × (k < length (elements_of s.now.arena.objects o.0))) }
{
    let _ = linked;
    match asked {
        Value::Num(n) => element_numbered(s, o, n),
        _ => None,
    }
}

/// The number of the element that a value on the stack names on an object, if that is told at once: an array has no traits, and the
/// element is there.
#[inline(always)]
fn element_told(linked: &Linked, s: &State, spaces: Spaces, o: ObjId, asked: Value) -> Option<u32>
    requires over { StandsOver linked.now s.now.arena }
    requires inside { IsObject s.now.arena o }
    requires asked { Exists linked.now s.now.arena asked }
    ensures { MatchOption result (Unit {0}) (TellsElement linked.now s.now.arena spaces o asked) }
{
    if !is_plain(linked, &s.arena, o, &of_any_text(spaces)) {
        return None;
    }
    if !s.arena.is_array(o) {
        return None;
    }
    element_of(linked, s, o, asked)
}

/// `getproperty` of an element by its number: whether it is done, as it is where there is room for the number's text; else nothing is.
#[inline(always)]
fn gets_element(linked: &Linked, s: &mut State, name: u32, spaces: Spaces, o: ObjId, k: u32) -> bool
    ghost out: { Outer }
    requires set { IsSet linked.now s.old }
    requires ready { HasFrameRoom (parts_at (setting_in linked.now out) name + 1) 1 s.old.frames }
    requires form { name_form_at (setting_in linked.now out) name ≡ Some (NoText spaces) }
    requires holder { operand_at 1 (newest s.old.frames) ≡ Obj o }
    requires inside { IsObject s.old.arena o }
    requires told { TellsElement linked.now s.old.arena spaces o (operand_at 0 (newest s.old.frames)) k }
    ensures { DoesIf result linked.now out (λ p. gets_named p name) s.old s.new }
{
    let _ = linked;
    let _ = name;
    let _ = spaces;
    match s.arena.text_of_number(i64::from(k)) {
        Ok(_) => {
            let v = s.arena.element(o, k);
            settle(&mut s.frames, How::Push(2), v);
            true
        }
        Err(_) => false,
    }
}

/// `getproperty` on an object by what is on the stack: whether it is done, as it is where that is the number of an element; else nothing is.
#[inline(always)]
fn gets_numbered(linked: &Linked, s: &mut State, name: u32, spaces: Spaces, o: ObjId) -> bool
    ghost out: { Outer }
    requires set { IsSet linked.now s.old }
    requires ready { HasFrameRoom (parts_at (setting_in linked.now out) name + 1) 1 s.old.frames }
    requires form { name_form_at (setting_in linked.now out) name ≡ Some (NoText spaces) }
    requires holder { operand_at 1 (newest s.old.frames) ≡ Obj o }
    requires inside { IsObject s.old.arena o }
    ensures { DoesIf result linked.now out (λ p. gets_named p name) s.old s.new }
{
    let asked = operand(&s.frames, 0);
    match element_told(linked, s, spaces, o, asked) {
        Some(k) => gets_element(linked, s, name, spaces, o, k),
        None => false,
    }
}

/// `getproperty` by a name of which the text alone comes at run time: whether it is done; else nothing is.
#[inline(never)]
fn gets_text(linked: &Linked, s: &mut State, name: u32, spaces: Spaces) -> bool
    ghost out: { Outer }
    requires set { IsSet linked.now s.old }
    requires ready { HasFrameRoom (parts_at (setting_in linked.now out) name + 1) 1 s.old.frames }
    requires form { name_form_at (setting_in linked.now out) name ≡ Some (NoText spaces) }
    ensures { DoesIf result linked.now out (λ p. gets_named p name) s.old s.new }
{
    let v = operand(&s.frames, 1);
    match v {
        Value::Obj(o) => gets_numbered(linked, s, name, spaces, o),
        _ => false,
    }
}

/// The fast path of `get_property`, by the number of an element: whether it is done. It says no, and has done nothing, of a name whose
/// text doesn't come at run time, and where that isn't the number of an element that an array without traits has.
#[inline(always)]
pub fn get_element_fast(linked: &Linked, s: &mut State, name: u32) -> bool
    ghost out: { Outer }
    requires set { IsSet linked.now s.old }
    requires ready { HasFrameRoom (parts_at (setting_in linked.now out) name + 1) 1 s.old.frames }
    ensures { DoesIf result linked.now out (λ p. gets_named p name) s.old s.new }
{
    match late_text(linked, name) {
        Some(spaces) => gets_text(linked, s, name, spaces),
        None => false,
    }
}

/// `setproperty` and `initproperty` of an element by its number: whether it is done, as it is where there is room for the number's
/// text; else nothing is.
#[inline(always)]
fn sets_element(
    linked: &Linked,
    s: &mut State,
    name: u32,
    spaces: Spaces,
    o: ObjId,
    k: u32,
    initial: bool,
) -> bool
    ghost out: { Outer }
    requires set { IsSet linked.now s.old }
    requires ready { HasFrameRoom (parts_at (setting_in linked.now out) name + 2) 0 s.old.frames }
    requires form { name_form_at (setting_in linked.now out) name ≡ Some (NoText spaces) }
    requires holder { operand_at 2 (newest s.old.frames) ≡ Obj o }
    requires inside { IsObject s.old.arena o }
    requires told { TellsElement linked.now s.old.arena spaces o (operand_at 1 (newest s.old.frames)) k }
    ensures { DoesIf result linked.now out (λ p. sets_named p name initial) s.old s.new }
{
    let _ = linked;
    let _ = name;
    let _ = spaces;
    let _ = initial;
    match s.arena.text_of_number(i64::from(k)) {
        Ok(_) => {
            let x = operand(&s.frames, 0);
            s.arena.set_element(o, k, x);
            settle(&mut s.frames, How::Drop(3), Value::Undefined);
            true
        }
        Err(_) => false,
    }
}

/// `setproperty` and `initproperty` on an object by what is on the stack: whether it is done, as it is where that is the number of an element;
/// else nothing is.
#[inline(always)]
fn sets_numbered(
    linked: &Linked,
    s: &mut State,
    name: u32,
    spaces: Spaces,
    o: ObjId,
    initial: bool,
) -> bool
    ghost out: { Outer }
    requires set { IsSet linked.now s.old }
    requires ready { HasFrameRoom (parts_at (setting_in linked.now out) name + 2) 0 s.old.frames }
    requires form { name_form_at (setting_in linked.now out) name ≡ Some (NoText spaces) }
    requires holder { operand_at 2 (newest s.old.frames) ≡ Obj o }
    requires inside { IsObject s.old.arena o }
    ensures { DoesIf result linked.now out (λ p. sets_named p name initial) s.old s.new }
{
    let asked = operand(&s.frames, 1);
    match element_told(linked, s, spaces, o, asked) {
        Some(k) => sets_element(linked, s, name, spaces, o, k, initial),
        None => false,
    }
}

/// `setproperty` and `initproperty` by a name of which the text alone comes at run time: whether it is done; else nothing is.
#[inline(never)]
fn sets_text(linked: &Linked, s: &mut State, name: u32, spaces: Spaces, initial: bool) -> bool
    ghost out: { Outer }
    requires set { IsSet linked.now s.old }
    requires ready { HasFrameRoom (parts_at (setting_in linked.now out) name + 2) 0 s.old.frames }
    requires form { name_form_at (setting_in linked.now out) name ≡ Some (NoText spaces) }
    ensures { DoesIf result linked.now out (λ p. sets_named p name initial) s.old s.new }
{
    let v = operand(&s.frames, 2);
    match v {
        Value::Obj(o) => sets_numbered(linked, s, name, spaces, o, initial),
        _ => false,
    }
}

/// The fast path of `set_property`, by the number of an element: whether it is done. It says no, and has done nothing, of a name whose
/// text doesn't come at run time, and where that isn't the number of an element that an array without traits has.
#[inline(always)]
pub fn set_element_fast(linked: &Linked, s: &mut State, name: u32, initial: bool) -> bool
    ghost out: { Outer }
    requires set { IsSet linked.now s.old }
    requires ready { HasFrameRoom (parts_at (setting_in linked.now out) name + 2) 0 s.old.frames }
    ensures { DoesIf result linked.now out (λ p. sets_named p name initial) s.old s.new }
{
    match late_text(linked, name) {
        Some(spaces) => sets_text(linked, s, name, spaces, initial),
        None => false,
    }
}
