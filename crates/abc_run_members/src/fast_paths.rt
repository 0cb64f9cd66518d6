ghost use Rattle.std.specs.Prelude.{◌≡◌, ◌+◌, ◌<◌, ◌^◌, Bool, Some, true, Ok};
ghost use Rattle.abc_heap_store.specs.Texts.{IsText};
ghost use Rattle.abc_frames.specs.Ready.{HasFrameRoom};
ghost use Rattle.abc_objects.specs.Stands.{StandsOver};
ghost use Rattle.abc_objects.specs.Values.{Exists, IsObject};
ghost use Rattle.abc_frames.specs.Frame.{newest};
ghost use Rattle.abc_heap_values.specs.declared.values.Value.TheVariants.{Obj};
ghost use Rattle.abc_run_names.specs.Named.{name_form_at};
ghost use Rattle.abc_run_state.specs.Operands.{operand_at};
ghost use Rattle.abc_run_state.specs.Outer.{Outer, setting_in, world};
ghost use Rattle.abc_run_state.specs.Settling.{given_by_how, taken_by};
ghost use Rattle.abc_run_state.specs.Standing.{IsSet};
ghost use Rattle.abc_run_state.specs.declared.state.Left.TheVariants.{Goes};
ghost use Rattle.abc_meaning.specs.Members.{writes_to};
ghost use Rattle.abc_meaning.specs.Setting.{Whole};
ghost use Rattle.abc_run_members.specs.Members.{calls_named, gets_named, parts_at, puts_own, puts_top, sets_named};
ghost use Rattle.abc_run_calls.specs.Doing.{CanDo, Dispatches};
ghost use Rattle.abc_run_state.specs.Doing.{DoesIf};

use crate::found::call_object_method;
use crate::naming::find_first_on;
use crate::searching::call_searching;
use abc_heap_values::{ObjId, Span, Value};
use abc_link::Linked;
use abc_lookup::{first_method, is_plain};
use abc_objects::{Found, Name};
use abc_run_names::{is_dynamic, whole_name};
use abc_run_state::{How, Left, State, Stop, operand, settle};

// (What is common needs no search: it stands in functions that hand on no name through memory, and answer whether they did it. All
// else is done by functions that begin anew.)

/// `getproperty` on an object, by a name of which no part comes at run time: whether it is done, as it is where a property is found
/// at once; else nothing is.
#[inline(always)]
fn gets_on_object(linked: &Linked, s: &mut State, name: u32, wanted: &Name, o: ObjId) -> bool
    ghost out: { Outer }
    requires set { IsSet linked.now s.old }
    requires ready { HasFrameRoom (parts_at (setting_in linked.now out) name + 1) 1 s.old.frames }
    requires form { name_form_at (setting_in linked.now out) name ≡ Some (Whole wanted.now) }
    requires text { IsText linked.now.file.strings s.old.arena wanted.now.text }
    requires holder { operand_at 0 (newest s.old.frames) ≡ Obj o }
    requires inside { IsObject s.old.arena o }
    ensures { DoesIf result linked.now out (λ p. gets_named p name) s.old s.new }
{
    let _ = name;
    let found = find_first_on(linked, s, o, wanted);
    match found {
        Found::Property { value, .. } => {
            settle(&mut s.frames, How::Push(1), value);
            true
        }
        _ => false,
    }
}

/// `getproperty` by a name of which no part comes at run time: whether it is done; else nothing is.
#[inline(always)]
fn gets_whole(linked: &Linked, s: &mut State, name: u32, wanted: &Name) -> bool
    ghost out: { Outer }
    requires set { IsSet linked.now s.old }
    requires ready { HasFrameRoom (parts_at (setting_in linked.now out) name + 1) 1 s.old.frames }
    requires form { name_form_at (setting_in linked.now out) name ≡ Some (Whole wanted.now) }
    requires text { IsText linked.now.file.strings s.old.arena wanted.now.text }
    ensures { DoesIf result linked.now out (λ p. gets_named p name) s.old s.new }
{
    let v = operand(&s.frames, 0);
    match v {
        Value::Obj(o) => gets_on_object(linked, s, name, wanted, o),
        _ => false,
    }
}

/// The fast path of `get_property`, by a name of which no part comes at run time: whether it is done. It says no, and has done nothing,
/// of any other name, and where something else than a property of an object is found first.
#[inline(always)]
pub fn get_property_fast(linked: &Linked, s: &mut State, name: u32) -> bool
    ghost out: { Outer }
    requires set { IsSet linked.now s.old }
    requires ready { HasFrameRoom (parts_at (setting_in linked.now out) name + 1) 1 s.old.frames }
    ensures { DoesIf result linked.now out (λ p. gets_named p name) s.old s.new }
{
    match whole_name(linked, name) {
        Some(wanted) => gets_whole(linked, s, name, &wanted),
        None => false,
    }
}

/// Whether what is written by a name on an object is a property of its own in any case: it has no traits, is no array, and is
/// dynamic.
#[inline(always)]
fn takes_own(linked: &Linked, s: &State, o: ObjId, name: &Name) -> bool
    requires over { StandsOver linked.now s.now.arena }
    requires inside { IsObject s.now.arena o }
    ensures { result ≡ true → (out : Outer) (x : Value) (initial : Bool)
        → writes_to (setting_in linked.now out) (Obj o) name.now x initial (world s.now out)
        ≡ puts_own (setting_in linked.now out) o name.now.text x (world s.now out) }
{
    if !is_plain(linked, &s.arena, o, name) {
        return false;
    }
    if s.arena.is_array(o) {
        return false;
    }
    is_dynamic(linked, s, Value::Obj(o))
}

/// An object takes a value, the top operand, as a property of its own, and the two top operands leave: whether it is done, as it is
/// where there is room; else nothing is.
#[inline(always)]
fn puts(linked: &Linked, s: &mut State, o: ObjId, text: Span, x: Value) -> bool
    ghost out: { Outer }
    requires set { IsSet linked.now s.old }
    requires ready { HasFrameRoom 2 0 s.old.frames }
    requires inside { IsObject s.old.arena o }
    requires text { IsText linked.now.file.strings s.old.arena text }
    requires value { Exists linked.now s.old.arena x }
    requires top { x ≡ operand_at 0 (newest s.old.frames) }
    ensures { DoesIf result linked.now out (λ p. puts_top p o text) s.old s.new }
{
    match s.arena.set_property(linked, o, text, x) {
        Ok(()) => {
            settle(&mut s.frames, How::Drop(2), Value::Undefined);
            true
        }
        Err(_) => false,
    }
}

/// The same as `puts`, of any value.
#[inline(never)]
fn puts_value(linked: &Linked, s: &mut State, o: ObjId, text: Span) -> bool
    ghost out: { Outer }
    requires set { IsSet linked.now s.old }
    requires ready { HasFrameRoom 2 0 s.old.frames }
    requires inside { IsObject s.old.arena o }
    requires text { IsText linked.now.file.strings s.old.arena text }
    ensures { DoesIf result linked.now out (λ p. puts_top p o text) s.old s.new }
{
    let x = operand(&s.frames, 0);
    puts(linked, s, o, text, x)
}

/// The same text, in a place of its own: so one that no function is handed has no place in memory.
#[inline(always)]
fn again(text: Span) -> Span
    ensures { result ≡ text }
{
    Span {
        part: text.part,
        start: text.start,
        len: text.len,
    }
}

/// The same as `puts`, of the top operand. (Most often it is a number, of which no more is copied.)
#[inline(always)]
fn puts_at_once(linked: &Linked, s: &mut State, o: ObjId, text: Span) -> bool
    ghost out: { Outer }
    requires set { IsSet linked.now s.old }
    requires ready { HasFrameRoom 2 0 s.old.frames }
    requires inside { IsObject s.old.arena o }
    requires text { IsText linked.now.file.strings s.old.arena text }
    ensures { DoesIf result linked.now out (λ p. puts_top p o text) s.old s.new }
{
    let top = operand(&s.frames, 0);
    match top {
        Value::Num(n) => puts(linked, s, o, text, Value::Num(n)),
        _ => puts_value(linked, s, o, again(text)),
    }
}

/// `setproperty` and `initproperty` on an object, by a name of which no part comes at run time: whether it is done, as it is where
/// the object has no traits; else nothing is.
#[inline(always)]
fn sets_on_object(
    linked: &Linked,
    s: &mut State,
    name: u32,
    wanted: &Name,
    o: ObjId,
    initial: bool,
) -> bool
    ghost out: { Outer }
    requires set { IsSet linked.now s.old }
    requires ready { HasFrameRoom (parts_at (setting_in linked.now out) name + 2) 0 s.old.frames }
    requires form { name_form_at (setting_in linked.now out) name ≡ Some (Whole wanted.now) }
    requires text { IsText linked.now.file.strings s.old.arena wanted.now.text }
    requires holder { operand_at 1 (newest s.old.frames) ≡ Obj o }
    requires inside { IsObject s.old.arena o }
    ensures { DoesIf result linked.now out (λ p. sets_named p name initial) s.old s.new }
{
    let _ = name;
    let _ = initial;
    if takes_own(linked, s, o, wanted) {
        puts_at_once(linked, s, o, wanted.text)
    } else {
        false
    }
}

/// `setproperty` and `initproperty` by a name of which no part comes at run time: whether it is done; else nothing is.
#[inline(always)]
fn sets_whole(linked: &Linked, s: &mut State, name: u32, wanted: &Name, initial: bool) -> bool
    ghost out: { Outer }
    requires set { IsSet linked.now s.old }
    requires ready { HasFrameRoom (parts_at (setting_in linked.now out) name + 2) 0 s.old.frames }
    requires form { name_form_at (setting_in linked.now out) name ≡ Some (Whole wanted.now) }
    requires text { IsText linked.now.file.strings s.old.arena wanted.now.text }
    ensures { DoesIf result linked.now out (λ p. sets_named p name initial) s.old s.new }
{
    let v = operand(&s.frames, 1);
    match v {
        Value::Obj(o) => sets_on_object(linked, s, name, wanted, o, initial),
        _ => false,
    }
}

/// The fast path of `set_property`, by a name of which no part comes at run time: whether it is done. It says no, and has done nothing,
/// of any other name, and where the holder is no object that takes a property of its own: one that has traits, is an array, isn't
/// dynamic, or has no room.
#[inline(always)]
pub fn set_property_fast(linked: &Linked, s: &mut State, name: u32, initial: bool) -> bool
    ghost out: { Outer }
    requires set { IsSet linked.now s.old }
    requires ready { HasFrameRoom (parts_at (setting_in linked.now out) name + 2) 0 s.old.frames }
    ensures { DoesIf result linked.now out (λ p. sets_named p name initial) s.old s.new }
{
    match whole_name(linked, name) {
        Some(wanted) => sets_whole(linked, s, name, &wanted, initial),
        None => false,
    }
}

/// A call on an object, by a name of which no part comes at run time: an own method of its layout is entered. It answers
/// whether the frame goes on; else `left` says why not.
#[inline(always)]
fn call_on_object(
    linked: &Linked,
    s: &mut State,
    name: u32,
    wanted: &Name,
    o: ObjId,
    count: u32,
    lexical: bool,
    how: How,
    left: &mut Result<Left, Stop>,
) -> bool
    ghost out: { Outer }
    requires can { CanDo linked.now out (λ p. calls_named p name count lexical how) s.old }
    requires ready { HasFrameRoom (count + parts_at (setting_in linked.now out) name + 1) (given_by_how how)
        s.old.frames }
    requires count { count < 2 ^ 30 }
    requires how { taken_by how ≡ count + parts_at (setting_in linked.now out) name + 1 }
    requires form { name_form_at (setting_in linked.now out) name ≡ Some (Whole wanted.now) }
    requires text { IsText linked.now.file.strings s.old.arena wanted.now.text }
    requires holder { operand_at count (newest s.old.frames) ≡ Obj o }
    requires inside { IsObject s.old.arena o }
    requires none { left.old ≡ Ok Goes }
    ensures { Dispatches linked.now out (λ p. calls_named p name count lexical how) s.old result left.new
        s.new }
{
    match first_method(linked, &s.arena, o, wanted) {
        Some(method) => call_object_method(linked, s, method, o, count, how, left),
        None => call_searching(linked, s, name, count, lexical, how, left),
    }
}

/// A call by a name of which no part comes at run time.
#[inline(always)]
pub(crate) fn call_whole(
    linked: &Linked,
    s: &mut State,
    name: u32,
    wanted: &Name,
    count: u32,
    lexical: bool,
    how: How,
    left: &mut Result<Left, Stop>,
) -> bool
    ghost out: { Outer }
    requires can { CanDo linked.now out (λ p. calls_named p name count lexical how) s.old }
    requires ready { HasFrameRoom (count + parts_at (setting_in linked.now out) name + 1) (given_by_how how)
        s.old.frames }
    requires count { count < 2 ^ 30 }
    requires how { taken_by how ≡ count + parts_at (setting_in linked.now out) name + 1 }
    requires form { name_form_at (setting_in linked.now out) name ≡ Some (Whole wanted.now) }
    requires text { IsText linked.now.file.strings s.old.arena wanted.now.text }
    requires none { left.old ≡ Ok Goes }
    ensures { Dispatches linked.now out (λ p. calls_named p name count lexical how) s.old result left.new
        s.new }
{
    let v = operand(&s.frames, count);
    match v {
        Value::Obj(o) => call_on_object(linked, s, name, wanted, o, count, lexical, how, left),
        _ => call_searching(linked, s, name, count, lexical, how, left),
    }
}
