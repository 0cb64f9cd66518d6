ghost use Rattle.std.specs.Prelude.{◌≡◌, ◌+◌, ◌≤◌, ◌<◌, ◌^◌};
ghost use Rattle.abc_heap_store.specs.Texts.{IsText};
ghost use Rattle.abc_frames.specs.Ready.{HasFrameRoom};
ghost use Rattle.abc_objects.specs.Values.{Exists, IsObject};
ghost use Rattle.abc_frames.specs.Frame.{newest};
ghost use Rattle.abc_heap_values.specs.declared.values.Value.TheVariants.{Obj};
ghost use Rattle.abc_run_state.specs.Operands.{operand_at};
ghost use Rattle.abc_run_state.specs.Outer.{Outer};
ghost use Rattle.abc_run_state.specs.Settling.{given_by_how, taken_by};
ghost use Rattle.abc_run_members.specs.Members.{IsFoundThere, calls_on, constructs_on, reads_on, writes_on};
ghost use Rattle.abc_objects.specs.Stands.{StandsOver};
ghost use Rattle.abc_lookup.specs.NoTraits.{IsFoundFirst};
ghost use Rattle.abc_objects.specs.Searches.{found_on};
ghost use Rattle.abc_objects.specs.declared.found.Want.TheVariants.{Read};
ghost use Rattle.abc_run_calls.specs.Doing.{CanDo, DoesOrLeaves};
ghost use Rattle.abc_run_state.specs.Doing.{Does};

use crate::found::{call_found, construct_found, read_found};
use crate::writing::{kept_element, write_found};
use abc_base::HostClass;
use abc_heap_values::{ObjId, Value};
use abc_link::Linked;
use abc_lookup::{find_declared, find_first, find_on};
use abc_objects::{Found, Name, Want, answer_is_the_first, found_is_there};
use abc_run_names::is_holder;
use abc_run_state::{How, Left, State, Stop, settle};

/// What a name finds on a value, for a read.
#[inline(always)]
fn find(linked: &Linked, s: &State, v: Value, name: &Name) -> Found
    requires over { StandsOver linked.now s.now.arena }
    requires value { Exists linked.now s.now.arena v }
    requires name { IsText linked.now.file.strings s.now.arena name.now.text }
    ensures is { result ≡ found_on linked.now s.now.arena v name.now Read }
    ensures there { IsFoundThere linked.now s.now.arena result }
{
    answer_is_the_first();
    found_is_there();
    find_on(linked, &s.arena, v, name, Want::Read)
}

/// What a name finds at once on an object.
#[inline(always)]
pub fn find_first_on(linked: &Linked, s: &State, o: ObjId, name: &Name) -> Found
    requires over { StandsOver linked.now s.now.arena }
    requires inside { IsObject s.now.arena o }
    requires name { IsText linked.now.file.strings s.now.arena name.now.text }
    ensures first { IsFoundFirst linked.now s.now.arena o name.now result }
    ensures there { IsFoundThere linked.now s.now.arena result }
{
    answer_is_the_first();
    found_is_there();
    find_first(linked, &s.arena, o, name)
}

/// The same as `read_on`, by a search.
#[inline(never)]
fn read_searching(
    linked: &Linked,
    s: &mut State,
    v: Value,
    name: &Name,
    how: How,
) -> Result<(), Stop>
    ghost out: { Outer }
    requires can { CanDo linked.now out (λ p. reads_on p v name.now how) s.old }
    requires ready { HasFrameRoom (taken_by how) (given_by_how how) s.old.frames }
    requires value { Exists linked.now s.old.arena v }
    requires name { IsText linked.now.file.strings s.old.arena name.now.text }
    ensures { Does linked.now out (λ p. reads_on p v name.now how) s.old result s.new }
{
    is_holder(v)?;
    let found = find(linked, s, v, name);
    read_found(linked, s, found, v, how)
}

/// The same name, in a place of its own: so one of which no search is made has no place in memory.
#[inline(always)]
fn again(name: &Name) -> Name
    ensures { result ≡ name.now }
{
    Name {
        spaces: name.spaces,
        text: name.text,
    }
}

/// Reads by a name on an object. What is found at once is read without a search.
#[inline(always)]
pub fn read_on_object(
    linked: &Linked,
    s: &mut State,
    o: ObjId,
    name: &Name,
    how: How,
) -> Result<(), Stop>
    ghost out: { Outer }
    requires can { CanDo linked.now out (λ p. reads_on p (Obj o) name.now how) s.old }
    requires ready { HasFrameRoom (taken_by how) (given_by_how how) s.old.frames }
    requires inside { IsObject s.old.arena o }
    requires name { IsText linked.now.file.strings s.old.arena name.now.text }
    ensures { Does linked.now out (λ p. reads_on p (Obj o) name.now how) s.old result s.new }
{
    let found = find_first_on(linked, s, o, name);
    match found {
        Found::Property { .. } => read_found(linked, s, found, Value::Obj(o), how),
        Found::Element { .. } => read_found(linked, s, found, Value::Obj(o), how),
        _ => read_searching(linked, s, Value::Obj(o), &again(name), how),
    }
}

/// Reads by a name on a value; null and undefined throw.
#[inline(always)]
pub fn read_on(linked: &Linked, s: &mut State, v: Value, name: &Name, how: How) -> Result<(), Stop>
    ghost out: { Outer }
    requires can { CanDo linked.now out (λ p. reads_on p v name.now how) s.old }
    requires ready { HasFrameRoom (taken_by how) (given_by_how how) s.old.frames }
    requires value { Exists linked.now s.old.arena v }
    requires name { IsText linked.now.file.strings s.old.arena name.now.text }
    ensures { Does linked.now out (λ p. reads_on p v name.now how) s.old result s.new }
{
    match v {
        Value::Obj(o) => read_on_object(linked, s, o, name, how),
        _ => read_searching(linked, s, v, name, how),
    }
}

/// The same as `write_on_object`, by a search.
#[inline(never)]
fn write_searching(
    linked: &Linked,
    s: &mut State,
    o: ObjId,
    name: &Name,
    x: Value,
    initial: bool,
    how: How,
) -> Result<(), Stop>
    ghost out: { Outer }
    requires can { CanDo linked.now out (λ p. writes_on p (Obj o) name.now x initial how) s.old }
    requires ready { HasFrameRoom (taken_by how) (given_by_how how) s.old.frames }
    requires one { 1 ≤ taken_by how }
    requires inside { IsObject s.old.arena o }
    requires name { IsText linked.now.file.strings s.old.arena name.now.text }
    requires value { Exists linked.now s.old.arena x }
    requires top { x ≡ operand_at 0 (newest s.old.frames) }
    ensures { Does linked.now out (λ p. writes_on p (Obj o) name.now x initial how) s.old result s.new }
{
    let layout = s.arena.layout(o);
    let found = find_declared(linked, &s.arena, layout, layout, name, Want::Write);
    write_found(linked, s, o, name, x, initial, found, how)
}

/// Writes by a name on an object: its declared traits are asked first. An element that is found at once is replaced
/// without a search. The value is the top operand.
#[inline(always)]
pub fn write_on_object(
    linked: &Linked,
    s: &mut State,
    o: ObjId,
    name: &Name,
    x: Value,
    initial: bool,
    how: How,
) -> Result<(), Stop>
    ghost out: { Outer }
    requires can { CanDo linked.now out (λ p. writes_on p (Obj o) name.now x initial how) s.old }
    requires ready { HasFrameRoom (taken_by how) (given_by_how how) s.old.frames }
    requires one { 1 ≤ taken_by how }
    requires inside { IsObject s.old.arena o }
    requires name { IsText linked.now.file.strings s.old.arena name.now.text }
    requires value { Exists linked.now s.old.arena x }
    requires top { x ≡ operand_at 0 (newest s.old.frames) }
    ensures { Does linked.now out (λ p. writes_on p (Obj o) name.now x initial how) s.old result s.new }
{
    match kept_element(linked, s, o, name) {
        Some(k) => {
            s.arena.set_element(o, k, x);
            settle(&mut s.frames, how, Value::Undefined);
            Ok(())
        }
        None => write_searching(linked, s, o, &again(name), x, initial, how),
    }
}

/// Writes by a name on a value; null and undefined throw, and no other value but an object holds anything. The value that is
/// written is the top operand.
#[inline(always)]
pub fn write_on(
    linked: &Linked,
    s: &mut State,
    v: Value,
    name: &Name,
    x: Value,
    initial: bool,
    how: How,
) -> Result<(), Stop>
    ghost out: { Outer }
    requires can { CanDo linked.now out (λ p. writes_on p v name.now x initial how) s.old }
    requires ready { HasFrameRoom (taken_by how) (given_by_how how) s.old.frames }
    requires one { 1 ≤ taken_by how }
    requires holder { Exists linked.now s.old.arena v }
    requires name { IsText linked.now.file.strings s.old.arena name.now.text }
    requires value { Exists linked.now s.old.arena x }
    requires top { x ≡ operand_at 0 (newest s.old.frames) }
    ensures { Does linked.now out (λ p. writes_on p v name.now x initial how) s.old result s.new }
{
    is_holder(v)?;
    match v {
        Value::Obj(o) => write_on_object(linked, s, o, name, x, initial, how),
        _ => Err(Stop::Errs(HostClass::ReferenceError)),
    }
}

/// Calls by a name on a value, with so many arguments; null and undefined throw.
#[inline(always)]
pub fn call_on(
    linked: &Linked,
    s: &mut State,
    v: Value,
    receiver: Value,
    name: &Name,
    count: u32,
    how: How,
) -> Result<Left, Stop>
    ghost out: { Outer }
    requires can { CanDo linked.now out (λ p. calls_on p v receiver name.now count how) s.old }
    requires ready { HasFrameRoom (taken_by how) (given_by_how how) s.old.frames }
    requires count { count ≤ taken_by how }
    requires value { Exists linked.now s.old.arena v }
    requires name { IsText linked.now.file.strings s.old.arena name.now.text }
    ensures { DoesOrLeaves linked.now out (λ p. calls_on p v receiver name.now count how) s.old result s.new }
{
    is_holder(v)?;
    let found = find(linked, s, v, name);
    call_found(linked, s, found, v, receiver, count, how)
}

/// Does `new` on what a name gives on a value, with so many arguments, over so many other operands; null and undefined throw.
pub fn construct_on(
    linked: &Linked,
    s: &mut State,
    v: Value,
    name: &Name,
    under: u32,
    count: u32,
) -> Result<(), Stop>
    ghost out: { Outer }
    requires can { CanDo linked.now out (λ p. constructs_on p v name.now under count) s.old }
    requires ready { HasFrameRoom (count + under) 1 s.old.frames }
    requires few { count + under < 2 ^ 32 }
    requires value { Exists linked.now s.old.arena v }
    requires name { IsText linked.now.file.strings s.old.arena name.now.text }
    ensures { Does linked.now out (λ p. constructs_on p v name.now under count) s.old result s.new }
{
    is_holder(v)?;
    let found = find(linked, s, v, name);
    construct_found(linked, s, found, v, under, count)
}
