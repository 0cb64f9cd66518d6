//! A file that is linked, an arena over it, and the tests that calls of these ask for.
ghost use Rattle.std.specs.Prelude.{◌≡◌, ◌+◌, ◌<◌, ◌≤◌, IsTrue, IfOk, length};
ghost use Rattle.abc_base.specs.Ranges.{IsNumber};
ghost use Rattle.abc_heap_store.specs.Heap.{Heap};
ghost use Rattle.abc_heap_store.specs.Texts.{IsText};
ghost use Rattle.abc_objects.specs.Stands.{IsObjectOrNone, StandsOver};
ghost use Rattle.abc_objects.specs.Values.{Exists, IsObject, IsSpace};

use abc_base::{BuiltinHost, HostClass, SteadySource};
use abc_file::read;
use abc_heap_store::{Full, Limit, Limits, What};
use abc_heap_values::{ObjId, Span, Value};
use abc_link::{Linked, link};
use abc_link_names::Part;
use abc_objects::Arena;
use std::alloc::{AllocError, Global};
use std::test::*;

/// The file, linked. It stands in a box, so that what drops it is proved once.
pub fn linked(alloc: Global, file: &[u8]) -> Result<Box<Linked>, Fail> {
    let (abc, _places) = read(alloc, &mut SteadySource::new(alloc, file, 64)?)?;
    match Box::new(alloc, link(alloc, abc)?) {
        Ok(l) => Ok(l),
        Err(failed) => Err(Fail::from(AllocError::from(failed))),
    }
}

pub fn opened(alloc: Global, l: &Linked, limits: &Limits) -> Result<Arena, Fail>
    ensures { IfOk result (StandsOver l.now) }
{
    Ok(Arena::open(alloc, l, limits, &BuiltinHost)?)
}

fn is_number(n: i64) -> bool
    ensures { IsTrue result → IsNumber n }
{
    n >= -2147483648 && n <= 4294967295
}

/// Whether a span lies in the fixed texts.
fn is_fixed(s: Span) -> bool
    ensures { IsTrue result → (s.part ≡ 0) × (s.start + s.len ≤ 62) }
{
    s.part == 0 && s.start <= 62 && s.len <= 62 - s.start
}

/// Whether a span lies in a string of the pool.
fn is_string(l: &Linked, s: Span) -> bool
    ensures { IsTrue result → ((h : Heap) → IsText l.now.file.strings h s) }
{
    if s.part < 3 {
        return false;
    }
    match l.abc().strings.find(s.part as usize - 3) {
        Some(text) => s.start as usize <= text.len()
            && s.len as usize <= text.len() - s.start as usize,
        None => false,
    }
}

/// Whether a text is surely there.
pub fn is_text(l: &Linked, a: &Arena, s: Span) -> bool
    requires { StandsOver l.now a.now }
    ensures { IsTrue result → IsText l.now.file.strings a.now s }
{
    if is_fixed(s) {
        return true;
    }
    is_string(l, s)
}

fn is_space(l: &Linked, n: u32) -> bool
    ensures { IsTrue result → IsSpace l.now n }
{
    n >= 1 && n as usize <= l.abc().namespaces.len()
}

pub fn is_object(a: &Arena, o: ObjId) -> bool
    ensures { IsTrue result → IsObject a.now o }
{
    o.0 < a.counts().objects
}

/// Whether what a value names is surely there.
pub fn exists(l: &Linked, a: &Arena, v: Value) -> bool
    requires { StandsOver l.now a.now }
    ensures { IsTrue result → Exists l.now a.now v }
{
    match v {
        Value::Num(n) => is_number(n),
        Value::Text(s) => is_text(l, a, s),
        Value::Space(n) => is_space(l, n),
        Value::Obj(o) => is_object(a, o),
        Value::Undefined => true,
        Value::Null => true,
        Value::Bool(_) => true,
    }
}

pub fn is_method(l: &Linked, method: u32) -> bool
    ensures { IsTrue result → method < length l.now.file.methods }
{
    (method as usize) < l.abc().methods.len()
}

pub fn is_script(l: &Linked, script: u32) -> bool
    ensures { IsTrue result → script < length l.now.file.scripts }
{
    (script as usize) < l.abc().scripts.len()
}

/// What a call ends with that can't be made, and no other.
pub const NOT_MADE: Full = Full(Limit::Stack);

/// Whether an object is there, if one is named.
fn is_object_or_none(a: &Arena, o: Option<ObjId>) -> bool
    ensures { IsTrue result → IsObjectOrNone a.now o }
{
    match o {
        Some(o) => is_object(a, o),
        None => true,
    }
}

/// Makes an object of the layout of a part.
pub fn make(l: &Linked, a: &mut Arena, part: Part, delegate: Option<ObjId>) -> Result<(), Full>
    requires { StandsOver l.now a.old }
    ensures { StandsOver l.now a.new }
{
    let layout = l.layout_of(part);
    let arrays = l.layout_of(Part::Host(HostClass::Array));
    if layout.0 >= l.layouts() || layout.0 == arrays.0 || !is_object_or_none(a, delegate) {
        return Err(NOT_MADE);
    }
    a.new_object(l, layout, delegate, What::Plain)?;
    Ok(())
}

/// Writes an own property.
pub fn put(l: &Linked, a: &mut Arena, o: ObjId, name: Span, v: Value) -> Result<(), Full>
    requires { StandsOver l.now a.old }
    ensures { StandsOver l.now a.new }
{
    if !is_object(a, o) || !is_text(l, a, name) || !exists(l, a, v) {
        return Err(NOT_MADE);
    }
    a.set_property(l, o, name, v)
}
