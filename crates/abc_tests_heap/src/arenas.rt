//! The arena, as tables: the room that it opens with and that of its calls, properties of two objects that grow in turn, and
//! the elements of an array.
ghost use Rattle.std.specs.Prelude.{◌<◌, IsTrue, length};
ghost use Rattle.abc_objects.specs.Stands.{StandsOver};

use crate::opened::{
    NOT_MADE, is_method, is_object, is_script, is_text, linked, make, opened, put,
};
use crate::operating::FILE;
use abc_base::{BuiltinHost, release};
use abc_heap_store::{Full, Limit, Limits, ScopeEntry};
use abc_heap_values::{ObjId, Value};
use abc_link::Linked;
use abc_link_names::Part;
use abc_objects::{Arena, FixedText, OpenError};
use std::alloc::Global;
use std::test::*;

/// What the arena opens with: the file has one script, whose global object has a slot.
const OPENING: Limits = Limits {
    objects: 33,
    cells: 33,
    text: 0,
    frames: 0,
    stack: 0,
};

/// What an arena opens with, or why it does not.
fn counts_at_opening(alloc: Global, l: &Linked, limits: &Limits) -> Result<Limits, OpenError> {
    let a = Arena::open(alloc, l, limits, &BuiltinHost)?;
    let counts = a.counts();
    release(a);
    Ok(counts)
}

/// Limits of objects and cells, and what an arena opens with.
const OPENINGS: [(u32, u32, Result<Limits, OpenError>); 4] = [
    (33, 33, Ok(OPENING)),
    (32, 33, Err(OpenError::TooSmall(Limit::Objects))),
    (33, 32, Err(OpenError::TooSmall(Limit::Cells))),
    (32, 32, Err(OpenError::TooSmall(Limit::Objects))),
];

/// The first row of openings that is wrong.
fn wrong_opening(alloc: Global, l: &Linked) -> Option<usize> {
    for (row, (objects, cells, want)) in OPENINGS.iter().enumerate() {
        if counts_at_opening(alloc, l, &limits(*objects, *cells)) != *want {
            return Some(row);
        }
    }
    None
}

/// A call that takes room.
#[derive(Clone, Copy)]
enum Call {
    Object,
    Function,
    Class,
    Array,
    Undefined,
    Property,
    Element,
    Number,
    Join,
    Frame,
}

/// A scope stack of the prototype of Object.
const SCOPES: [ScopeEntry; 1] = [ScopeEntry {
    object: ObjId(0),
    with_flag: false,
}];

/// Makes a function of method 0 that keeps a scope.
fn new_function(l: &Linked, a: &mut Arena) -> Result<(), Full>
    requires { StandsOver l.now a.old }
{
    if !is_method(l, 0) || !is_script(l, 0) || !is_object(a, ObjId(0)) {
        return Err(NOT_MADE);
    }
    a.new_function(l, 0, 0, None, None, &SCOPES)?;
    Ok(())
}

fn is_class(l: &Linked, class: u32) -> bool
    ensures { IsTrue result → class < length l.now.file.instances }
{
    (class as usize) < l.abc().instances.len()
}

/// Makes class 0, which keeps a scope.
fn new_class(l: &Linked, a: &mut Arena) -> Result<(), Full>
    requires { StandsOver l.now a.old }
{
    if !is_class(l, 0) || !is_script(l, 0) || !is_object(a, ObjId(0)) {
        return Err(NOT_MADE);
    }
    match a.class_object(0) {
        Some(_) => Err(NOT_MADE),
        None => {
            a.new_class(l, 0, 0, None, None, None, &SCOPES)?;
            Ok(())
        }
    }
}

fn new_array(l: &Linked, a: &mut Arena) -> Result<(), Full>
    requires { StandsOver l.now a.old }
{
    a.new_array(l, &[Value::Null, Value::Undefined])?;
    Ok(())
}

fn new_undefined(l: &Linked, a: &mut Arena) -> Result<(), Full>
    requires { StandsOver l.now a.old }
{
    a.new_undefined(l, 2)?;
    Ok(())
}

fn new_text(a: &mut Arena) -> Result<(), Full> {
    a.text_of_number(-123)?;
    Ok(())
}

/// Adds an element to an array.
fn push(a: &mut Arena, o: ObjId, v: Value) -> Result<(), Full> {
    if !is_object(a, o) || !a.what(o).is_array() {
        return Err(NOT_MADE);
    }
    a.push_element(o, v)
}

/// Makes an array and then an element of it.
fn new_element(l: &Linked, a: &mut Arena) -> Result<(), Full>
    requires { StandsOver l.now a.old }
{
    let o = a.new_undefined(l, 0)?;
    push(a, o, Value::Null)
}

fn join(l: &Linked, a: &mut Arena, x: FixedText, y: FixedText) -> Result<(), Full>
    requires { StandsOver l.now a.old }
{
    if !is_text(l, a, x.span()) || !is_text(l, a, y.span()) {
        return Err(NOT_MADE);
    }
    a.text_join(l, x.span(), y.span())?;
    Ok(())
}

fn take_room(l: &Linked, a: &mut Arena, call: Call) -> Result<(), Full>
    requires { StandsOver l.now a.old }
{
    match call {
        Call::Object => make(l, a, Part::Instance(0), None),
        Call::Function => new_function(l, a),
        Call::Class => new_class(l, a),
        Call::Array => new_array(l, a),
        Call::Undefined => new_undefined(l, a),
        Call::Property => put(l, a, ObjId(0), FixedText::Message.span(), Value::Null),
        Call::Element => new_element(l, a),
        Call::Number => new_text(a),
        Call::Join => join(l, a, FixedText::True, FixedText::False),
        Call::Frame => a.take_frame(3),
    }
}

/// How a call ends in an arena with so many objects, cells, bytes of texts, frames and values of frames beyond the opening.
fn made(alloc: Global, l: &Linked, room: [u32; 5], call: Call) -> Result<Option<Limit>, Fail> {
    let [objects, cells, text, frames, stack] = room;
    let limits = Limits {
        objects: objects.saturating_add(33),
        cells: cells.saturating_add(33),
        text,
        frames,
        stack,
    };
    let mut a = opened(alloc, l, &limits)?;
    let taken = take_room(l, &mut a, call);
    release(a);
    match taken {
        Ok(()) => Ok(None),
        Err(Full(limit)) => Ok(Some(limit)),
    }
}

/// Calls, the room beyond the opening, and the limit that ends the call.
const ROOMS: [(Call, [u32; 5], Option<Limit>); 29] = [
    (Call::Object, [1, 1, 0, 0, 0], None),
    (Call::Object, [0, 1, 0, 0, 0], Some(Limit::Objects)),
    (Call::Object, [1, 0, 0, 0, 0], Some(Limit::Cells)),
    (Call::Object, [0, 0, 0, 0, 0], Some(Limit::Objects)),
    (Call::Function, [1, 1, 0, 0, 0], None),
    (Call::Function, [0, 1, 0, 0, 0], Some(Limit::Objects)),
    (Call::Function, [1, 0, 0, 0, 0], Some(Limit::Cells)),
    (Call::Class, [2, 3, 0, 0, 0], None),
    (Call::Class, [1, 3, 0, 0, 0], Some(Limit::Objects)),
    (Call::Class, [2, 2, 0, 0, 0], Some(Limit::Cells)),
    (Call::Class, [1, 2, 0, 0, 0], Some(Limit::Objects)),
    (Call::Array, [1, 2, 0, 0, 0], None),
    (Call::Array, [0, 2, 0, 0, 0], Some(Limit::Objects)),
    (Call::Array, [1, 1, 0, 0, 0], Some(Limit::Cells)),
    (Call::Undefined, [1, 2, 0, 0, 0], None),
    (Call::Undefined, [0, 2, 0, 0, 0], Some(Limit::Objects)),
    (Call::Undefined, [1, 1, 0, 0, 0], Some(Limit::Cells)),
    (Call::Property, [0, 1, 0, 0, 0], None),
    (Call::Property, [0, 0, 0, 0, 0], Some(Limit::Cells)),
    (Call::Element, [1, 1, 0, 0, 0], None),
    (Call::Element, [1, 0, 0, 0, 0], Some(Limit::Cells)),
    (Call::Number, [0, 0, 4, 0, 0], None),
    (Call::Number, [0, 0, 3, 0, 0], Some(Limit::Text)),
    (Call::Join, [0, 0, 9, 0, 0], None),
    (Call::Join, [0, 0, 8, 0, 0], Some(Limit::Text)),
    (Call::Frame, [0, 0, 0, 1, 3], None),
    (Call::Frame, [0, 0, 0, 0, 3], Some(Limit::Frames)),
    (Call::Frame, [0, 0, 0, 1, 2], Some(Limit::Stack)),
    (Call::Frame, [0, 0, 0, 0, 2], Some(Limit::Frames)),
];

/// The first row of rooms that is wrong.
fn wrong_room(alloc: Global, l: &Linked) -> Result<Option<usize>, Fail> {
    for (row, (call, room, want)) in ROOMS.iter().enumerate() {
        if made(alloc, l, *room, *call)? != *want {
            return Ok(Some(row));
        }
    }
    Ok(None)
}

/// A step on the properties of an object.
#[derive(Clone, Copy)]
enum Step {
    Put(Value),
    Delete,
    Read,
    /// The position above another.
    Next(i64),
    /// The value at a position.
    At(u32),
}

fn delete(l: &Linked, a: &mut Arena, o: ObjId, name: FixedText) -> bool
    requires { StandsOver l.now a.old }
    ensures { StandsOver l.now a.new }
{
    if !is_object(a, o) || !is_text(l, a, name.span()) {
        return false;
    }
    a.delete_property(l, o, name.span())
}

fn read_own(l: &Linked, a: &Arena, o: ObjId, name: FixedText) -> Option<Value>
    requires { StandsOver l.now a.now }
{
    if !is_object(a, o) || !is_text(l, a, name.span()) {
        return None;
    }
    a.property(l, o, name.span())
}

fn next(a: &Arena, o: ObjId, after: i64) -> Option<Value> {
    if !is_object(a, o) {
        return None;
    }
    let position = a.next_position(o, after)?;
    Some(Value::Num(i64::from(position)))
}

fn value_at(a: &Arena, o: ObjId, position: u32) -> Option<Value> {
    if !is_object(a, o) {
        return None;
    }
    a.value_at(o, position)
}

fn make_step(l: &Linked, a: &mut Arena, o: ObjId, name: FixedText, step: Step) -> Option<Value>
    requires { StandsOver l.now a.old }
    ensures { StandsOver l.now a.new }
{
    match step {
        Step::Put(v) => match put(l, a, o, name.span(), v) {
            Ok(()) => Some(v),
            Err(_) => None,
        },
        Step::Delete => Some(Value::Bool(delete(l, a, o, name))),
        Step::Read => read_own(l, a, o, name),
        Step::Next(after) => next(a, o, after),
        Step::At(position) => value_at(a, o, position),
    }
}

/// Two objects whose properties are made in turn.
const X: ObjId = ObjId(0);

const Y: ObjId = ObjId(1);

/// Steps on the properties of these, and what each gives.
const STEPS: [(ObjId, FixedText, Step, Option<Value>); 25] = [
    (
        X,
        FixedText::True,
        Step::Put(Value::Num(0)),
        Some(Value::Num(0)),
    ),
    (
        Y,
        FixedText::True,
        Step::Put(Value::Num(1)),
        Some(Value::Num(1)),
    ),
    (
        X,
        FixedText::False,
        Step::Put(Value::Num(2)),
        Some(Value::Num(2)),
    ),
    (
        Y,
        FixedText::False,
        Step::Put(Value::Num(3)),
        Some(Value::Num(3)),
    ),
    (
        X,
        FixedText::Null,
        Step::Put(Value::Num(4)),
        Some(Value::Num(4)),
    ),
    (
        Y,
        FixedText::Null,
        Step::Put(Value::Num(5)),
        Some(Value::Num(5)),
    ),
    // all cells are taken, but an own property can be written
    (Y, FixedText::Message, Step::Put(Value::Null), None),
    (
        Y,
        FixedText::False,
        Step::Put(Value::Null),
        Some(Value::Null),
    ),
    (X, FixedText::False, Step::Read, Some(Value::Num(2))),
    (Y, FixedText::False, Step::Read, Some(Value::Null)),
    (Y, FixedText::Message, Step::Read, None),
    // a deleted property leaves its position empty, and its cell taken
    (X, FixedText::False, Step::Delete, Some(Value::Bool(true))),
    (X, FixedText::False, Step::Delete, Some(Value::Bool(false))),
    (X, FixedText::False, Step::Read, None),
    (Y, FixedText::False, Step::Read, Some(Value::Null)),
    (X, FixedText::False, Step::Put(Value::Null), None),
    // positions count from 1
    (X, FixedText::True, Step::Next(-5), Some(Value::Num(1))),
    (X, FixedText::True, Step::At(1), Some(Value::Num(0))),
    (X, FixedText::True, Step::At(2), None),
    (X, FixedText::True, Step::Next(1), Some(Value::Num(3))),
    (X, FixedText::True, Step::At(3), Some(Value::Num(4))),
    (X, FixedText::True, Step::Next(3), None),
    (Y, FixedText::True, Step::Next(1), Some(Value::Num(2))),
    (Y, FixedText::True, Step::At(2), Some(Value::Null)),
    (Y, FixedText::True, Step::At(4), None),
];

/// The first step that is wrong.
fn wrong_step(l: &Linked, a: &mut Arena) -> Option<usize>
    requires { StandsOver l.now a.old }
{
    for (row, (o, name, at, want)) in STEPS.iter().enumerate() {
        if make_step(l, a, *o, *name, *at) != *want {
            return Some(row);
        }
    }
    None
}

fn element(a: &Arena, o: ObjId, k: u32) -> Option<Value> {
    if !is_object(a, o) || k >= a.length(o) {
        return None;
    }
    Some(a.element(o, k))
}

/// Adds so many elements to two arrays in turn, and tells whether there was room.
fn push_in_turn(a: &mut Arena, x: ObjId, y: ObjId, count: u32) -> Result<(), Full> {
    for k in 0..count {
        push(a, x, Value::Num(i64::from(k)))?;
        push(a, y, Value::Num(-i64::from(k)))?;
    }
    Ok(())
}

/// The first of so many elements that is another than it was made.
fn wrong_element(a: &Arena, x: ObjId, y: ObjId, count: u32) -> Option<u32> {
    for k in 0..count {
        let n = i64::from(k);
        if element(a, x, k) != Some(Value::Num(n)) || element(a, y, k) != Some(Value::Num(-n)) {
            return Some(k);
        }
    }
    None
}

fn limits(objects: u32, cells: u32) -> Limits {
    Limits {
        objects,
        cells,
        text: 0,
        frames: 0,
        stack: 0,
    }
}

/// What is wrong with two arrays of a thousand elements that were made in turn: an element, or what is behind the last one.
fn wrong_in_turn(l: &Linked, a: &mut Arena) -> Result<Option<u32>, Full>
    requires { StandsOver l.now a.old }
{
    let x = a.new_undefined(l, 0)?;
    let y = a.new_undefined(l, 0)?;
    push_in_turn(a, x, y, 1000)?;
    if push(a, x, Value::Null).is_ok() || element(a, x, 1000).is_some() {
        return Ok(Some(1000));
    }
    Ok(wrong_element(a, x, y, 1000))
}

/// The same of an arena of their own.
fn wrong_elements(alloc: Global, l: &Linked) -> Result<Option<u32>, Fail> {
    let mut a = opened(alloc, l, &limits(35, 2033))?;
    let wrong = wrong_in_turn(l, &mut a);
    release(a);
    Ok(wrong?)
}

fn wrong_steps(alloc: Global, l: &Linked) -> Result<Option<usize>, Fail> {
    let mut a = opened(alloc, l, &limits(33, 39))?;
    let wrong = wrong_step(l, &mut a);
    release(a);
    Ok(wrong)
}

#[test]
fn room(rt: HostRuntime) -> Result<(), Fail> {
    let file = linked(rt.alloc(), &FILE)?;
    assert_eq!(rt; wrong_opening(rt.alloc(), &file), None);
    assert_eq!(rt; wrong_room(rt.alloc(), &file)?, None);
    Ok(())
}

#[test]
fn properties(rt: HostRuntime) -> Result<(), Fail> {
    let file = linked(rt.alloc(), &FILE)?;
    assert_eq!(rt; wrong_steps(rt.alloc(), &file)?, None);
    Ok(())
}

#[test]
fn elements(rt: HostRuntime) -> Result<(), Fail> {
    let file = linked(rt.alloc(), &FILE)?;
    assert_eq!(rt; wrong_elements(rt.alloc(), &file)?, None);
    Ok(())
}
