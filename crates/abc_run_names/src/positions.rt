ghost use Rattle.std.specs.Prelude.{◌≡◌};
ghost use Rattle.abc_base_graphs.specs.Ways.{way};
ghost use Rattle.abc_heap_store.specs.Properties.{place_after};
ghost use Rattle.abc_objects.specs.Stands.{IsObjectOrNone, StandsOver};
ghost use Rattle.abc_objects.specs.Values.{IsObject};
ghost use Rattle.abc_objects.specs.Objects.{delegate_at, number_of_object};
ghost use Rattle.abc_run_names.specs.Walking.{CanWalk, IsWalkPlace, first_position, next_along_from, next_position, position_number, position_of, value_at_position, found_or_undefined, object_of_value};

use abc_heap_values::{ObjId, Value};
use abc_link::Linked;
use abc_objects::Arena;

/// A filled position of an object, counted from 1.
#[derive(Clone, Copy, Debug, PartialEq, Eq)]
pub struct Position {
    pub holder: ObjId,
    pub position: u32,
}

/// The number from which a walk goes on: 0 where it is none.
fn number_in(v: Value) -> i64
    ensures { place_after result ≡ position_of v }
{
    match v {
        Value::Num(n) => n,
        Value::Undefined => 0,
        Value::Null => 0,
        Value::Bool(_) => 0,
        Value::Text(_) => 0,
        Value::Space(_) => 0,
        Value::Obj(_) => 0,
    }
}

/// The position to go on from: that of a number from 0 on, and 0 of all else.
pub fn place_of(v: Value) -> u32
    requires { IsWalkPlace v }
    ensures { result ≡ position_of v }
{
    match v {
        Value::Num(n) => { if n < 0 { 0 } else { n as u32 } }
        Value::Undefined => 0,
        Value::Null => 0,
        Value::Bool(_) => 0,
        Value::Text(_) => 0,
        Value::Space(_) => 0,
        Value::Obj(_) => 0,
    }
}

fn number_or_none(position: Option<u32>) -> Value
    ensures { result ≡ position_number position }
{
    match position {
        Some(k) => Value::Num(i64::from(k)),
        None => Value::Num(0),
    }
}

/// The least filled position of an object above one, or 0 where there is none and where it is no object.
#[tactic(auto, using(crate::proofs::Delegates::next_there))]
pub fn has_next(arena: &Arena, object: Value, after: Value) -> Value
    requires { CanWalk arena.now object }
    ensures { result
        ≡ position_number (next_position (object_of_value arena.now object) (position_of after)) }
{
    match object {
        Value::Obj(o) => number_or_none(arena.next_position(o, number_in(after))),
        Value::Undefined => Value::Num(0),
        Value::Null => Value::Num(0),
        Value::Num(_) => Value::Num(0),
        Value::Bool(_) => Value::Num(0),
        Value::Text(_) => Value::Num(0),
        Value::Space(_) => Value::Num(0),
    }
}

fn or_undefined(value: Option<Value>) -> Value
    ensures { result ≡ found_or_undefined value }
{
    match value {
        Some(v) => v,
        None => Value::Undefined,
    }
}

/// The value at a position of an object, or undefined where that is empty or out of range, and where it is no object.
#[tactic(auto, using(crate::proofs::Delegates::value_there))]
pub fn value_at(arena: &Arena, object: Value, at: Value) -> Value
    requires object { CanWalk arena.now object }
    requires at { IsWalkPlace at }
    ensures { result ≡ value_at_position (object_of_value arena.now object) (position_of at) }
{
    match object {
        Value::Obj(o) => or_undefined(arena.value_at(o, place_of(at))),
        Value::Undefined => Value::Undefined,
        Value::Null => Value::Undefined,
        Value::Num(_) => Value::Undefined,
        Value::Bool(_) => Value::Undefined,
        Value::Text(_) => Value::Undefined,
        Value::Space(_) => Value::Undefined,
    }
}

/// The first filled position of an object's delegates, from one on.
fn first_along(linked: &Linked, arena: &Arena, first: Option<ObjId>) -> Option<Position>
    requires over { StandsOver linked.now arena.now }
    requires inside { IsObjectOrNone arena.now first }
    ensures { result ≡ first_position arena.now (way (delegate_at arena.now) (number_of_object first)) }
{
    let _ = linked;
    let mut holder = first;
    while let Some(o) = holder {
        if let Some(position) = arena.next_position(o, 0) {
            return Some(Position {
                holder: o,
                position,
            });
        }
        holder = arena.delegate(o);
    }
    None
}

/// The least filled position of an object above one, or else the first of its delegates in turn.
pub fn next_along(linked: &Linked, arena: &Arena, o: ObjId, after: Value) -> Option<Position>
    requires over { StandsOver linked.now arena.now }
    requires object { IsObject arena.now o }
    ensures { result ≡ next_along_from arena.now o.0 (position_of after) }
{
    match arena.next_position(o, number_in(after)) {
        Some(position) => Some(Position {
            holder: o,
            position,
        }),
        None => first_along(linked, arena, arena.delegate(o)),
    }
}
