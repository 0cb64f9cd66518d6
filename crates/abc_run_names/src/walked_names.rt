ghost use Rattle.std.specs.Prelude.{◌≡◌, true, false};
ghost use Rattle.abc_heap_store.specs.Heap.{elements_of, object_at, properties_of};
ghost use Rattle.abc_heap_store.specs.Properties.{at_position, element_at, the_name};
ghost use Rattle.abc_heap_store.specs.What.{is_array};
ghost use Rattle.abc_objects.specs.Stands.{StandsOver};
ghost use Rattle.abc_objects.specs.Values.{IsObject};
ghost use Rattle.abc_ops.specs.Left.{LeavesHeap};
ghost use Rattle.abc_link_names.specs.Linked.{LinkedFile};
ghost use Rattle.abc_run_names.specs.Walking.{CanWalk, IsWalkPlace, element_named, named_in, position_of, name_text_or_null, object_of_value};

use crate::positions::place_of;
use abc_heap_values::{ObjId, Value};
use abc_objects::Arena;
use abc_ops::OpEnd;

/// The name of an array's element at a position: the text of its number, which is made, or null where there is none.
fn element_name(arena: &mut Arena, array: ObjId, position: u32) -> Result<Value, OpEnd>
    requires inside { IsObject arena.old array }
    requires elements { is_array (object_at arena.old.objects array.0).what ≡ true }
    ensures named { LeavesHeap
        (element_named arena.old position (element_at (elements_of arena.old.objects array.0) position))
        result arena.new }
    ensures over { (l : LinkedFile) → StandsOver l arena.old → StandsOver l arena.new }
{
    match arena.value_at(array, position) {
        Some(_) => match arena.text_of_number(i64::from(position.saturating_sub(1))) {
            Ok(text) => Ok(Value::Text(text)),
            Err(full) => Err(OpEnd::Full(full.0)),
        },
        None => Ok(Value::Null),
    }
}

/// The name of a property, or null where the position is empty or out of range.
fn property_name(arena: &Arena, o: ObjId, position: u32) -> Value
    requires inside { IsObject arena.now o }
    requires named { is_array (object_at arena.now.objects o.0).what ≡ false }
    ensures { result
        ≡ name_text_or_null (the_name (at_position (properties_of arena.now.objects o.0) position)) }
{
    match arena.name_at(o, position) {
        Some(name) => Value::Text(name),
        None => Value::Null,
    }
}

/// The name at a position of an object, or null where that is empty or out of range, and where it is no object. That of an element
/// is made: `Full` of texts where it has no room.
pub fn name_at(arena: &mut Arena, object: Value, at: Value) -> Result<Value, OpEnd>
    requires object { CanWalk arena.old object }
    requires at { IsWalkPlace at }
    ensures named { LeavesHeap (named_in arena.old (object_of_value arena.old object) (position_of at)) result
        arena.new }
    ensures over { (l : LinkedFile) → StandsOver l arena.old → StandsOver l arena.new }
{
    match object {
        Value::Obj(o) => {
            if arena.what(o).is_array() {
                element_name(arena, o, place_of(at))
            } else {
                Ok(property_name(arena, o, place_of(at)))
            }
        }
        Value::Undefined => Ok(Value::Null),
        Value::Null => Ok(Value::Null),
        Value::Num(_) => Ok(Value::Null),
        Value::Bool(_) => Ok(Value::Null),
        Value::Text(_) => Ok(Value::Null),
        Value::Space(_) => Ok(Value::Null),
    }
}
