ghost use Rattle.std.specs.Prelude.{◌≡◌, ◌<◌, length};
ghost use Rattle.abc_meaning.specs.Walking.{next_along as next_along_of, object_number, position};
ghost use Rattle.abc_frames.specs.Ready.{HasFrameRoom};
ghost use Rattle.abc_objects.specs.Stands.{StandsOver};
ghost use Rattle.abc_objects.specs.Values.{Exists};
ghost use Rattle.abc_frames.specs.Frame.{newest};
ghost use Rattle.abc_run_state.specs.Outer.{Outer};
ghost use Rattle.abc_run_state.specs.Standing.{IsSet};
ghost use Rattle.abc_run_state.specs.Turns.{Runs};
ghost use Rattle.abc_run_names.specs.Walked.{holder_in, position_in, positions_of, pushes_name, pushes_next, pushes_value, walks_on};

use crate::positions::{Position, has_next, next_along, value_at};
use crate::walked_names::name_at;
use abc_frames::{finish, push};
use abc_heap_values::Value;
use abc_link::Linked;
use abc_run_state::{State, Stop, local, operand};

/// `hasnext`.
pub fn walk_one(linked: &Linked, s: &mut State) -> Result<(), Stop>
    requires set { IsSet linked.now s.old }
    requires ready { HasFrameRoom 2 1 s.old.frames }
    ensures runs { (out : Outer)
        → Runs linked.now out (pushes_next (newest s.old.frames)) s.old result s.new }
    ensures limit { s.new.given.limit ≡ s.old.given.limit }
{
    let _ = linked;
    let object = operand(&s.frames, 1);
    let after = operand(&s.frames, 0);
    let v = has_next(&s.arena, object, after);
    finish(&mut s.frames, 2, v);
    Ok(())
}

/// `nextname`.
pub fn next_name(linked: &Linked, s: &mut State) -> Result<(), Stop>
    requires set { IsSet linked.now s.old }
    requires ready { HasFrameRoom 2 1 s.old.frames }
    ensures runs { (out : Outer)
        → Runs linked.now out (pushes_name (newest s.old.frames)) s.old result s.new }
    ensures limit { s.new.given.limit ≡ s.old.given.limit }
{
    let _ = linked;
    let object = operand(&s.frames, 1);
    let at = operand(&s.frames, 0);
    match name_at(&mut s.arena, object, at) {
        Ok(v) => {
            finish(&mut s.frames, 2, v);
            Ok(())
        }
        Err(end) => Err(Stop::from(end)),
    }
}

/// `nextvalue`.
pub fn next_value(linked: &Linked, s: &mut State) -> Result<(), Stop>
    requires set { IsSet linked.now s.old }
    requires ready { HasFrameRoom 2 1 s.old.frames }
    ensures runs { (out : Outer)
        → Runs linked.now out (pushes_value (newest s.old.frames)) s.old result s.new }
    ensures limit { s.new.given.limit ≡ s.old.given.limit }
{
    let _ = linked;
    let object = operand(&s.frames, 1);
    let at = operand(&s.frames, 0);
    let v = value_at(&s.arena, object, at);
    finish(&mut s.frames, 2, v);
    Ok(())
}

/// The position after one, of an object and then of its delegates; none of what is no object.
fn next_from(linked: &Linked, s: &State, object: Value, after: Value) -> Option<Position>
    requires over { StandsOver linked.now s.now.arena }
    requires object { Exists linked.now s.now.arena object }
    ensures { positions_of result ≡ next_along_of (object_number object) (position after) s.now.arena }
{
    match object {
        Value::Obj(o) => next_along(linked, &s.arena, o, after),
        _ => None,
    }
}

/// The holder and the position that the locals then hold: null and 0 where there is none.
fn holder_of(next: Option<Position>) -> Value
    ensures { result ≡ holder_in (positions_of next) }
{
    match next {
        Some(found) => Value::Obj(found.holder),
        None => Value::Null,
    }
}

fn number_of(next: Option<Position>) -> Value
    ensures { result ≡ position_in (positions_of next) }
{
    match next {
        Some(found) => Value::Num(i64::from(found.position)),
        None => Value::Num(0),
    }
}

/// `hasnext2`: one local is the object, and another the position.
pub fn walk_on(linked: &Linked, s: &mut State, holder: u32, position: u32) -> Result<(), Stop>
    requires set { IsSet linked.now s.old }
    requires ready { HasFrameRoom 0 1 s.old.frames }
    requires holder { holder < length (newest s.old.frames).locals }
    requires position { position < length (newest s.old.frames).locals }
    ensures runs { (out : Outer)
        → Runs linked.now out (walks_on holder position (newest s.old.frames)) s.old result s.new }
    ensures limit { s.new.given.limit ≡ s.old.given.limit }
{
    let object = local(&s.frames, holder);
    let after = local(&s.frames, position);
    let next = next_from(linked, s, object, after);
    s.frames.set_local(holder, holder_of(next));
    s.frames.set_local(position, number_of(next));
    push(&mut s.frames, Value::Bool(next.is_some()));
    Ok(())
}
