ghost use Rattle.std.specs.Prelude.{◌≡◌, ◌<◌, ◌≤◌, ◌↔◌, [], ◌∷◌, length, Some, None, slice_get, IsTrue, is_some};
ghost use Rattle.abc_heap_values.specs.declared.values.Value.TheVariants.{Obj};
ghost use Rattle.abc_heap_store.specs.declared.records.ScopeEntry.{ScopeEntry};
ghost use Rattle.abc_frames.specs.Frame.{newest, newest_size, with_newest};
ghost use Rattle.abc_frames.specs.Moves.{next_with, object_in, scopes_pushed, top, after_pop_scope};
ghost use Rattle.abc_frames.specs.Ready.{HasFrameRoom};

use crate::frames::Frames;
use crate::moves::push;
use abc_heap_store::ScopeEntry;
use abc_heap_values::{ObjId, Value};

/// The object that a value is.
fn object_of(v: Value) -> Option<ObjId>
    ensures { result ≡ object_in v }
{
    match v {
        Value::Obj(object) => Some(object),
        Value::Undefined => None,
        Value::Null => None,
        Value::Num(_) => None,
        Value::Bool(_) => None,
        Value::Text(_) => None,
        Value::Space(_) => None,
    }
}

/// Takes the top operand onto the scopes, where it is an object, and says whether it is. Else nothing changes.
pub fn push_scope(frames: &mut Frames, with_flag: bool) -> bool
    requires ready { HasFrameRoom 1 0 frames.old }
    requires room { length (newest frames.old).scopes < (newest_size frames.old).scopes }
    ensures object { result ≡ is_some (object_in (top (newest frames.old))) }
    ensures frames { frames.new ≡ scopes_pushed with_flag frames.old }
{
    match object_of(frames.operand(0)) {
        Some(object) => {
            let place = frames.place();
            frames.push_scope(ScopeEntry { object, with_flag });
            frames.drop_operands(1);
            frames.go(place + 1);
            true
        }
        None => false,
    }
}

/// Drops the top scope.
pub fn pop_scope(frames: &mut Frames)
    requires ready { HasFrameRoom 0 0 frames.old }
    requires scope { 0 < length (newest frames.old).scopes }
    ensures { frames.new ≡ with_newest after_pop_scope frames.old }
{
    let place = frames.place();
    let _entry = frames.pop_scope();
    frames.go(place + 1);
}

/// Pushes the object of a local scope, which is counted from the bottom.
pub fn get_scope_object(frames: &mut Frames, n: u8)
    requires ready { HasFrameRoom 0 1 frames.old }
    requires scope { n < length (newest frames.old).scopes }
    ensures { (e : ScopeEntry) → slice_get (newest frames.old).scopes n ≡ Some e
        → frames.new ≡ with_newest (next_with (Obj e.object ∷ [])) frames.old }
{
    let entry = frames.scopes()[n as usize];
    push(frames, Value::Obj(entry.object));
}
