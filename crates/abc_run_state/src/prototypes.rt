ghost use Rattle.std.specs.Prelude.{◌≡◌, ◌<◌, length};
ghost use Rattle.abc_heap_store.specs.Heap.{slots_of_object};
ghost use Rattle.abc_objects.specs.Stands.{IsObjectOrNone, StandsOver, prototype_of as prototype_in};
ghost use Rattle.abc_objects.specs.Values.{IsObject};
ghost use Rattle.abc_objects.specs.Objects.{host_prototype};

use crate::state::State;
use abc_base::HostClass;
use abc_heap_values::{ObjId, Value};
use abc_link::Linked;

/// The object that the first slot of an object holds, where it holds one.
fn first_held(linked: &Linked, s: &State, o: ObjId) -> Option<ObjId>
    requires over { StandsOver linked.now s.now.arena }
    requires slot { 0 < length (slots_of_object s.now.arena.objects o.0) }
    ensures is { result ≡ prototype_in s.now.arena o.0 }
    ensures there { IsObjectOrNone s.now.arena result }
{
    let _ = linked;
    match s.arena.slot(o, 0) {
        Value::Obj(prototype) => Some(prototype),
        _ => None,
    }
}

/// How many slots an object has.
fn slot_count(linked: &Linked, s: &State, o: ObjId) -> usize
    requires over { StandsOver linked.now s.now.arena }
    requires inside { IsObject s.now.arena o }
    ensures { result ≡ length (slots_of_object s.now.arena.objects o.0) }
{
    linked.slots(s.arena.layout(o)).len()
}

/// The object that the prototype slot of a class object holds, where it holds one.
pub fn prototype_of(linked: &Linked, s: &State, class_object: ObjId) -> Option<ObjId>
    requires over { StandsOver linked.now s.now.arena }
    requires inside { IsObject s.now.arena class_object }
    ensures is { result ≡ prototype_in s.now.arena class_object.0 }
    ensures there { IsObjectOrNone s.now.arena result }
{
    if slot_count(linked, s, class_object) == 0 {
        return None;
    }
    first_held(linked, s, class_object)
}

/// The prototype of a class of the host, as it is now.
pub fn prototype_for(linked: &Linked, s: &State, class: HostClass) -> Option<ObjId>
    requires { StandsOver linked.now s.now.arena }
    ensures is { result ≡ host_prototype s.now.arena class }
    ensures there { IsObjectOrNone s.now.arena result }
{
    let class_object = s.arena.host_class(class);
    first_held(linked, s, class_object)
}
