ghost use Rattle.std.specs.Prelude.{◌≡◌, ◌<◌, length};
ghost use Rattle.abc_objects.specs.Stands.{StandsOver};
ghost use Rattle.abc_objects.specs.Values.{Exists};
ghost use Rattle.abc_run_state.specs.Outer.{Outer, world};
ghost use Rattle.abc_run_state.specs.Stops.{IsOpen};
ghost use Rattle.abc_meaning.specs.Entering.{global};
ghost use Rattle.abc_meaning.specs.Objects.{place_kept_by, instances_of, place_of_owner as owner_place, statics_of};
ghost use Rattle.abc_meaning.specs.World.{Went};
ghost use Rattle.abc_run_calls.specs.Entering.{place_in_meaning};

use abc_heap_store::What;
use abc_heap_values::Value;
use abc_link::Linked;
use abc_link_names::Owner;
use abc_run_state::{Place, State};

/// The global object of a script.
pub fn global_of(linked: &Linked, s: &State, script: u32) -> Value
    requires over { StandsOver linked.now s.now.arena }
    requires script { script < length linked.now.file.scripts }
    ensures is { (out : Outer) → result ≡ global script (world s.now out) }
    ensures there { Exists linked.now s.now.arena result }
{
    let _ = linked;
    Value::Obj(s.arena.global(script))
}

/// Where the static methods of a class run.
fn statics_place(linked: &Linked, s: &State, class: u32) -> Place
    ghost out: { Outer }
    requires over { StandsOver linked.now s.now.arena }
    requires free { IsOpen (place_kept_by statics_of class (world s.now out)) }
    ensures { place_kept_by statics_of class (world s.now out)
        ≡ Went (world s.now out) (place_in_meaning result) }
{
    let _ = linked;
    let Some(o) = s.arena.class_object(class) else {
        unreachable!()
    };
    match s.arena.what(o) {
        What::ClassObject { home, statics, .. } => Place {
            home,
            saved: statics,
        },
        _ => unreachable!(),
    }
}

/// Where the methods of a class's instances run.
fn instances_place(linked: &Linked, s: &State, class: u32) -> Place
    ghost out: { Outer }
    requires over { StandsOver linked.now s.now.arena }
    requires free { IsOpen (place_kept_by instances_of class (world s.now out)) }
    ensures { place_kept_by instances_of class (world s.now out)
        ≡ Went (world s.now out) (place_in_meaning result) }
{
    let _ = linked;
    let Some(o) = s.arena.class_object(class) else {
        unreachable!()
    };
    match s.arena.what(o) {
        What::ClassObject {
            home,
            instances,
            ..
        } => Place {
            home,
            saved: Some(instances),
        },
        _ => unreachable!(),
    }
}

/// Where a method of an owner runs.
pub fn place_of_owner(linked: &Linked, s: &State, owner: Owner) -> Place
    ghost out: { Outer }
    requires over { StandsOver linked.now s.now.arena }
    requires free { IsOpen (owner_place owner (world s.now out)) }
    ensures { owner_place owner (world s.now out) ≡ Went (world s.now out) (place_in_meaning result) }
{
    match owner {
        Owner::ScriptInit(script) => Place {
            home: script,
            saved: None,
        },
        Owner::ScriptMethod(script) => Place {
            home: script,
            saved: Some(s.arena.global_scope(script)),
        },
        Owner::ClassInit(class) => statics_place(linked, s, class),
        Owner::Static(class) => statics_place(linked, s, class),
        Owner::Iinit(class) => instances_place(linked, s, class),
        Owner::Instance(class) => instances_place(linked, s, class),
        Owner::Free => unreachable!(),
    }
}
