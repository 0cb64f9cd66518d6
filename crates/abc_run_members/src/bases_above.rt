ghost use Rattle.std.specs.Prelude.{◌≡◌};
ghost use Rattle.abc_heap_store.specs.Texts.{IsText};
ghost use Rattle.abc_objects.specs.Stands.{StandsOver};
ghost use Rattle.abc_objects.specs.Values.{IsObject};
ghost use Rattle.abc_link_names.specs.Linked.{IsLayout};
ghost use Rattle.abc_meaning.specs.Supers.{strict};
ghost use Rattle.abc_run_members.specs.Found.{IsDeclared, found_above};

use abc_heap_values::ObjId;
use abc_link::Linked;
use abc_link_names::LayoutId;
use abc_lookup::find_declared;
use abc_objects::{Found, Name, Want, answer_is_the_first};
use abc_run_state::State;

/// What is missing is of no side.
fn strictly(found: Found) -> Found
    ensures { result ≡ strict found }
{
    match found {
        Found::Missing => Found::WrongSide,
        _ => found,
    }
}

/// What a super operation finds: declared traits alone, from the base of a layout on. Nothing is a ReferenceError.
pub fn find_super(
    linked: &Linked,
    s: &State,
    from: LayoutId,
    o: ObjId,
    name: &Name,
    want: Want,
) -> Found
    requires over { StandsOver linked.now s.now.arena }
    requires from { IsLayout linked.now from }
    requires object { IsObject s.now.arena o }
    requires name { IsText linked.now.file.strings s.now.arena name.now.text }
    ensures is { result ≡ found_above linked.now s.now.arena from.0 o name.now want }
    ensures declared { IsDeclared linked.now result }
{
    linked.linked_law();
    answer_is_the_first();
    let layout = s.arena.layout(o);
    let above = linked.above(from);
    strictly(find_declared(linked, &s.arena, layout, above, name, want))
}
