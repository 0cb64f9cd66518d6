ghost use Rattle.std.specs.Prelude.{◌≡◌, ◌≢◌, ◌<◌, ◌≤◌, None, IfOk, get_or, length, replicate};
ghost use Rattle.abc_base.specs.declared.names.HostClass.TheVariants.{Array};
ghost use Rattle.abc_heap_values.specs.declared.values.Value.TheVariants.{Undefined};
ghost use Rattle.abc_heap_store.specs.Texts.{IsText};
ghost use Rattle.abc_objects.specs.Stands.{EachAt, IsMadeAlone, IsObjectOrNone, NamesParts, StandsOver, array_layout};
ghost use Rattle.abc_objects.specs.Values.{Exists, IsObject};
ghost use Rattle.abc_link_names.specs.Linked.{IsLayout};
ghost use Rattle.abc_frames.specs.Frame.{arguments, newest};
ghost use Rattle.abc_run_state.specs.Outer.{Outer, setting_in, world};
ghost use Rattle.abc_run_state.specs.Standing.{IsSet, Stays};
ghost use Rattle.abc_run_state.specs.Stops.{part_outcome};
ghost use Rattle.abc_meaning.specs.Objects.{new_array, new_class, new_function, new_object, new_of_host, set_property};

use crate::prototypes::prototype_for;
use crate::state::{State, Stop};
use abc_base::HostClass;
use abc_heap_store::What;
use abc_heap_values::{ObjId, Span, Value};
use abc_link::Linked;
use abc_link_names::{LayoutId, Part};

/// Makes an object of a layout, with the slots of the layout at their start values. `Fills` where a limit is passed, that of
/// objects first.
pub fn make_object(
    linked: &Linked,
    s: &mut State,
    layout: LayoutId,
    delegate: Option<ObjId>,
    what: What,
) -> Result<ObjId, Stop>
    requires over { StandsOver linked.now s.old.arena }
    requires layout { IsLayout linked.now layout }
    requires no_array { layout.0 ≢ array_layout linked.now }
    requires delegate { IsObjectOrNone s.old.arena delegate }
    requires what { IsMadeAlone what }
    requires names { NamesParts linked.now s.old.arena what }
    ensures part { (out : Outer)
        → new_object (setting_in linked.now out) layout.0 delegate what (world s.old out)
        ≡ part_outcome result (world s.new out) }
    ensures stays { Stays linked.now s.old s.new }
    ensures there { IfOk result (IsObject s.new.arena) }
{
    match s.arena.new_object(linked, layout, delegate, what) {
        Ok(made) => Ok(made),
        Err(full) => Err(Stop::Fills(full.0)),
    }
}

/// Makes an object of a class of the host that is no array, with the prototype of that class as it is now.
pub fn make_of_host(
    linked: &Linked,
    s: &mut State,
    class: HostClass,
    what: What,
) -> Result<ObjId, Stop>
    requires over { StandsOver linked.now s.old.arena }
    requires no_array { class ≢ Array }
    requires what { IsMadeAlone what }
    requires names { NamesParts linked.now s.old.arena what }
    ensures part { (out : Outer)
        → new_of_host (setting_in linked.now out) class what (world s.old out)
        ≡ part_outcome result (world s.new out) }
    ensures stays { Stays linked.now s.old s.new }
    ensures there { IfOk result (IsObject s.new.arena) }
{
    let delegate = prototype_for(linked, s, class);
    make_object(
        linked,
        s,
        linked.layout_of(Part::Host(class)),
        delegate,
        what,
    )
}

/// Makes an array of the operands on top, so many, the one that was pushed first first.
pub fn make_array(linked: &Linked, s: &mut State, count: u32) -> Result<ObjId, Stop>
    requires set { IsSet linked.now s.old }
    requires operands { count ≤ length (newest s.old.frames).stack }
    ensures part { (out : Outer)
        → new_array (setting_in linked.now out) (arguments count (newest s.old.frames)) (world s.old out)
        ≡ part_outcome result (world s.new out) }
    ensures stays { Stays linked.now s.old s.new }
    ensures there { IfOk result (IsObject s.new.arena) }
{
    match s.arena.new_array(linked, s.frames.arguments(count)) {
        Ok(made) => Ok(made),
        Err(full) => Err(Stop::Fills(full.0)),
    }
}

/// Makes an array of so many elements that are undefined.
pub fn make_undefined(linked: &Linked, s: &mut State, count: u32) -> Result<ObjId, Stop>
    requires { StandsOver linked.now s.old.arena }
    ensures part { (out : Outer)
        → new_array (setting_in linked.now out) (replicate count Undefined) (world s.old out)
        ≡ part_outcome result (world s.new out) }
    ensures stays { Stays linked.now s.old s.new }
    ensures there { IfOk result (IsObject s.new.arena) }
{
    match s.arena.new_undefined(linked, count) {
        Ok(made) => Ok(made),
        Err(full) => Err(Stop::Fills(full.0)),
    }
}

/// Makes a function of a method, which keeps the scopes of the newest frame, and is bound to no one.
pub fn make_function(linked: &Linked, s: &mut State, method: u32) -> Result<ObjId, Stop>
    requires set { IsSet linked.now s.old }
    requires live { 0 < length s.old.frames.living }
    requires method { method < length linked.now.file.methods }
    ensures part { (out : Outer)
        → new_function (setting_in linked.now out) method (newest s.old.frames).home
        (newest s.old.frames).saved (newest s.old.frames).scopes (world s.old out)
        ≡ part_outcome result (world s.new out) }
    ensures stays { Stays linked.now s.old s.new }
    ensures there { IfOk result (IsObject s.new.arena) }
{
    let delegate = prototype_for(linked, s, HostClass::Function);
    let home = s.frames.home();
    let saved = s.frames.saved();
    match s
        .arena
        .new_function(linked, method, home, delegate, saved, s.frames.scopes())
    {
        Ok(made) => Ok(made),
        Err(full) => Err(Stop::Fills(full.0)),
    }
}

/// Makes the class object of a class that was not made, and its prototype object. It keeps the scopes of the newest frame.
pub fn make_class(
    linked: &Linked,
    s: &mut State,
    class: u32,
    base_prototype: Option<ObjId>,
) -> Result<ObjId, Stop>
    requires set { IsSet linked.now s.old }
    requires live { 0 < length s.old.frames.living }
    requires class { class < length linked.now.file.instances }
    requires first { get_or s.old.arena.classes class None ≡ None }
    requires base { IsObjectOrNone s.old.arena base_prototype }
    ensures part { (out : Outer)
        → new_class (setting_in linked.now out) class (newest s.old.frames).home base_prototype
        (newest s.old.frames).saved (newest s.old.frames).scopes (world s.old out)
        ≡ part_outcome result (world s.new out) }
    ensures stays { Stays linked.now s.old s.new }
    ensures there { IfOk result (IsObject s.new.arena) }
{
    let delegate = prototype_for(linked, s, HostClass::Class);
    let home = s.frames.home();
    let saved = s.frames.saved();
    match s.arena.new_class(
        linked,
        class,
        home,
        base_prototype,
        delegate,
        saved,
        s.frames.scopes(),
    ) {
        Ok(made) => Ok(made),
        Err(full) => Err(Stop::Fills(full.0)),
    }
}

/// Gives an object an own property: one that is there takes the value, else a new one takes a cell, last.
#[inline(always)]
pub fn put_property(
    linked: &Linked,
    s: &mut State,
    o: ObjId,
    name: Span,
    v: Value,
) -> Result<(), Stop>
    requires over { StandsOver linked.now s.old.arena }
    requires inside { IsObject s.old.arena o }
    requires name { IsText linked.now.file.strings s.old.arena name }
    requires value { Exists linked.now s.old.arena v }
    ensures part { (out : Outer)
        → set_property (setting_in linked.now out) o name v (world s.old out)
        ≡ part_outcome result (world s.new out) }
    ensures stays { Stays linked.now s.old s.new }
{
    match s.arena.set_property(linked, o, name, v) {
        Ok(()) => Ok(()),
        Err(full) => Err(Stop::Fills(full.0)),
    }
}
