ghost use Rattle.std.specs.Prelude.{◌≡◌, ◌≢◌, ◌<◌, length};
ghost use Rattle.abc_frames.specs.Ready.{HasFrameRoom};
ghost use Rattle.abc_objects.specs.Stands.{IsMadeAlone, NamesParts, StandsOver, array_layout};
ghost use Rattle.abc_link_names.specs.Linked.{IsLayout};
ghost use Rattle.abc_link_names.specs.Parts.{HasLayout};
ghost use Rattle.abc_link_names.specs.declared.part.Part.TheVariants as parts;
ghost use Rattle.abc_frames.specs.Frame.{newest};
ghost use Rattle.abc_run_state.specs.Outer.{Outer, setting_in};
ghost use Rattle.abc_run_state.specs.Standing.{IsSet};
ghost use Rattle.abc_run_state.specs.Settling.{pushes_instead};
ghost use Rattle.abc_run_state.specs.Turns.{Runs};
ghost use Rattle.abc_run_state.specs.Makers.{pushes_activation, pushes_array, pushes_catch, pushes_function, scope_object_for};

use crate::making::{make_array, make_function, make_object};
use crate::prototypes::prototype_for;
use crate::state::{State, Stop};
use abc_base::HostClass;
use abc_frames::finish;
use abc_heap_store::What;
use abc_heap_values::Value;
use abc_link::Linked;
use abc_link_names::{LayoutId, Part};

/// `newarray`: of the operands on top, so many.
pub fn new_array(linked: &Linked, s: &mut State, count: u32) -> Result<(), Stop>
    requires set { IsSet linked.now s.old }
    requires ready { HasFrameRoom count 1 s.old.frames }
    ensures runs { (out : Outer)
        → Runs linked.now out (pushes_array (setting_in linked.now out) count (newest s.old.frames)) s.old
        result s.new }
    ensures limit { s.new.given.limit ≡ s.old.given.limit }
{
    let made = make_array(linked, s, count)?;
    finish(&mut s.frames, count, Value::Obj(made));
    Ok(())
}

/// `newfunction`: it keeps the scopes of the frame.
pub fn new_function(linked: &Linked, s: &mut State, method: u32) -> Result<(), Stop>
    requires set { IsSet linked.now s.old }
    requires ready { HasFrameRoom 0 1 s.old.frames }
    requires method { method < length linked.now.file.methods }
    ensures runs { (out : Outer)
        → Runs linked.now out (pushes_function (setting_in linked.now out) method (newest s.old.frames)) s.old
        result s.new }
    ensures limit { s.new.given.limit ≡ s.old.given.limit }
{
    let made = make_function(linked, s, method)?;
    finish(&mut s.frames, 0, Value::Obj(made));
    Ok(())
}

/// An object that goes onto the scopes, with the prototype of Object.
fn new_scope_object(
    linked: &Linked,
    s: &mut State,
    layout: LayoutId,
    what: What,
) -> Result<(), Stop>
    requires set { IsSet linked.now s.old }
    requires ready { HasFrameRoom 0 1 s.old.frames }
    requires layout { IsLayout linked.now layout }
    requires no_array { layout.0 ≢ array_layout linked.now }
    requires what { IsMadeAlone what }
    requires names { NamesParts linked.now s.old.arena what }
    ensures runs { (out : Outer)
        → Runs linked.now out (pushes_instead 0 (newest s.old.frames)
        (scope_object_for (setting_in linked.now out) layout.0 what)) s.old result s.new }
    ensures limit { s.new.given.limit ≡ s.old.given.limit }
{
    let delegate = prototype_for(linked, s, HostClass::Object);
    let made = make_object(linked, s, layout, delegate, what)?;
    finish(&mut s.frames, 0, Value::Obj(made));
    Ok(())
}

/// `newactivation`, in a body.
pub fn new_activation(linked: &Linked, s: &mut State, body: u32) -> Result<(), Stop>
    requires set { IsSet linked.now s.old }
    requires ready { HasFrameRoom 0 1 s.old.frames }
    requires layout { HasLayout linked.now.file (parts.Activation body) }
    ensures runs { (out : Outer)
        → Runs linked.now out (pushes_activation (setting_in linked.now out) body (newest s.old.frames)) s.old
        result s.new }
    ensures limit { s.new.given.limit ≡ s.old.given.limit }
{
    new_scope_object(
        linked,
        s,
        linked.layout_of(Part::Activation(body)),
        What::Activation,
    )
}

/// `newcatch`, for a handler of a body.
pub fn new_catch(linked: &Linked, s: &mut State, body: u32, handler: u32) -> Result<(), Stop>
    requires set { IsSet linked.now s.old }
    requires ready { HasFrameRoom 0 1 s.old.frames }
    requires layout { HasLayout linked.now.file (parts.Catch body handler) }
    ensures runs { (out : Outer)
        → Runs linked.now out (pushes_catch (setting_in linked.now out) body handler (newest s.old.frames))
        s.old result s.new }
    ensures limit { s.new.given.limit ≡ s.old.given.limit }
{
    new_scope_object(
        linked,
        s,
        linked.layout_of(Part::Catch(body, handler)),
        What::Catch,
    )
}
