ghost use Rattle.std.specs.Prelude.{◌≡◌, ◌<◌, Some, length};
ghost use Rattle.abc_link_names.specs.Linked.{IsLayout};
ghost use Rattle.abc_link_names.specs.Owners.{owner_of};
ghost use Rattle.abc_frames.specs.Frame.{newest};
ghost use Rattle.abc_verify_typing.specs.Routines.{home_of};
ghost use Rattle.abc_verify_typing.specs.Rules.{super_layout};
ghost use Rattle.abc_verify_typing.specs.declared.row.Site.TheVariants.{OnInstance};
ghost use Rattle.abc_run_dispatch.specs.Homes.{HasHome, class_of_owner};

use abc_link::Linked;
use abc_link_names::{LayoutId, Owner, Part};
use abc_run_state::State;

/// The class whose instances have the methods of an owner.
fn class_in(linked: &Linked, owner: Owner) -> u32
    requires { HasHome linked.now owner }
    ensures is { class_of_owner owner ≡ Some result }
    ensures inside { result < length linked.now.file.instances }
{
    let _ = linked;
    match owner {
        Owner::Iinit(class) => class,
        Owner::Instance(class) => class,
        Owner::Free => unreachable!(),
        Owner::ScriptInit(_) => unreachable!(),
        Owner::ScriptMethod(_) => unreachable!(),
        Owner::ClassInit(_) => unreachable!(),
        Owner::Static(_) => unreachable!(),
    }
}

/// The class whose instances have the newest frame's method.
pub(crate) fn class_here(linked: &Linked, s: &State) -> u32
    requires live { 0 < length s.now.frames.living }
    requires home { HasHome linked.now (owner_of linked.now.file (newest s.now.frames).method) }
    ensures is { class_of_owner (owner_of linked.now.file (newest s.now.frames).method) ≡ Some result }
    ensures inside { result < length linked.now.file.instances }
{
    class_in(linked, linked.owner(s.frames.method()))
}

/// The layout of the instances of that class.
pub(crate) fn layout_here(linked: &Linked, s: &State) -> LayoutId
    requires live { 0 < length s.now.frames.living }
    requires home { HasHome linked.now (owner_of linked.now.file (newest s.now.frames).method) }
    ensures is { super_layout OnInstance
        (home_of linked.now (owner_of linked.now.file (newest s.now.frames).method)) ≡ Some result }
    ensures layout { IsLayout linked.now result }
{
    linked.linked_law();
    let class = class_here(linked, s);
    linked.layout_of(Part::Instance(class))
}
