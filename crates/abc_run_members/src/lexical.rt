ghost use Rattle.std.specs.Prelude.{◌≡◌, length};
ghost use Rattle.abc_heap_store.specs.Texts.{IsText};
ghost use Rattle.abc_frames.specs.Ready.{HasFrameRoom};
ghost use Rattle.abc_run_members.specs.Members.{parts_at};
ghost use Rattle.abc_run_state.specs.Outer.{Outer, setting_in};
ghost use Rattle.abc_run_members.specs.Found.{IsScopeThere};
ghost use Rattle.abc_run_members.specs.Supers.{find_and_read, reads_in};
ghost use Rattle.abc_run_calls.specs.Doing.{CanDo};
ghost use Rattle.abc_run_state.specs.Doing.{Does};

use crate::naming::read_on;
use crate::scopes_above::find_here;
use abc_base::HostClass;
use abc_heap_values::Value;
use abc_link::Linked;
use abc_objects::{Name, ScopeFound};
use abc_run_calls::start_above;
use abc_run_names::{name_of, parts_of};
use abc_run_state::{How, State, Stop};

/// What was found is read by the name; a script that is to be started first is entered, and what comes takes the place of the parts of the name.
fn read_in(
    linked: &Linked,
    s: &mut State,
    found: ScopeFound,
    name: &Name,
    parts: u32,
) -> Result<(), Stop>
    ghost out: { Outer }
    requires can { CanDo linked.now out (λ p. reads_in p found name.now parts) s.old }
    requires ready { HasFrameRoom parts 1 s.old.frames }
    requires started { length s.old.started ≡ length linked.now.file.scripts }
    requires found { IsScopeThere linked.now s.old.arena found }
    requires name { IsText linked.now.file.strings s.old.arena name.now.text }
    ensures { Does linked.now out (λ p. reads_in p found name.now parts) s.old result s.new }
{
    match found {
        ScopeFound::Object(o) => read_on(linked, s, Value::Obj(o), name, How::Push(parts)),
        ScopeFound::Start(script) => start_above(linked, s, script),
        ScopeFound::Missing => Err(Stop::Errs(HostClass::ReferenceError)),
    }
}

/// `getlex`.
pub fn get_lexical(linked: &Linked, s: &mut State, name: u32) -> Result<(), Stop>
    ghost out: { Outer }
    requires can { CanDo linked.now out (λ p. find_and_read p name) s.old }
    requires ready { HasFrameRoom (parts_at (setting_in linked.now out) name) 1 s.old.frames }
    requires started { length s.old.started ≡ length linked.now.file.scripts }
    ensures { Does linked.now out (λ p. find_and_read p name) s.old result s.new }
{
    let parts = parts_of(linked, name);
    let wanted = name_of(linked, s, name, 0)?;
    let found = find_here(linked, s, &wanted);
    read_in(linked, s, found, &wanted, parts)
}
