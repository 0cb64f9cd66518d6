ghost use Rattle.std.specs.Prelude.{◌≡◌, length};
ghost use Rattle.abc_frames.specs.Ready.{HasFrameRoom};
ghost use Rattle.abc_run_names.specs.Named.{name_form_at, name_parts_count};
ghost use Rattle.abc_run_state.specs.Outer.{Outer, setting_in};
ghost use Rattle.abc_run_members.specs.Found.{IsScopeThere};
ghost use Rattle.abc_run_members.specs.Scoped.{finds_or_global_here, finds_strictly_here, pushes_or_global, pushes_strictly};
ghost use Rattle.abc_run_calls.specs.Doing.{CanDo};
ghost use Rattle.abc_run_state.specs.Doing.{Does};

use crate::scopes_above::find_here;
use abc_base::HostClass;
use abc_frames::finish;
use abc_heap_values::Value;
use abc_link::Linked;
use abc_objects::ScopeFound;
use abc_run_calls::{global_of, start_above};
use abc_run_names::{name_of, parts_of};
use abc_run_state::{State, Stop};

/// What was found takes the place of the parts of the name. A script that is to be started first is entered, and the instruction
/// is executed again after that; nothing is a ReferenceError.
fn push_strictly(linked: &Linked, s: &mut State, found: ScopeFound, parts: u32) -> Result<(), Stop>
    ghost out: { Outer }
    requires can { CanDo linked.now out (λ p. pushes_strictly p found parts) s.old }
    requires ready { HasFrameRoom parts 1 s.old.frames }
    requires started { length s.old.started ≡ length linked.now.file.scripts }
    requires found { IsScopeThere linked.now s.old.arena found }
    ensures { Does linked.now out (λ p. pushes_strictly p found parts) s.old result s.new }
{
    match found {
        ScopeFound::Object(o) => {
            finish(&mut s.frames, parts, Value::Obj(o));
            Ok(())
        }
        ScopeFound::Start(script) => start_above(linked, s, script),
        ScopeFound::Missing => Err(Stop::Errs(HostClass::ReferenceError)),
    }
}

/// The same, where the global object of the script in which the method was made stands for nothing.
fn push_or_global(linked: &Linked, s: &mut State, found: ScopeFound, parts: u32) -> Result<(), Stop>
    ghost out: { Outer }
    requires can { CanDo linked.now out (λ p. pushes_or_global p found parts) s.old }
    requires ready { HasFrameRoom parts 1 s.old.frames }
    requires started { length s.old.started ≡ length linked.now.file.scripts }
    requires found { IsScopeThere linked.now s.old.arena found }
    ensures { Does linked.now out (λ p. pushes_or_global p found parts) s.old result s.new }
{
    match found {
        ScopeFound::Object(o) => {
            finish(&mut s.frames, parts, Value::Obj(o));
            Ok(())
        }
        ScopeFound::Start(script) => start_above(linked, s, script),
        ScopeFound::Missing => {
            let home = s.frames.home();
            let global = global_of(linked, s, home);
            finish(&mut s.frames, parts, global);
            Ok(())
        }
    }
}

/// `findpropstrict`.
pub fn find_strictly(linked: &Linked, s: &mut State, name: u32) -> Result<(), Stop>
    ghost out: { Outer }
    requires can { CanDo linked.now out (λ p. finds_strictly_here p name) s.old }
    requires ready { HasFrameRoom (name_parts_count (name_form_at (setting_in linked.now out) name)) 1
        s.old.frames }
    requires started { length s.old.started ≡ length linked.now.file.scripts }
    ensures { Does linked.now out (λ p. finds_strictly_here p name) s.old result s.new }
{
    let parts = parts_of(linked, name);
    let wanted = name_of(linked, s, name, 0)?;
    let found = find_here(linked, s, &wanted);
    push_strictly(linked, s, found, parts)
}

/// `findproperty`.
pub fn find_or_global(linked: &Linked, s: &mut State, name: u32) -> Result<(), Stop>
    ghost out: { Outer }
    requires can { CanDo linked.now out (λ p. finds_or_global_here p name) s.old }
    requires ready { HasFrameRoom (name_parts_count (name_form_at (setting_in linked.now out) name)) 1
        s.old.frames }
    requires started { length s.old.started ≡ length linked.now.file.scripts }
    ensures { Does linked.now out (λ p. finds_or_global_here p name) s.old result s.new }
{
    let parts = parts_of(linked, name);
    let wanted = name_of(linked, s, name, 0)?;
    let found = find_here(linked, s, &wanted);
    push_or_global(linked, s, found, parts)
}
