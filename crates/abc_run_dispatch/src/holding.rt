ghost use Rattle.std.specs.Prelude.{◌≡◌, ◌<◌, length, Ok, Some, slice_get};
ghost use Rattle.abc_run_dispatch.specs.Dispatching.{DispatchesNewest};
ghost use Rattle.abc_run_dispatch.specs.Held.{IsHeld};
ghost use Rattle.abc_run_dispatch.specs.Ready.{CanStep, IsEquipped};
ghost use Rattle.abc_frames.specs.Frame.{newest};
ghost use Rattle.abc_run_state.specs.Outer.{Outer, setting_in};
ghost use Rattle.abc_meaning.specs.Setting.{routine_of};
ghost use Rattle.abc_run_state.specs.declared.state.Left.TheVariants.{Goes};
ghost use Rattle.abc_verify_typing.specs.Routines.{Routine};

use crate::dispatch::run_instr;
use abc_file_types::Instr;
use abc_link::Linked;
use abc_run_state::{Left, State, Stop};

/// A method, by its index in the file, and its code, which is empty if it has no body: so that the code of steps that follow one
/// another in one method is looked up once.
#[derive(Clone, Copy)]
pub struct Held<'a> {
    method: u32,
    code: &'a [Instr],
}

/// A method with its code.
#[inline(always)]
pub fn hold<'a>(linked: &'a Linked, method: u32) -> Held<'a>
    ensures held { IsHeld linked.now result }
    ensures method { result.method ≡ method }
{
    match linked.body_of(method) {
        Some(body) => Held {
            method,
            code: linked.abc().bodies.get(body as usize).code.as_slice(),
        },
        None => Held { method, code: &[] },
    }
}

/// The method of the newest frame is held.
#[inline(always)]
fn hold_newest<'a>(linked: &'a Linked, s: &State, held: &mut Held<'a>)
    requires live { 0 < length s.now.frames.living }
    requires held { IsHeld linked.now held.old }
    ensures held { IsHeld linked.now held.new }
    ensures method { held.new.method ≡ (newest s.now.frames).method }
{
    let method = s.frames.method();
    if held.method != method {
        *held = hold(linked, method);
    }
}

/// The instruction at the place of the newest frame.
#[inline(always)]
fn instr_here<'a>(linked: &'a Linked, s: &State, held: &Held<'a>) -> &'a Instr
    ghost out: { Outer }
    requires can { CanStep linked.now out s.now }
    requires held { IsHeld linked.now held.now }
    requires method { held.now.method ≡ (newest s.now.frames).method }
    ensures { (r : Routine) → routine_of (setting_in linked.now out) (newest s.now.frames).method ≡ Some r →
        slice_get r.code (newest s.now.frames).place ≡ Some result.now }
{
    let _ = linked;
    &held.code[s.frames.place() as usize]
}

/// The same as `run_newest`, with the code of its method held, as it is over steps that follow one another.
#[inline(always)]
pub fn run_held<'a>(
    linked: &'a Linked,
    s: &mut State,
    held: &mut Held<'a>,
    left: &mut Result<Left, Stop>,
) -> bool
    ghost out: { Outer }
    requires can { CanStep linked.now out s.old }
    requires equipped { IsEquipped linked.now s.old }
    requires held { IsHeld linked.now held.old }
    requires none { left.old ≡ Ok Goes }
    ensures dispatches { DispatchesNewest linked.now out s.old result left.new s.new }
    ensures held { IsHeld linked.now held.new }
{
    hold_newest(linked, s, held);
    let instr = instr_here(linked, s, held);
    run_instr(linked, s, instr, left)
}

/// Runs the instruction of the newest frame, and answers whether it goes on. Else `left` is what is left to be done: a value that
/// returns, a line that is still to be written, or a formula of the host that is to be asked; or where it stops, why: a value that
/// is thrown, an error that is to be made and thrown, a fault or a limit. (Most instructions go on: so that they copy no answer it is
/// written where it is kept, which has nothing in it before.)
#[inline(always)]
pub fn run_newest(linked: &Linked, s: &mut State, left: &mut Result<Left, Stop>) -> bool
    ghost out: { Outer }
    requires can { CanStep linked.now out s.old }
    requires equipped { IsEquipped linked.now s.old }
    requires none { left.old ≡ Ok Goes }
    ensures { DispatchesNewest linked.now out s.old result left.new s.new }
{
    let mut held = hold(linked, s.frames.method());
    run_held(linked, s, &mut held, left)
}
