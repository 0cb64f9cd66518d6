ghost use Rattle.std.specs.Prelude.{◌≡◌, ◌+◌, ◌<◌, ◌^◌, Ok};
ghost use Rattle.abc_frames.specs.Ready.{HasFrameRoom};
ghost use Rattle.abc_run_members.specs.AtOnce.{how_for};
ghost use Rattle.abc_run_state.specs.Outer.{Outer, setting_in};
ghost use Rattle.abc_run_state.specs.Settling.{given_by_how};
ghost use Rattle.abc_run_state.specs.declared.state.Left.TheVariants.{Goes};
ghost use Rattle.abc_run_members.specs.Members.{calls_operand, calls_property, constructs_named, constructs_operand, parts_at};
ghost use Rattle.abc_run_calls.specs.Doing.{CanDo, Dispatches, DoesOrLeaves};
ghost use Rattle.abc_run_state.specs.Doing.{Does};

use crate::fast_paths::call_whole;
use crate::naming::construct_on;
use crate::searching::call_searching;
use abc_link::Linked;
use abc_run_calls::{call, make};
use abc_run_names::{name_of, parts_of, whole_name};
use abc_run_state::{How, Left, State, Stop, operand};

/// `call`: the function is under its receiver, and that under the arguments.
pub fn call_value(linked: &Linked, s: &mut State, count: u32) -> Result<Left, Stop>
    ghost out: { Outer }
    requires can { CanDo linked.now out (λ p. calls_operand p count) s.old }
    requires ready { HasFrameRoom (count + 2) 1 s.old.frames }
    requires count { count < 2 ^ 30 }
    ensures { DoesOrLeaves linked.now out (λ p. calls_operand p count) s.old result s.new }
{
    let receiver = operand(&s.frames, count);
    let callee = operand(&s.frames, count + 1);
    call(linked, s, callee, receiver, count, How::Push(count + 2))
}

/// What becomes of so many operands, which a call takes.
#[inline(always)]
fn how_of(drops: bool, taken: u32) -> How
    ensures { result ≡ how_for drops taken }
{
    if drops {
        How::Drop(taken)
    } else {
        How::Push(taken)
    }
}

/// `callproperty`, `callpropvoid`, which drops what comes, and `callproplex`, which has no receiver: the object is under the runtime
/// parts of the name, and these under the arguments. It answers whether the frame goes on; else `left` says why not.
#[inline(always)]
pub fn call_property(
    linked: &Linked,
    s: &mut State,
    name: u32,
    count: u32,
    lexical: bool,
    drops: bool,
    left: &mut Result<Left, Stop>,
) -> bool
    ghost out: { Outer }
    requires can { CanDo linked.now out (λ p. calls_property p name count lexical drops) s.old }
    requires ready { let taken = count + parts_at (setting_in linked.now out) name + 1 in
        HasFrameRoom taken (given_by_how (how_for drops taken)) s.old.frames }
    requires count { count < 2 ^ 30 }
    requires none { left.old ≡ Ok Goes }
    ensures { Dispatches linked.now out (λ p. calls_property p name count lexical drops) s.old result left.new
        s.new }
{
    match whole_name(linked, name) {
        Some(wanted) => {
            let how = how_of(drops, count + 1);
            call_whole(linked, s, name, &wanted, count, lexical, how, left)
        }
        None => {
            let how = how_of(drops, count + parts_of(linked, name) + 1);
            call_searching(linked, s, name, count, lexical, how, left)
        }
    }
}

/// `construct`: what is made of is under the arguments.
pub fn construct(linked: &Linked, s: &mut State, count: u32) -> Result<(), Stop>
    ghost out: { Outer }
    requires can { CanDo linked.now out (λ p. constructs_operand p count) s.old }
    requires ready { HasFrameRoom (count + 1) 1 s.old.frames }
    requires count { count < 2 ^ 30 }
    ensures { Does linked.now out (λ p. constructs_operand p count) s.old result s.new }
{
    let of = operand(&s.frames, count);
    make(linked, s, of, count, How::Push(count + 1))
}

/// `constructprop`: where a getter is read, `new` is done on what it returns, with the arguments that stay on the stack.
pub fn construct_property(linked: &Linked, s: &mut State, name: u32, count: u32) -> Result<(), Stop>
    ghost out: { Outer }
    requires can { CanDo linked.now out (λ p. constructs_named p name count) s.old }
    requires ready { HasFrameRoom (count + parts_at (setting_in linked.now out) name + 1) 1 s.old.frames }
    requires count { count < 2 ^ 30 }
    ensures { Does linked.now out (λ p. constructs_named p name count) s.old result s.new }
{
    let parts = parts_of(linked, name);
    let v = operand(&s.frames, count + parts);
    let wanted = name_of(linked, s, name, count)?;
    construct_on(linked, s, v, &wanted, parts + 1, count)
}
