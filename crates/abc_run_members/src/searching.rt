ghost use Rattle.std.specs.Prelude.{◌≡◌, ◌+◌, ◌<◌, ◌^◌, Ok};
ghost use Rattle.abc_frames.specs.Ready.{HasFrameRoom};
ghost use Rattle.abc_run_state.specs.Outer.{Outer, setting_in};
ghost use Rattle.abc_run_state.specs.Settling.{given_by_how, taken_by};
ghost use Rattle.abc_run_state.specs.declared.state.Left.TheVariants.{Goes};
ghost use Rattle.abc_run_members.specs.Members.{calls_named, gets_named, parts_at, receiver_under, sets_named};
ghost use Rattle.abc_run_calls.specs.Doing.{CanDo, Dispatches, DoesOrLeaves};
ghost use Rattle.abc_run_state.specs.Doing.{Does};

use crate::naming::{call_on, read_on, write_on};
use abc_heap_values::Value;
use abc_link::Linked;
use abc_run_names::{name_of, parts_of};
use abc_run_state::{How, Left, State, Stop, leaves, operand};

/// `getproperty`: the object is under the runtime parts of the name.
#[inline(never)]
pub fn get_property(linked: &Linked, s: &mut State, name: u32) -> Result<(), Stop>
    ghost out: { Outer }
    requires can { CanDo linked.now out (λ p. gets_named p name) s.old }
    requires ready { HasFrameRoom (parts_at (setting_in linked.now out) name + 1) 1 s.old.frames }
    ensures { Does linked.now out (λ p. gets_named p name) s.old result s.new }
{
    let parts = parts_of(linked, name);
    let v = operand(&s.frames, parts);
    let wanted = name_of(linked, s, name, 0)?;
    read_on(linked, s, v, &wanted, How::Push(parts + 1))
}

/// `setproperty` and `initproperty`, which writes constant slots too: the value is on top.
#[inline(never)]
pub fn set_property(linked: &Linked, s: &mut State, name: u32, initial: bool) -> Result<(), Stop>
    ghost out: { Outer }
    requires can { CanDo linked.now out (λ p. sets_named p name initial) s.old }
    requires ready { HasFrameRoom (parts_at (setting_in linked.now out) name + 2) 0 s.old.frames }
    ensures { Does linked.now out (λ p. sets_named p name initial) s.old result s.new }
{
    let parts = parts_of(linked, name);
    let x = operand(&s.frames, 0);
    let v = operand(&s.frames, 1 + parts);
    let wanted = name_of(linked, s, name, 1)?;
    write_on(linked, s, v, &wanted, x, initial, How::Drop(parts + 2))
}

/// The receiver of a call by a name: `callproplex` has none.
fn receiver_for(v: Value, lexical: bool) -> Value
    ensures { result ≡ receiver_under lexical v }
{
    if lexical { Value::Null } else { v }
}

/// What is found by a name is called, by a search.
#[inline(always)]
fn call_searched(
    linked: &Linked,
    s: &mut State,
    name: u32,
    count: u32,
    lexical: bool,
    how: How,
) -> Result<Left, Stop>
    ghost out: { Outer }
    requires can { CanDo linked.now out (λ p. calls_named p name count lexical how) s.old }
    requires ready { HasFrameRoom (count + parts_at (setting_in linked.now out) name + 1) (given_by_how how)
        s.old.frames }
    requires count { count < 2 ^ 30 }
    requires how { taken_by how ≡ count + parts_at (setting_in linked.now out) name + 1 }
    ensures { DoesOrLeaves linked.now out (λ p. calls_named p name count lexical how) s.old result s.new }
{
    let parts = parts_of(linked, name);
    let v = operand(&s.frames, count + parts);
    let receiver = receiver_for(v, lexical);
    let wanted = name_of(linked, s, name, count)?;
    call_on(linked, s, v, receiver, &wanted, count, how)
}

/// The same as `call_property`, by a search: whether the frame goes on; else `left` says why not.
#[inline(never)]
pub(crate) fn call_searching(
    linked: &Linked,
    s: &mut State,
    name: u32,
    count: u32,
    lexical: bool,
    how: How,
    left: &mut Result<Left, Stop>,
) -> bool
    ghost out: { Outer }
    requires can { CanDo linked.now out (λ p. calls_named p name count lexical how) s.old }
    requires ready { HasFrameRoom (count + parts_at (setting_in linked.now out) name + 1) (given_by_how how)
        s.old.frames }
    requires count { count < 2 ^ 30 }
    requires how { taken_by how ≡ count + parts_at (setting_in linked.now out) name + 1 }
    requires none { left.old ≡ Ok Goes }
    ensures { Dispatches linked.now out (λ p. calls_named p name count lexical how) s.old result left.new
        s.new }
{
    leaves(call_searched(linked, s, name, count, lexical, how), left)
}
