ghost use Rattle.std.specs.Prelude.{◌≡◌, ◌+◌, ◌<◌, ◌≤◌, ◌^◌};
ghost use Rattle.abc_heap_store.specs.Texts.{IsText};
ghost use Rattle.abc_frames.specs.Ready.{HasFrameRoom};
ghost use Rattle.abc_objects.specs.Values.{Exists};
ghost use Rattle.abc_link_names.specs.Linked.{IsLayout};
ghost use Rattle.abc_frames.specs.Frame.{arguments, newest};
ghost use Rattle.abc_run_calls.specs.Calls.{settled_by};
ghost use Rattle.abc_run_members.specs.Members.{parts_at};
ghost use Rattle.abc_run_state.specs.Operands.{operand_at};
ghost use Rattle.abc_run_state.specs.Outer.{Outer, setting_in};
ghost use Rattle.abc_run_state.specs.Settling.{given_by_how, taken_by};
ghost use Rattle.abc_run_members.specs.Supers.{super_call, calls_super_on, gets_super, super_read, sets_super, super_write};
ghost use Rattle.abc_run_calls.specs.Doing.{CanDo, DoesOrLeaves};
ghost use Rattle.abc_run_state.specs.Doing.{Does};

use crate::bases_above::find_super;
use crate::found::{call_found, read_found};
use crate::writing::write_found;
use abc_heap_values::Value;
use abc_link::Linked;
use abc_link_names::LayoutId;
use abc_objects::{Name, Want};
use abc_run_names::{name_of, parts_of, receiver};
use abc_run_state::{How, Left, State, Stop, operand};

/// Reads by a name on a receiver, from the base of a layout on.
fn read_super(
    linked: &Linked,
    s: &mut State,
    from: LayoutId,
    v: Value,
    name: &Name,
    how: How,
) -> Result<(), Stop>
    ghost out: { Outer }
    requires can { CanDo linked.now out (λ p f. settled_by how f (super_read p from.0 v name.now)) s.old }
    requires ready { HasFrameRoom (taken_by how) (given_by_how how) s.old.frames }
    requires from { IsLayout linked.now from }
    requires value { Exists linked.now s.old.arena v }
    requires name { IsText linked.now.file.strings s.old.arena name.now.text }
    ensures { Does linked.now out (λ p f. settled_by how f (super_read p from.0 v name.now)) s.old result
        s.new }
{
    let o = receiver(v)?;
    let found = find_super(linked, s, from, o, name, Want::Read);
    read_found(linked, s, found, Value::Obj(o), how)
}

/// Writes by a name on a receiver, from the base of a layout on. The value is the top operand.
fn write_super(
    linked: &Linked,
    s: &mut State,
    from: LayoutId,
    v: Value,
    name: &Name,
    x: Value,
    how: How,
) -> Result<(), Stop>
    ghost out: { Outer }
    requires can { CanDo linked.now out (λ p f. settled_by how f (super_write p from.0 v name.now x)) s.old }
    requires ready { HasFrameRoom (taken_by how) (given_by_how how) s.old.frames }
    requires one { 1 ≤ taken_by how }
    requires from { IsLayout linked.now from }
    requires receiver { Exists linked.now s.old.arena v }
    requires name { IsText linked.now.file.strings s.old.arena name.now.text }
    requires value { Exists linked.now s.old.arena x }
    requires top { x ≡ operand_at 0 (newest s.old.frames) }
    ensures { Does linked.now out (λ p f. settled_by how f (super_write p from.0 v name.now x)) s.old result
        s.new }
{
    let o = receiver(v)?;
    let found = find_super(linked, s, from, o, name, Want::Write);
    write_found(linked, s, o, name, x, false, found, how)
}

/// Calls by a name on a receiver, from the base of a layout on, with so many arguments.
fn call_super_on(
    linked: &Linked,
    s: &mut State,
    from: LayoutId,
    v: Value,
    name: &Name,
    count: u32,
    how: How,
) -> Result<Left, Stop>
    ghost out: { Outer }
    requires can { CanDo linked.now out
        (λ p f. settled_by how f (calls_super_on p from.0 v name.now (arguments count f))) s.old }
    requires ready { HasFrameRoom (taken_by how) (given_by_how how) s.old.frames }
    requires count { count ≤ taken_by how }
    requires from { IsLayout linked.now from }
    requires value { Exists linked.now s.old.arena v }
    requires name { IsText linked.now.file.strings s.old.arena name.now.text }
    ensures { DoesOrLeaves linked.now out
        (λ p f. settled_by how f (calls_super_on p from.0 v name.now (arguments count f))) s.old result
        s.new }
{
    let o = receiver(v)?;
    let found = find_super(linked, s, from, o, name, Want::Read);
    let holder = Value::Obj(o);
    call_found(linked, s, found, holder, holder, count, how)
}

/// `getsuper`, in a method of instances of a layout.
pub fn get_super(linked: &Linked, s: &mut State, name: u32, from: LayoutId) -> Result<(), Stop>
    ghost out: { Outer }
    requires can { CanDo linked.now out (λ p. gets_super p name from.0) s.old }
    requires ready { HasFrameRoom (parts_at (setting_in linked.now out) name + 1) 1 s.old.frames }
    requires from { IsLayout linked.now from }
    ensures { Does linked.now out (λ p. gets_super p name from.0) s.old result s.new }
{
    let parts = parts_of(linked, name);
    let v = operand(&s.frames, parts);
    let wanted = name_of(linked, s, name, 0)?;
    read_super(linked, s, from, v, &wanted, How::Push(parts + 1))
}

/// `setsuper`: the value is on top.
pub fn set_super(linked: &Linked, s: &mut State, name: u32, from: LayoutId) -> Result<(), Stop>
    ghost out: { Outer }
    requires can { CanDo linked.now out (λ p. sets_super p name from.0) s.old }
    requires ready { HasFrameRoom (parts_at (setting_in linked.now out) name + 2) 0 s.old.frames }
    requires from { IsLayout linked.now from }
    ensures { Does linked.now out (λ p. sets_super p name from.0) s.old result s.new }
{
    let parts = parts_of(linked, name);
    let x = operand(&s.frames, 0);
    let v = operand(&s.frames, 1 + parts);
    let wanted = name_of(linked, s, name, 1)?;
    write_super(linked, s, from, v, &wanted, x, How::Drop(parts + 2))
}

/// `callsuper` and `callsupervoid`: the receiver is under the runtime parts of the name, and these under the arguments.
pub fn call_super(
    linked: &Linked,
    s: &mut State,
    name: u32,
    from: LayoutId,
    count: u32,
    how: How,
) -> Result<Left, Stop>
    ghost out: { Outer }
    requires can { CanDo linked.now out (λ p. super_call p name from.0 count how) s.old }
    requires ready { HasFrameRoom (count + parts_at (setting_in linked.now out) name + 1) (given_by_how how)
        s.old.frames }
    requires count { count < 2 ^ 30 }
    requires how { taken_by how ≡ count + parts_at (setting_in linked.now out) name + 1 }
    requires from { IsLayout linked.now from }
    ensures { DoesOrLeaves linked.now out (λ p. super_call p name from.0 count how) s.old result s.new }
{
    let parts = parts_of(linked, name);
    let v = operand(&s.frames, count + parts);
    let wanted = name_of(linked, s, name, count)?;
    call_super_on(linked, s, from, v, &wanted, count, how)
}
