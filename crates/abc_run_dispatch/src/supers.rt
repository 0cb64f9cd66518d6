ghost use Rattle.std.specs.Prelude.{◌≡◌, ◌+◌, ◌<◌, ◌^◌, true};
ghost use Rattle.abc_run_calls.specs.Calls.{CanFinish};
ghost use Rattle.abc_run_calls.specs.Arguments.{HasArgumentRoom};
ghost use Rattle.abc_run_members.specs.Members.{parts_at};
ghost use Rattle.abc_run_values.specs.Here.{LeavesHere, RunsHere};
ghost use Rattle.abc_run_values.specs.Ready.{CanRun};
ghost use Rattle.abc_run_state.specs.Outer.{Outer, setting_in};
ghost use Rattle.abc_file_types.specs.Opcodes.{is_in};
ghost use Rattle.abc_file_types.specs.declared.code.Instr.TheVariants.{One, Two};
ghost use Rattle.abc_run_dispatch.specs.ScopeGroups.{super_call_ops, super_ops};
ghost use Rattle.abc_file_types.specs.declared.op.TheConstants.{CALLSUPER, CALLSUPERVOID, CONSTRUCTSUPER, GETSUPER, SETSUPER};

use crate::scopes_here::{class_here, layout_here};
use abc_file_types::op;
use abc_link::Linked;
use abc_run_members::{call_super, construct_super, get_super, set_super};
use abc_run_names::parts_of;
use abc_run_state::{How, Left, State, Stop};

/// How many operands a call by a name takes: its arguments, the parts of the name, and the receiver.
fn taken_with(linked: &Linked, n: u32, count: u32) -> u32
    requires { count < 2 ^ 30 }
    ensures { (out : Outer) → result ≡ count + parts_at (setting_in linked.now out) n + 1 }
{
    count + parts_of(linked, n) + 1
}

/// `getsuper`, from the base of the class on whose instances the method runs.
fn read_super(linked: &Linked, s: &mut State, n: u32) -> Result<(), Stop>
    ghost out: { Outer }
    requires run { CanRun linked.now out s.old (One GETSUPER n) }
    requires known { HasArgumentRoom linked.now s.old.given.limit }
    ensures { RunsHere linked.now out (One GETSUPER n) s.old result s.new }
{
    let from = layout_here(linked, s);
    get_super(linked, s, n, from)
}

/// `setsuper`, from the same base.
fn write_super(linked: &Linked, s: &mut State, n: u32) -> Result<(), Stop>
    ghost out: { Outer }
    requires run { CanRun linked.now out s.old (One SETSUPER n) }
    requires known { HasArgumentRoom linked.now s.old.given.limit }
    ensures { RunsHere linked.now out (One SETSUPER n) s.old result s.new }
{
    let from = layout_here(linked, s);
    set_super(linked, s, n, from)
}

/// `constructsuper`, in the maker of a class.
fn make_super(linked: &Linked, s: &mut State, count: u32) -> Result<(), Stop>
    ghost out: { Outer }
    requires run { CanRun linked.now out s.old (One CONSTRUCTSUPER count) }
    requires known { HasArgumentRoom linked.now s.old.given.limit }
    ensures { RunsHere linked.now out (One CONSTRUCTSUPER count) s.old result s.new }
{
    let class = class_here(linked, s);
    construct_super(linked, s, class, count)
}

/// What a method does by the base of its class.
pub fn run_super(linked: &Linked, s: &mut State, op: u8, n: u32) -> Result<(), Stop>
    ghost out: { Outer }
    requires run { CanRun linked.now out s.old (One op n) }
    requires known { HasArgumentRoom linked.now s.old.given.limit }
    requires among { is_in op super_ops ≡ true }
    ensures { RunsHere linked.now out (One op n) s.old result s.new }
{
    match op {
        op::GETSUPER => read_super(linked, s, n),
        op::SETSUPER => write_super(linked, s, n),
        op::CONSTRUCTSUPER => make_super(linked, s, n),
        _ => unreachable!(),
    }
}

/// `callsuper`: what comes is pushed.
fn call_pushing(linked: &Linked, s: &mut State, n: u32, count: u32) -> Result<Left, Stop>
    ghost out: { Outer }
    requires run { CanRun linked.now out s.old (Two CALLSUPER n count) }
    requires known { HasArgumentRoom linked.now s.old.given.limit }
    ensures leaves { LeavesHere linked.now out (Two CALLSUPER n count) s.old result s.new }
    ensures finishes { CanFinish linked.now result s.new }
{
    let from = layout_here(linked, s);
    let taken = taken_with(linked, n, count);
    call_super(linked, s, n, from, count, How::Push(taken))
}

/// `callsupervoid`: what comes is dropped.
fn call_dropping(linked: &Linked, s: &mut State, n: u32, count: u32) -> Result<Left, Stop>
    ghost out: { Outer }
    requires run { CanRun linked.now out s.old (Two CALLSUPERVOID n count) }
    requires known { HasArgumentRoom linked.now s.old.given.limit }
    ensures leaves { LeavesHere linked.now out (Two CALLSUPERVOID n count) s.old result s.new }
    ensures finishes { CanFinish linked.now result s.new }
{
    let from = layout_here(linked, s);
    let taken = taken_with(linked, n, count);
    call_super(linked, s, n, from, count, How::Drop(taken))
}

/// What a method calls of the base of its class.
pub fn run_super_call(
    linked: &Linked,
    s: &mut State,
    op: u8,
    n: u32,
    count: u32,
) -> Result<Left, Stop>
    ghost out: { Outer }
    requires run { CanRun linked.now out s.old (Two op n count) }
    requires known { HasArgumentRoom linked.now s.old.given.limit }
    requires among { is_in op super_call_ops ≡ true }
    ensures leaves { LeavesHere linked.now out (Two op n count) s.old result s.new }
    ensures finishes { CanFinish linked.now result s.new }
{
    match op {
        op::CALLSUPER => call_pushing(linked, s, n, count),
        op::CALLSUPERVOID => call_dropping(linked, s, n, count),
        _ => unreachable!(),
    }
}
