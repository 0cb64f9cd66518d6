ghost use Rattle.std.specs.Prelude.{◌≡◌, true};
ghost use Rattle.abc_run_calls.specs.Calls.{CanFinish};
ghost use Rattle.abc_run_calls.specs.Arguments.{HasArgumentRoom};
ghost use Rattle.abc_run_values.specs.Here.{LeavesHere};
ghost use Rattle.abc_run_values.specs.Ready.{CanRun};
ghost use Rattle.abc_run_state.specs.Outer.{Outer};
ghost use Rattle.abc_file_types.specs.Opcodes.{is_in};
ghost use Rattle.abc_file_types.specs.declared.code.Instr.TheVariants.{One, Two};
ghost use Rattle.abc_run_dispatch.specs.MemberGroups.{property_call_ops};
ghost use Rattle.abc_file_types.specs.declared.op.TheConstants.{CALL};
ghost use Rattle.abc_run_dispatch.specs.Dispatching.{CanDispatch, DispatchesHere};

use abc_file_types::op;
use abc_link::Linked;
use abc_run_members::{call_property, call_value};
use abc_run_state::{Left, State, Stop};

/// `call`, with so many arguments.
pub fn run_call_value(linked: &Linked, s: &mut State, count: u32) -> Result<Left, Stop>
    ghost out: { Outer }
    requires run { CanRun linked.now out s.old (One CALL count) }
    requires known { HasArgumentRoom linked.now s.old.given.limit }
    ensures leaves { LeavesHere linked.now out (One CALL count) s.old result s.new }
    ensures finishes { CanFinish linked.now result s.new }
{
    call_value(linked, s, count)
}

/// What is found by a name is called, with so many arguments. It answers whether the frame goes on; else `left` says why not.
#[inline(always)]
pub fn run_property_call(
    linked: &Linked,
    s: &mut State,
    op: u8,
    n: u32,
    count: u32,
    left: &mut Result<Left, Stop>,
) -> bool
    ghost out: { Outer }
    requires can { CanDispatch linked.now out (Two op n count) s.old left.old }
    requires among { is_in op property_call_ops ≡ true }
    ensures { DispatchesHere linked.now out (Two op n count) s.old result left.new s.new }
{
    match op {
        op::CALLPROPERTY => call_property(linked, s, n, count, false, false, left),
        op::CALLPROPLEX => call_property(linked, s, n, count, true, false, left),
        op::CALLPROPVOID => call_property(linked, s, n, count, false, true, left),
        _ => unreachable!(),
    }
}
