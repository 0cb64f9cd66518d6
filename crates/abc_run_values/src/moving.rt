ghost use Rattle.std.specs.Prelude.{◌≡◌, true};
ghost use Rattle.abc_run_values.specs.Here.{RunsHere};
ghost use Rattle.abc_run_values.specs.Ready.{CanRun};
ghost use Rattle.abc_run_state.specs.Outer.{Outer};
ghost use Rattle.abc_file_types.specs.Opcodes.{is_in};
ghost use Rattle.abc_run_values.specs.Groups.{control_ops, push_ops};
ghost use Rattle.abc_file_types.specs.declared.code.Instr.TheVariants.{Plain};

use crate::moves::{
    double_top, drop_top, enter_scope, exchange, leave_scope, push_value, step_on, throw_top,
};
use abc_base::Fault;
use abc_file_types::op;
use abc_heap_values::Value;
use abc_link::Linked;
use abc_run_state::{State, Stop};

/// `nop`, `throw`, `label`, and what changes the scopes.
#[inline(always)]
pub fn run_control(linked: &Linked, s: &mut State, op: u8) -> Result<(), Stop>
    ghost out: { Outer }
    requires run { CanRun linked.now out s.old (Plain op) }
    requires among { is_in op control_ops ≡ true }
    ensures { RunsHere linked.now out (Plain op) s.old result s.new }
{
    match op {
        op::NOP => step_on(linked, s),
        op::THROW => throw_top(linked, s),
        op::LABEL => step_on(linked, s),
        op::PUSHWITH => enter_scope(linked, s, true),
        op::POPSCOPE => leave_scope(linked, s),
        op::PUSHSCOPE => enter_scope(linked, s, false),
        _ => unreachable!(),
    }
}

/// What pushes a constant, and moves between operands.
#[inline(always)]
pub fn run_push(linked: &Linked, s: &mut State, op: u8) -> Result<(), Stop>
    ghost out: { Outer }
    requires run { CanRun linked.now out s.old (Plain op) }
    requires among { is_in op push_ops ≡ true }
    ensures { RunsHere linked.now out (Plain op) s.old result s.new }
{
    match op {
        op::PUSHNULL => push_value(linked, s, Value::Null),
        op::PUSHUNDEFINED => push_value(linked, s, Value::Undefined),
        op::PUSHTRUE => push_value(linked, s, Value::Bool(true)),
        op::PUSHFALSE => push_value(linked, s, Value::Bool(false)),
        op::PUSHNAN => Err(Stop::Faults(Fault::NotANumber)),
        op::POP => drop_top(linked, s),
        op::DUP => double_top(linked, s),
        op::SWAP => exchange(linked, s),
        _ => unreachable!(),
    }
}
