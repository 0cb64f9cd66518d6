ghost use Rattle.std.specs.Prelude.{◌≡◌, true};
ghost use Rattle.abc_run_state.specs.Outer.{Outer};
ghost use Rattle.abc_file_types.specs.Opcodes.{is_in};
ghost use Rattle.abc_run_values.specs.Here.{RunsHere};
ghost use Rattle.abc_run_values.specs.Ready.{CanRun};
ghost use Rattle.abc_run_values.specs.Groups.{first_branch_ops, last_branch_ops};
ghost use Rattle.abc_file_types.specs.declared.code.Instr.TheVariants.{Branch, Switch};

use crate::moves::step_to;
use abc_file_types::op;
use abc_link::Linked;
use abc_run_state::{State, Stop, branch_if, branch_not, branch_so, branch_unless, switch};

/// `ifnlt` to `ifnge`, `jump`, `iftrue`, `iffalse`.
#[inline(always)]
pub fn run_first_branch(linked: &Linked, s: &mut State, op: u8, target: u32) -> Result<(), Stop>
    ghost out: { Outer }
    requires run { CanRun linked.now out s.old (Branch op target) }
    requires among { is_in op first_branch_ops ≡ true }
    ensures { RunsHere linked.now out (Branch op target) s.old result s.new }
{
    match op {
        op::IFNLT => branch_not(linked, s, op::LESSTHAN, target),
        op::IFNLE => branch_not(linked, s, op::LESSEQUALS, target),
        op::IFNGT => branch_not(linked, s, op::GREATERTHAN, target),
        op::IFNGE => branch_not(linked, s, op::GREATEREQUALS, target),
        op::JUMP => step_to(linked, s, target),
        op::IFTRUE => branch_if(linked, s, target),
        op::IFFALSE => branch_unless(linked, s, target),
        _ => unreachable!(),
    }
}

/// `ifeq` to `ifstrictne`.
#[inline(always)]
pub fn run_last_branch(linked: &Linked, s: &mut State, op: u8, target: u32) -> Result<(), Stop>
    ghost out: { Outer }
    requires run { CanRun linked.now out s.old (Branch op target) }
    requires among { is_in op last_branch_ops ≡ true }
    ensures { RunsHere linked.now out (Branch op target) s.old result s.new }
{
    match op {
        op::IFEQ => branch_so(linked, s, op::EQUALS, target),
        op::IFNE => branch_not(linked, s, op::EQUALS, target),
        op::IFLT => branch_so(linked, s, op::LESSTHAN, target),
        op::IFLE => branch_so(linked, s, op::LESSEQUALS, target),
        op::IFGT => branch_so(linked, s, op::GREATERTHAN, target),
        op::IFGE => branch_so(linked, s, op::GREATEREQUALS, target),
        op::IFSTRICTEQ => branch_so(linked, s, op::STRICTEQUALS, target),
        op::IFSTRICTNE => branch_not(linked, s, op::STRICTEQUALS, target),
        _ => unreachable!(),
    }
}

/// `lookupswitch`.
pub fn run_switch(linked: &Linked, s: &mut State, default: u32, cases: &[u32]) -> Result<(), Stop>
    ghost out: { Outer }
    requires { CanRun linked.now out s.old (Switch default cases.now) }
    ensures { RunsHere linked.now out (Switch default cases.now) s.old result s.new }
{
    switch(linked, s, default, cases)
}
