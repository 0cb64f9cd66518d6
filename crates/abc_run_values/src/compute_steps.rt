ghost use Rattle.std.specs.Prelude.{◌≡◌, true};
ghost use Rattle.abc_run_state.specs.Outer.{Outer};
ghost use Rattle.abc_file_types.specs.Opcodes.{is_in};
ghost use Rattle.abc_run_values.specs.Here.{RunsHere};
ghost use Rattle.abc_run_values.specs.Ready.{CanRun};
ghost use Rattle.abc_run_values.specs.Groups.{comparison_ops, convert_ops, double_ops, single_ops};
ghost use Rattle.abc_file_types.specs.declared.code.Instr.TheVariants.{Plain};

use crate::moves::step_on;
use abc_file_types::op;
use abc_heap_values::Conversion;
use abc_link::Linked;
use abc_run_state::{State, Stop, compare_top, compute_both, compute_top, convert_top};

/// The conversions.
#[inline(always)]
pub fn run_convert(linked: &Linked, s: &mut State, op: u8) -> Result<(), Stop>
    ghost out: { Outer }
    requires run { CanRun linked.now out s.old (Plain op) }
    requires among { is_in op convert_ops ≡ true }
    ensures { RunsHere linked.now out (Plain op) s.old result s.new }
{
    match op {
        op::CONVERT_S => convert_top(linked, s, Conversion::ConvertS),
        op::CONVERT_I => convert_top(linked, s, Conversion::ConvertI),
        op::CONVERT_U => convert_top(linked, s, Conversion::ConvertU),
        op::CONVERT_D => convert_top(linked, s, Conversion::ConvertD),
        op::CONVERT_B => convert_top(linked, s, Conversion::ConvertB),
        op::CONVERT_O => convert_top(linked, s, Conversion::ConvertO),
        op::COERCE_A => step_on(linked, s),
        op::COERCE_S => convert_top(linked, s, Conversion::CoerceS),
        _ => unreachable!(),
    }
}

/// What is computed of one value.
pub fn run_single(linked: &Linked, s: &mut State, op: u8) -> Result<(), Stop>
    ghost out: { Outer }
    requires run { CanRun linked.now out s.old (Plain op) }
    requires among { is_in op single_ops ≡ true }
    ensures { RunsHere linked.now out (Plain op) s.old result s.new }
{
    compute_top(linked, s, op)
}

/// What is computed of two values.
#[inline(always)]
pub fn run_double(linked: &Linked, s: &mut State, op: u8) -> Result<(), Stop>
    ghost out: { Outer }
    requires run { CanRun linked.now out s.old (Plain op) }
    requires among { is_in op double_ops ≡ true }
    ensures { RunsHere linked.now out (Plain op) s.old result s.new }
{
    compute_both(linked, s, op)
}

/// The comparisons.
pub fn run_comparison(linked: &Linked, s: &mut State, op: u8) -> Result<(), Stop>
    ghost out: { Outer }
    requires run { CanRun linked.now out s.old (Plain op) }
    requires among { is_in op comparison_ops ≡ true }
    ensures { RunsHere linked.now out (Plain op) s.old result s.new }
{
    compare_top(linked, s, op)
}
