ghost use Rattle.std.specs.Prelude.{◌≡◌, true};
ghost use Rattle.abc_run_state.specs.Outer.{Outer};
ghost use Rattle.abc_file_types.specs.Opcodes.{is_in};
ghost use Rattle.abc_run_values.specs.Here.{RunsHere};
ghost use Rattle.abc_run_values.specs.Ready.{CanRun};
ghost use Rattle.abc_run_values.specs.Groups.{constant_ops, count_ops, type_ops};
ghost use Rattle.abc_file_types.specs.declared.code.Instr.TheVariants.{One};

use crate::moves::{clear_local, push_value, read_local, step_on, take_local};
use abc_base::Fault;
use abc_file_types::op;
use abc_heap_values::Value;
use abc_link::Linked;
use abc_run_state::{
    State, Stop, as_type, coerce_to, count_local, int_value, is_type, string_at, uint_value,
};

/// What pushes a constant of a pool, and the locals that are named by a number.
#[inline(always)]
pub fn run_constant(linked: &Linked, s: &mut State, op: u8, n: u32) -> Result<(), Stop>
    ghost out: { Outer }
    requires run { CanRun linked.now out s.old (One op n) }
    requires among { is_in op constant_ops ≡ true }
    ensures { RunsHere linked.now out (One op n) s.old result s.new }
{
    match op {
        op::KILL => clear_local(linked, s, n),
        op::PUSHSTRING => push_value(linked, s, Value::Text(string_at(linked, n))),
        op::PUSHINT => push_value(linked, s, int_value(linked, n)),
        op::PUSHUINT => push_value(linked, s, uint_value(linked, n)),
        op::PUSHDOUBLE => Err(Stop::Faults(Fault::Double)),
        op::PUSHNAMESPACE => push_value(linked, s, Value::Space(n)),
        op::GETLOCAL => read_local(linked, s, n),
        op::SETLOCAL => take_local(linked, s, n),
        op::DEBUGLINE => step_on(linked, s),
        op::DEBUGFILE => step_on(linked, s),
        _ => unreachable!(),
    }
}

/// What asks for a type that is named.
pub fn run_typed(linked: &Linked, s: &mut State, op: u8, n: u32) -> Result<(), Stop>
    ghost out: { Outer }
    requires run { CanRun linked.now out s.old (One op n) }
    requires among { is_in op type_ops ≡ true }
    ensures { RunsHere linked.now out (One op n) s.old result s.new }
{
    match op {
        op::COERCE => coerce_to(linked, s, n),
        op::ASTYPE => as_type(linked, s, n),
        op::ISTYPE => is_type(linked, s, n),
        _ => unreachable!(),
    }
}

/// Locals that count.
pub fn run_count(linked: &Linked, s: &mut State, op: u8, n: u32) -> Result<(), Stop>
    ghost out: { Outer }
    requires run { CanRun linked.now out s.old (One op n) }
    requires among { is_in op count_ops ≡ true }
    ensures { RunsHere linked.now out (One op n) s.old result s.new }
{
    match op {
        op::INCLOCAL => count_local(linked, s, op::INCREMENT, n),
        op::DECLOCAL => count_local(linked, s, op::DECREMENT, n),
        op::INCLOCAL_I => count_local(linked, s, op::INCREMENT_I, n),
        op::DECLOCAL_I => count_local(linked, s, op::DECREMENT_I, n),
        _ => unreachable!(),
    }
}
