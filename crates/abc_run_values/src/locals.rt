ghost use Rattle.std.specs.Prelude.{◌≡◌, true};
ghost use Rattle.abc_run_values.specs.Here.{RunsHere};
ghost use Rattle.abc_run_values.specs.Ready.{CanRun};
ghost use Rattle.abc_run_state.specs.Outer.{Outer};
ghost use Rattle.abc_file_types.specs.Opcodes.{is_in};
ghost use Rattle.abc_run_values.specs.Groups.{local_ops};
ghost use Rattle.abc_file_types.specs.declared.code.Instr.TheVariants.{Plain};

use crate::moves::{read_local, take_local};
use abc_file_types::op;
use abc_link::Linked;
use abc_run_state::{State, Stop};

/// `getlocal_0` to `setlocal_3`.
#[inline(always)]
pub fn run_local(linked: &Linked, s: &mut State, op: u8) -> Result<(), Stop>
    ghost out: { Outer }
    requires run { CanRun linked.now out s.old (Plain op) }
    requires among { is_in op local_ops ≡ true }
    ensures { RunsHere linked.now out (Plain op) s.old result s.new }
{
    match op {
        op::GETLOCAL_0 => read_local(linked, s, 0),
        op::GETLOCAL_1 => read_local(linked, s, 1),
        op::GETLOCAL_2 => read_local(linked, s, 2),
        op::GETLOCAL_3 => read_local(linked, s, 3),
        op::SETLOCAL_0 => take_local(linked, s, 0),
        op::SETLOCAL_1 => take_local(linked, s, 1),
        op::SETLOCAL_2 => take_local(linked, s, 2),
        op::SETLOCAL_3 => take_local(linked, s, 3),
        _ => unreachable!(),
    }
}
