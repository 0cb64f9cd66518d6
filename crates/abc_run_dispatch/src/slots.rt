ghost use Rattle.std.specs.Prelude.{◌≡◌, true};
ghost use Rattle.abc_run_dispatch.specs.ObjectGroups.{slot_ops};
ghost use Rattle.abc_run_values.specs.Here.{RunsHere};
ghost use Rattle.abc_run_values.specs.Ready.{CanRun};
ghost use Rattle.abc_run_state.specs.Outer.{Outer};
ghost use Rattle.abc_file_types.specs.Opcodes.{is_in};
ghost use Rattle.abc_file_types.specs.declared.code.Instr.TheVariants.{One};

use abc_file_types::op;
use abc_link::Linked;
use abc_run_names::{get_slot, set_slot};
use abc_run_state::{State, Stop};

/// What reads and writes a slot by its number.
pub fn run_slot(linked: &Linked, s: &mut State, op: u8, n: u32) -> Result<(), Stop>
    ghost out: { Outer }
    requires run { CanRun linked.now out s.old (One op n) }
    requires among { is_in op slot_ops ≡ true }
    ensures { RunsHere linked.now out (One op n) s.old result s.new }
{
    match op {
        op::GETSLOT => get_slot(linked, s, n),
        op::SETSLOT => set_slot(linked, s, n),
        _ => unreachable!(),
    }
}
