ghost use Rattle.std.specs.Prelude.{◌≡◌, true};
ghost use Rattle.abc_run_dispatch.specs.ObjectGroups.{late_ops, walk_ops};
ghost use Rattle.abc_run_values.specs.Here.{RunsHere};
ghost use Rattle.abc_run_values.specs.Ready.{CanRun};
ghost use Rattle.abc_run_state.specs.Outer.{Outer};
ghost use Rattle.abc_file_types.specs.Opcodes.{is_in};
ghost use Rattle.abc_file_types.specs.declared.code.Instr.TheVariants.{Plain};

use abc_file_types::op;
use abc_link::Linked;
use abc_run_names::{as_late, has_name, is_instance_of, is_late, next_name, next_value, walk_one};
use abc_run_state::{State, Stop};

/// What walks over properties.
pub fn run_walk(linked: &Linked, s: &mut State, op: u8) -> Result<(), Stop>
    ghost out: { Outer }
    requires run { CanRun linked.now out s.old (Plain op) }
    requires among { is_in op walk_ops ≡ true }
    ensures { RunsHere linked.now out (Plain op) s.old result s.new }
{
    match op {
        op::NEXTNAME => next_name(linked, s),
        op::HASNEXT => walk_one(linked, s),
        op::NEXTVALUE => next_value(linked, s),
        _ => unreachable!(),
    }
}

/// What asks for a class object that is a value, or for a name in an object.
pub fn run_late(linked: &Linked, s: &mut State, op: u8) -> Result<(), Stop>
    ghost out: { Outer }
    requires run { CanRun linked.now out s.old (Plain op) }
    requires among { is_in op late_ops ≡ true }
    ensures { RunsHere linked.now out (Plain op) s.old result s.new }
{
    match op {
        op::ASTYPELATE => as_late(linked, s),
        op::INSTANCEOF => is_instance_of(linked, s),
        op::ISTYPELATE => is_late(linked, s),
        op::IN => has_name(linked, s),
        _ => unreachable!(),
    }
}
