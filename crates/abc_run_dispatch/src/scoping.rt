ghost use Rattle.std.specs.Prelude.{◌≡◌, true};
ghost use Rattle.abc_run_dispatch.specs.NewGroups.{scope_ops};
ghost use Rattle.abc_run_values.specs.Here.{RunsHere};
ghost use Rattle.abc_run_values.specs.Ready.{CanRun};
ghost use Rattle.abc_run_state.specs.Outer.{Outer};
ghost use Rattle.abc_file_types.specs.Opcodes.{is_in};
ghost use Rattle.abc_file_types.specs.declared.code.Instr.TheVariants.{Plain};
ghost use Rattle.abc_file_types.specs.declared.op.TheConstants.{GETGLOBALSCOPE, NEWACTIVATION};

use crate::new_here::body_here;
use abc_file_types::op;
use abc_frames::push;
use abc_link::Linked;
use abc_run_calls::global_of;
use abc_run_state::{State, Stop, new_activation};

/// `newactivation`, of the method that runs.
fn make_activation(linked: &Linked, s: &mut State) -> Result<(), Stop>
    ghost out: { Outer }
    requires { CanRun linked.now out s.old (Plain NEWACTIVATION) }
    ensures { RunsHere linked.now out (Plain NEWACTIVATION) s.old result s.new }
{
    let body = body_here(linked, s);
    new_activation(linked, s, body)
}

/// `getglobalscope`: the global object of the script in which the method was made.
fn push_global(linked: &Linked, s: &mut State) -> Result<(), Stop>
    ghost out: { Outer }
    requires { CanRun linked.now out s.old (Plain GETGLOBALSCOPE) }
    ensures { RunsHere linked.now out (Plain GETGLOBALSCOPE) s.old result s.new }
{
    let home = s.frames.home();
    let global = global_of(linked, s, home);
    push(&mut s.frames, global);
    Ok(())
}

/// The activation, and the global object.
pub fn run_scope(linked: &Linked, s: &mut State, op: u8) -> Result<(), Stop>
    ghost out: { Outer }
    requires run { CanRun linked.now out s.old (Plain op) }
    requires among { is_in op scope_ops ≡ true }
    ensures { RunsHere linked.now out (Plain op) s.old result s.new }
{
    match op {
        op::NEWACTIVATION => make_activation(linked, s),
        op::GETGLOBALSCOPE => push_global(linked, s),
        _ => unreachable!(),
    }
}
