ghost use Rattle.std.specs.Prelude.{◌≡◌, true};
ghost use Rattle.abc_run_dispatch.specs.NewGroups.{new_ops};
ghost use Rattle.abc_run_values.specs.Here.{RunsHere};
ghost use Rattle.abc_run_values.specs.Ready.{CanRun};
ghost use Rattle.abc_run_state.specs.Outer.{Outer};
ghost use Rattle.abc_file_types.specs.Opcodes.{is_in};
ghost use Rattle.abc_file_types.specs.declared.code.Instr.TheVariants.{One};
ghost use Rattle.abc_file_types.specs.declared.op.TheConstants.{NEWCATCH};

use crate::new_here::body_here;
use abc_file_types::op;
use abc_link::Linked;
use abc_run_state::{State, Stop, new_array, new_catch, new_function, new_object};

/// `newcatch`, for a handler of the method that runs.
fn make_catch(linked: &Linked, s: &mut State, handler: u32) -> Result<(), Stop>
    ghost out: { Outer }
    requires { CanRun linked.now out s.old (One NEWCATCH handler) }
    ensures { RunsHere linked.now out (One NEWCATCH handler) s.old result s.new }
{
    let body = body_here(linked, s);
    new_catch(linked, s, body, handler)
}

/// What makes an object: a function that keeps the scopes of the frame, an object or an array of operands, one for a handler.
pub fn run_new(linked: &Linked, s: &mut State, op: u8, n: u32) -> Result<(), Stop>
    ghost out: { Outer }
    requires run { CanRun linked.now out s.old (One op n) }
    requires among { is_in op new_ops ≡ true }
    ensures { RunsHere linked.now out (One op n) s.old result s.new }
{
    match op {
        op::NEWFUNCTION => new_function(linked, s, n),
        op::NEWOBJECT => new_object(linked, s, n),
        op::NEWARRAY => new_array(linked, s, n),
        op::NEWCATCH => make_catch(linked, s, n),
        _ => unreachable!(),
    }
}
