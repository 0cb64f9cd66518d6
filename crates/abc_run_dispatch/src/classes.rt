ghost use Rattle.abc_run_calls.specs.Arguments.{HasArgumentRoom};
ghost use Rattle.abc_run_values.specs.Here.{RunsHere};
ghost use Rattle.abc_run_values.specs.Ready.{CanRun};
ghost use Rattle.abc_run_state.specs.Outer.{Outer};
ghost use Rattle.abc_file_types.specs.declared.code.Instr.TheVariants.{One};
ghost use Rattle.abc_file_types.specs.declared.op.TheConstants.{NEWCLASS};

use abc_link::Linked;
use abc_run_members::new_class;
use abc_run_state::{State, Stop};

/// `newclass`.
pub fn run_class(linked: &Linked, s: &mut State, n: u32) -> Result<(), Stop>
    ghost out: { Outer }
    requires run { CanRun linked.now out s.old (One NEWCLASS n) }
    requires known { HasArgumentRoom linked.now s.old.given.limit }
    ensures { RunsHere linked.now out (One NEWCLASS n) s.old result s.new }
{
    new_class(linked, s, n)
}
