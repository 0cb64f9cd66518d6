ghost use Rattle.std.specs.Prelude.{◌≡◌};
ghost use Rattle.abc_run_values.specs.Here.{RunsHere};
ghost use Rattle.abc_run_values.specs.Ready.{CanRun};
ghost use Rattle.abc_run_state.specs.Outer.{Outer};
ghost use Rattle.abc_file_types.specs.declared.code.Instr.TheVariants.{Two};
ghost use Rattle.abc_file_types.specs.declared.op.TheConstants.{HASNEXT2};

use abc_link::Linked;
use abc_run_names::walk_on;
use abc_run_state::{State, Stop};

/// `hasnext2`: two locals walk on.
pub fn run_next(linked: &Linked, s: &mut State, holder: u32, position: u32) -> Result<(), Stop>
    ghost out: { Outer }
    requires { CanRun linked.now out s.old (Two HASNEXT2 holder position) }
    ensures { RunsHere linked.now out (Two HASNEXT2 holder position) s.old result s.new }
{
    walk_on(linked, s, holder, position)
}
