ghost use Rattle.std.specs.Prelude.{◌≡◌};
ghost use Rattle.abc_run_values.specs.Here.{RunsHere};
ghost use Rattle.abc_run_values.specs.Ready.{CanRun};
ghost use Rattle.abc_run_state.specs.Outer.{Outer};
ghost use Rattle.abc_file_types.specs.declared.code.Instr.TheVariants.{One};
ghost use Rattle.abc_file_types.specs.declared.op.TheConstants.{DELETEPROPERTY};

use abc_link::Linked;
use abc_run_names::delete_property;
use abc_run_state::{State, Stop};

/// `deleteproperty`, by the name of that number.
pub fn run_delete(linked: &Linked, s: &mut State, n: u32) -> Result<(), Stop>
    ghost out: { Outer }
    requires { CanRun linked.now out s.old (One DELETEPROPERTY n) }
    ensures { RunsHere linked.now out (One DELETEPROPERTY n) s.old result s.new }
{
    delete_property(linked, s, n)
}
