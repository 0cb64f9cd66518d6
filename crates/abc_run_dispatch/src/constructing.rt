ghost use Rattle.std.specs.Prelude.{◌≡◌};
ghost use Rattle.abc_run_calls.specs.Arguments.{HasArgumentRoom};
ghost use Rattle.abc_run_values.specs.Here.{RunsHere};
ghost use Rattle.abc_run_values.specs.Ready.{CanRun};
ghost use Rattle.abc_run_state.specs.Outer.{Outer};
ghost use Rattle.abc_file_types.specs.declared.code.Instr.TheVariants.{One, Two};
ghost use Rattle.abc_file_types.specs.declared.op.TheConstants.{CONSTRUCT, CONSTRUCTPROP};

use abc_link::Linked;
use abc_run_members::{construct, construct_property};
use abc_run_state::{State, Stop};

/// `construct`, with so many arguments.
pub fn run_construct(linked: &Linked, s: &mut State, count: u32) -> Result<(), Stop>
    ghost out: { Outer }
    requires run { CanRun linked.now out s.old (One CONSTRUCT count) }
    requires known { HasArgumentRoom linked.now s.old.given.limit }
    ensures { RunsHere linked.now out (One CONSTRUCT count) s.old result s.new }
{
    construct(linked, s, count)
}

/// `constructprop`, with so many arguments.
pub fn run_construct_property(
    linked: &Linked,
    s: &mut State,
    n: u32,
    count: u32,
) -> Result<(), Stop>
    ghost out: { Outer }
    requires run { CanRun linked.now out s.old (Two CONSTRUCTPROP n count) }
    requires known { HasArgumentRoom linked.now s.old.given.limit }
    ensures { RunsHere linked.now out (Two CONSTRUCTPROP n count) s.old result s.new }
{
    construct_property(linked, s, n, count)
}
