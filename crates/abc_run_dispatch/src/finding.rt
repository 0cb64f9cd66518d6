ghost use Rattle.std.specs.Prelude.{◌≡◌, true, length};
ghost use Rattle.abc_run_calls.specs.Arguments.{HasArgumentRoom};
ghost use Rattle.abc_run_values.specs.Here.{RunsHere};
ghost use Rattle.abc_run_values.specs.Ready.{CanRun};
ghost use Rattle.abc_run_state.specs.Outer.{Outer};
ghost use Rattle.abc_file_types.specs.Opcodes.{is_in};
ghost use Rattle.abc_file_types.specs.declared.code.Instr.TheVariants.{One};
ghost use Rattle.abc_run_dispatch.specs.ScopeGroups.{find_ops};

use abc_file_types::op;
use abc_link::Linked;
use abc_run_members::{find_or_global, find_strictly, get_lexical};
use abc_run_state::{State, Stop};

/// What finds a name among the scopes.
pub fn run_find(linked: &Linked, s: &mut State, op: u8, n: u32) -> Result<(), Stop>
    ghost out: { Outer }
    requires run { CanRun linked.now out s.old (One op n) }
    requires known { HasArgumentRoom linked.now s.old.given.limit }
    requires started { length s.old.started ≡ length linked.now.file.scripts }
    requires among { is_in op find_ops ≡ true }
    ensures { RunsHere linked.now out (One op n) s.old result s.new }
{
    match op {
        op::FINDPROPSTRICT => find_strictly(linked, s, n),
        op::FINDPROPERTY => find_or_global(linked, s, n),
        op::GETLEX => get_lexical(linked, s, n),
        _ => unreachable!(),
    }
}
