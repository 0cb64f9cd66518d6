ghost use Rattle.std.specs.Prelude.{◌≡◌, ◌≢◌, ◌<◌, Err, Ok, length};
ghost use Rattle.abc_run_calls.specs.Calls.{CanFinish, Finishes};
ghost use Rattle.abc_heap_values.specs.declared.values.Value.{Value};
ghost use Rattle.abc_run_finish.specs.Ending.{IsSized, stepped_by};
ghost use Rattle.abc_run_calls.specs.Arguments.{HasArgumentRoom};
ghost use Rattle.abc_run_state.specs.Outer.{Outer, setting_in, world};
ghost use Rattle.abc_run_state.specs.Turns.{turn_of_answer, turn_of_formula, turn_of_trace};
ghost use Rattle.abc_run_finish.specs.Fairly.{IsFairTurn};
ghost use Rattle.abc_run_finish.specs.Steps.{LeavesStep, StepsIn, left_here, step_of_turn};
ghost use Rattle.abc_run_finish.specs.declared.halts.Halt.TheVariants.{Returns};

use crate::asking::ask;
use crate::ended::Ended;
use crate::halts::{Halt, halted};
use crate::outward_halts::Unwritten;
use crate::returning::give_back;
use crate::stopping::stopped;
use crate::tracing::trace;
use abc_base::{Host, Sink};
use abc_link::Linked;
use abc_run_state::{How, Left, State, Stop};

/// A line is made and written.
fn write<K: Sink>(
    linked: &Linked,
    s: &mut State,
    sink: &mut K,
    count: u32,
    how: How,
) -> Result<(), Halt>
    ghost out: { Outer }
    requires scripts { 0 < length linked.now.file.scripts }
    requires finishes { Finishes linked.now count how s.old }
    requires fair { IsFairTurn (setting_in linked.now out)
        (turn_of_trace (setting_in linked.now out) count how (world s.old out) s.old.frames) }
    ensures step { StepsIn (step_of_turn (setting_in linked.now out)
        (turn_of_trace (setting_in linked.now out) count how (world s.old out) s.old.frames)) out result
        s.new (K.written sink.old) (K.written sink.new) }
    ensures none { (v : Value) → result ≢ Err (Returns v) }
    ensures leaves { LeavesStep (setting_in linked.now out) result s.old s.new (K.faults sink.old)
        (K.faults sink.new) }
{
    match trace(linked, s, sink, count, how) {
        Ok(()) => Ok(()),
        Err(Unwritten::Stops(stop)) => halted(stopped(linked, s, stop)),
        Err(Unwritten::Fails) => Err(Halt::Fails),
    }
}

/// A formula of the host is asked.
fn consult<H: Host>(
    linked: &Linked,
    s: &mut State,
    host: &H,
    formula: u32,
    count: u32,
    how: How,
) -> Result<(), Ended>
    ghost out: { Outer }
    requires scripts { 0 < length linked.now.file.scripts }
    requires host { out.formulas ≡ H.formulas host.now }
    requires finishes { Finishes linked.now count how s.old }
    requires fair { IsFairTurn (setting_in linked.now out)
        (turn_of_formula (setting_in linked.now out) formula count how (world s.old out) s.old.frames) }
    ensures step { step_of_turn (setting_in linked.now out)
        (turn_of_formula (setting_in linked.now out) formula count how (world s.old out) s.old.frames)
        ≡ stepped_by result (world s.new out) s.new.frames }
    ensures sized { IsSized (setting_in linked.now out) s.new.arena.limits s.new.frames }
    ensures limit { s.new.given.limit ≡ s.old.given.limit }
{
    match ask(linked, s, host, formula, count, how) {
        Ok(()) => Ok(()),
        Err(stop) => stopped(linked, s, stop),
    }
}

/// What an instruction leaves to be done: what returns is given back, a line is written, a formula asked, and a throw caught. It
/// answers how the run ends, if it does, with what returned where the last frame did, and `Fails` where the sink failed, after a
/// front of the line; then of the state its heap alone is told.
#[inline(always)]
pub fn finish<K: Sink, H: Host>(
    linked: &Linked,
    s: &mut State,
    sink: &mut K,
    host: &H,
    left: Result<Left, Stop>,
) -> Result<(), Halt>
    ghost out: { Outer }
    requires known { HasArgumentRoom linked.now s.old.given.limit }
    requires scripts { 0 < length linked.now.file.scripts }
    requires host { out.formulas ≡ H.formulas host.now }
    requires left { CanFinish linked.now left s.old }
    requires fair { IsFairTurn (setting_in linked.now out)
        (turn_of_answer (setting_in linked.now out) left (world s.old out) s.old.frames) }
    ensures step { StepsIn (left_here linked.now out s.old left) out result s.new (K.written sink.old)
        (K.written sink.new) }
    ensures value { (v : Value) → result ≡ Err (Returns v) → left ≡ Ok (Left.Returns v) }
    ensures leaves { LeavesStep (setting_in linked.now out) result s.old s.new (K.faults sink.old)
        (K.faults sink.new) }
{
    match left {
        Ok(Left::Goes) => Ok(()),
        Ok(Left::Returns(v)) => give_back(linked, s, v),
        Ok(Left::Traces { count, how }) => write(linked, s, sink, count, how),
        Ok(
            Left::Asks {
                formula,
                count,
                how,
            },
        ) => halted(consult(linked, s, host, formula, count, how)),
        Err(stop) => halted(stopped(linked, s, stop)),
    }
}
