ghost use Rattle.std.specs.Prelude.{◌≡◌, ◌<◌, Err, Ok, length};
ghost use Rattle.abc_run_calls.specs.Calls.{CanFinish};
ghost use Rattle.abc_heap_values.specs.declared.values.Value.{Value};
ghost use Rattle.abc_run_calls.specs.Arguments.{HasArgumentRoom};
ghost use Rattle.abc_run_finish.specs.Steps.{LeavesStep};
ghost use Rattle.abc_run_finish.specs.Fairly.{IsFairTurn};
ghost use Rattle.abc_run_finish.specs.declared.halts.Halt.TheVariants.{Returns};
ghost use Rattle.abc_machine.specs.Logging.{LogsLeft, if_written as answer_if_written};
ghost use Rattle.abc_run_state.specs.Outer.{Outer, setting_in, world};
ghost use Rattle.abc_run_state.specs.Turns.{turn_of_answer};

use abc_base::{Failed, Host, Sink};
use abc_link::Linked;
use abc_log::OutLine;
use abc_run_finish::{Halt, finish};
use abc_run_state::{Left, State, Stop};

/// What a step answers whose last line is to be written.
pub(crate) fn if_written(line: Result<(), Failed>, done: Result<(), Halt>) -> Result<(), Halt>
    ensures { result ≡ answer_if_written line done }
{
    match line {
        Ok(()) => done,
        Err(Failed) => Err(Halt::Fails),
    }
}

/// What an instruction leaves to be done, as `finish` does it, with its output as a line of a log that is lent and given back.
fn finish_lent<'a, K: Sink, H: Host>(
    linked: &Linked,
    s: &mut State,
    log: &'a mut K,
    host: &H,
    left: Result<Left, Stop>,
) -> (&'a mut K, Result<(), Halt>)
    ghost out: { Outer }
    requires known { HasArgumentRoom linked.now s.old.given.limit }
    requires scripts { 0 < length linked.now.file.scripts }
    requires host { out.formulas ≡ H.formulas host.now }
    requires left { CanFinish linked.now left s.old }
    requires fair { IsFairTurn (setting_in linked.now out)
        (turn_of_answer (setting_in linked.now out) left (world s.old out) s.old.frames) }
    ensures logs { LogsLeft linked.now out s.old left result.1 s.new (K.written log.old)
        (K.written result.0.now) }
    ensures value { (v : Value) → result.1 ≡ Err (Returns v) → left ≡ Ok (Left.Returns v) }
    ensures leaves { LeavesStep (setting_in linked.now out) result.1 s.old s.new (K.faults log.old)
        (K.faults result.0.now) }
    ensures same { result.0.ghost_name ≡ log.entry.ghost_name }
{
    let mut line = OutLine::new(log);
    let done = finish(linked, s, &mut line, host, left);
    let (back, written) = line.end();
    (back, if_written(written, done))
}

/// What an instruction leaves to be done, as `finish` does it, with its output as a line of the log. It answers `Fails` where the log
/// failed, after a front of the line; then nothing is told of the state.
pub(crate) fn finish_logged<K: Sink, H: Host>(
    linked: &Linked,
    s: &mut State,
    log: &mut K,
    host: &H,
    left: Result<Left, Stop>,
) -> Result<(), Halt>
    ghost out: { Outer }
    requires known { HasArgumentRoom linked.now s.old.given.limit }
    requires scripts { 0 < length linked.now.file.scripts }
    requires host { out.formulas ≡ H.formulas host.now }
    requires left { CanFinish linked.now left s.old }
    requires fair { IsFairTurn (setting_in linked.now out)
        (turn_of_answer (setting_in linked.now out) left (world s.old out) s.old.frames) }
    ensures logs { LogsLeft linked.now out s.old left result s.new (K.written log.old) (K.written log.new) }
    ensures value { (v : Value) → result ≡ Err (Returns v) → left ≡ Ok (Left.Returns v) }
    ensures leaves { LeavesStep (setting_in linked.now out) result s.old s.new (K.faults log.old)
        (K.faults log.new) }
{
    let lent = finish_lent(linked, s, log, host, left);
    lent.1
}
