ghost use Rattle.std.specs.Prelude.{◌≡◌, ◌≢◌, ◌<◌, ◌-◌, ◌^◌, [], Err, length};
ghost use Rattle.abc_base.specs.Faults.{HasCause};
ghost use Rattle.abc_base.specs.Sinks.{WritesAll};
ghost use Rattle.abc_meaning.specs.Calls.{value_at_end};
ghost use Rattle.abc_heap_values.specs.declared.values.Value.{Value};
ghost use Rattle.abc_run_finish.specs.Steps.{IsReached, LeavesStep};
ghost use Rattle.abc_run_finish.specs.declared.halts.Halt.TheVariants.{Fails, Returns};
ghost use Rattle.abc_machine.specs.Logging.{LogsAs, line_at};
ghost use Rattle.abc_meaning.specs.Throwing.{last_script};
ghost use Rattle.abc_run_state.specs.Outer.{Outer, setting_in, world};

use crate::left::{finish_logged, if_written};
use abc_base::{Failed, Host, Sink};
use abc_link::Linked;
use abc_log::{Seen, write_start_line, write_step_line};
use abc_run_dispatch::run_newest;
use abc_run_finish::{Halt, start_last};
use abc_run_state::{Left, State};

/// Writes the line of an instruction, by its method and its place, or of the script that it starts.
fn write_line<K: Sink>(
    log: &mut K,
    script: Option<u32>,
    method: u32,
    place: u32,
) -> Result<(), Failed>
    ensures bytes { WritesAll (K.written log.old) (K.written log.new) result (line_at script method place) }
    ensures cause { HasCause (K.faults log.old) (K.faults log.new) result }
{
    match script {
        Some(script) => write_start_line(log, script),
        None => write_step_line(log, method, place),
    }
}

/// The number of the last script.
fn last_number(linked: &Linked) -> u32
    requires scripts { 0 < length linked.now.file.scripts }
    requires few { length linked.now.file.scripts < 2 ^ 32 }
    ensures { (out : Outer) → result ≡ last_script (setting_in linked.now out) }
{
    let scripts = linked.abc().scripts.len();
    scripts as u32 - 1
}

/// The step that begins a run: the last script is started.
fn start_logged<K: Sink>(
    linked: &Linked,
    s: &mut State,
    seen: &mut Seen,
    log: &mut K,
) -> Result<(), Halt>
    ghost out: { Outer }
    requires reached { IsReached linked.now out s.old }
    requires none { s.old.frames.living ≡ [] }
    requires seen { seen.old ≡ s.old.started }
    ensures logs { LogsAs linked.now out s.old result s.new (K.written log.old) (K.written log.new) }
    ensures none { (v : Value) → result ≢ Err (Returns v) }
    ensures seen { result ≢ Err Fails → seen.new ≡ s.new.started }
    ensures leaves { LeavesStep (setting_in linked.now out) result s.old s.new (K.faults log.old)
        (K.faults log.new) }
{
    let done = start_last(linked, s);
    let _script = seen.note(&s.started);
    let written = write_start_line(log, last_number(linked));
    if_written(written, done)
}

/// The instruction of the newest frame, and what it leaves to be done.
fn run_logged<K: Sink, H: Host>(
    linked: &Linked,
    s: &mut State,
    seen: &mut Seen,
    log: &mut K,
    host: &H,
) -> Result<(), Halt>
    ghost out: { Outer }
    requires reached { IsReached linked.now out s.old }
    requires live { 0 < length s.old.frames.living }
    requires host { out.formulas ≡ H.formulas host.now }
    requires seen { seen.old ≡ s.old.started }
    ensures logs { LogsAs linked.now out s.old result s.new (K.written log.old) (K.written log.new) }
    ensures value { (v : Value) → result ≡ Err (Returns v)
        → value_at_end (setting_in linked.now out) (world s.old out) s.old.frames.living ≡ v }
    ensures seen { result ≢ Err Fails → seen.new ≡ s.new.started }
    ensures leaves { LeavesStep (setting_in linked.now out) result s.old s.new (K.faults log.old)
        (K.faults log.new) }
{
    let method = s.frames.method();
    let place = s.frames.place();
    let mut left = Ok(Left::Goes);
    run_newest(linked, s, &mut left);
    let script = seen.note(&s.started);
    match write_line(log, script, method, place) {
        Ok(()) => finish_logged(linked, s, log, host, left),
        Err(Failed) => Err(Halt::Fails),
    }
}

/// One step, as `step` takes it, with its lines written to a log: `start S` where a script is started, else `M I` for an instruction
/// of a method; then, where the step writes bytes, a line `out` with these. It answers `Fails` where the log failed, after a front of
/// the lines; then nothing is told of the state. What is seen of the scripts is which had been started before the step, and then
/// which are started after it.
pub fn step_logged<K: Sink, H: Host>(
    linked: &Linked,
    s: &mut State,
    seen: &mut Seen,
    log: &mut K,
    host: &H,
) -> Result<(), Halt>
    ghost out: { Outer }
    requires reached { IsReached linked.now out s.old }
    requires host { out.formulas ≡ H.formulas host.now }
    requires seen { seen.old ≡ s.old.started }
    ensures logs { LogsAs linked.now out s.old result s.new (K.written log.old) (K.written log.new) }
    ensures value { (v : Value) → result ≡ Err (Returns v)
        → value_at_end (setting_in linked.now out) (world s.old out) s.old.frames.living ≡ v }
    ensures seen { result ≢ Err Fails → seen.new ≡ s.new.started }
    ensures leaves { LeavesStep (setting_in linked.now out) result s.old s.new (K.faults log.old)
        (K.faults log.new) }
{
    if s.frames.depth() == 0 {
        return start_logged(linked, s, seen, log);
    }
    run_logged(linked, s, seen, log, host)
}
