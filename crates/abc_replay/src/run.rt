ghost use Rattle.std.specs.Prelude.{◌≡◌, ◌≤◌, None, IfOk, OnErr};
ghost use Rattle.abc_meaning.specs.Logs.{log as log_of, steps as steps_of};
ghost use Rattle.abc_log.specs.Lines.{limit_end};
ghost use Rattle.abc_log.specs.Checks.{IsCompared, IsWritten};
ghost use Rattle.abc_meaning.specs.Openings.{setting};
ghost use Rattle.abc_objects.specs.Opening.{formula_names};

use abc_base::{Host, NoMemory, Sink, Source, release};
use abc_heap_store::Limit;
use abc_log::{Lenient, LimitsLine, Verdict, write_limit_end};
use abc_machine::Machine;
use abc_meaning::too_small_is_one_line;
use abc_objects::OpenError;
use abc_verify::Verified;
use std::alloc::Global;

/// Runs an opened machine, whose log is written: how many steps it took. Where the sink failed, the number says nothing.
fn log_run<K: Sink, H: Host>(machine: &mut Machine, fuel: u32, log: &mut K, host: &H) -> u64
    requires begun { machine.old.ended ≡ None }
    requires names { formula_names (H.formulas host.now) ≡ machine.old.names }
    ensures { IsWritten (log_of (setting machine.old.linked (H.formulas host.now)) machine.old.limits fuel)
        (steps_of (setting machine.old.linked (H.formulas host.now)) machine.old.limits fuel) result
        (K.written log.old) (K.written log.new) (K.faults log.old) (K.faults log.new) }
{
    machine.run_logged(fuel, log, host);
    u64::from(machine.steps())
}

/// The same of a machine that goes then.
fn log_machine<K: Sink, H: Host>(machine: Machine, fuel: u32, log: &mut K, host: &H) -> u64
    requires begun { machine.ended ≡ None }
    requires names { formula_names (H.formulas host.now) ≡ machine.names }
    ensures { IsWritten (log_of (setting machine.linked (H.formulas host.now)) machine.limits fuel)
        (steps_of (setting machine.linked (H.formulas host.now)) machine.limits fuel) result
        (K.written log.old) (K.written log.new) (K.faults log.old) (K.faults log.new) }
{
    let mut machine = machine;
    let count = log_run(&mut machine, fuel, log, host);
    release(machine);
    count
}

/// Writes the log of a run that isn't begun: its one line. There is no step.
fn log_unbegun<K: Sink>(log: &mut K, limit: Limit) -> u64
    ensures { IsWritten (limit_end limit) 0 result (K.written log.old) (K.written log.new) (K.faults log.old)
        (K.faults log.new) }
{
    let _ = write_limit_end(log, limit);
    0
}

/// Writes the log of the run of a file, or its one line where a limit is below what every run begins with: how many steps there are.
fn write_log<K: Sink, H: Host>(
    alloc: Global,
    verified: Verified,
    line: &LimitsLine,
    log: &mut K,
    host: &H,
) -> Result<u64, NoMemory>
    ensures written { IfOk result (λ n. IsWritten
        (log_of (setting verified (H.formulas host.now)) (line.now).limits (line.now).fuel)
        (steps_of (setting verified (H.formulas host.now)) (line.now).limits (line.now).fuel) n
        (K.written log.old) (K.written log.new) (K.faults log.old) (K.faults log.new)) }
    ensures none { OnErr result (log.new ≡ log.old) }
{
    too_small_is_one_line();
    match Machine::open(alloc, verified, &line.limits, host) {
        Ok(machine) => Ok(log_machine(machine, line.fuel, log, host)),
        Err(OpenError::TooSmall(limit)) => Ok(log_unbegun(log, limit)),
        Err(OpenError::NoMemory) => Err(NoMemory),
    }
}

/// What a comparison of a log came to: how many steps it has, where there was memory for the run, the verdict, and how many bytes agreed.
#[derive(Clone, Copy, Debug)]
pub(crate) struct Compared {
    pub steps: Result<u64, NoMemory>,
    pub verdict: Verdict,
    pub agreed: u64,
}

/// Compares the log of the run of a file with what a source gives that is lent and given back.
fn compare_lent<'a, S: Source, H: Host>(
    alloc: Global,
    verified: Verified,
    line: &LimitsLine,
    source: &'a mut S,
    host: &H,
) -> (&'a mut S, Compared)
    ensures compared { IfOk result.1.steps (λ n. IsCompared
        (log_of (setting verified (H.formulas host.now)) (line.now).limits (line.now).fuel)
        (steps_of (setting verified (H.formulas host.now)) (line.now).limits (line.now).fuel) n
        (S.left source.old) (S.faults source.old) (S.left result.0.now) (S.faults result.0.now)
        result.1.agreed result.1.verdict) }
    ensures later { S.faults source.old ≤ S.faults result.0.now }
    ensures same { result.0.ghost_name ≡ source.entry.ghost_name }
{
    let mut compare = Lenient::new(source);
    let steps = write_log(alloc, verified, line, &mut compare, host);
    let verdict = compare.verdict();
    let agreed = compare.agreed();
    (
        compare.into_inner(),
        Compared {
            steps,
            verdict,
            agreed,
        },
    )
}

/// Compares the log of the run of a file with what the source gives, while that is read.
pub(crate) fn compare_log<S: Source, H: Host>(
    alloc: Global,
    verified: Verified,
    line: &LimitsLine,
    source: &mut S,
    host: &H,
) -> Compared
    ensures compared { IfOk result.steps (λ n. IsCompared
        (log_of (setting verified (H.formulas host.now)) (line.now).limits (line.now).fuel)
        (steps_of (setting verified (H.formulas host.now)) (line.now).limits (line.now).fuel) n
        (S.left source.old) (S.faults source.old) (S.left source.new) (S.faults source.new) result.agreed
        result.verdict) }
    ensures later { S.faults source.old ≤ S.faults source.new }
{
    let lent = compare_lent(alloc, verified, line, source, host);
    lent.1
}
