ghost use Rattle.std.specs.Prelude.{◌∷◌, ◌++◌, []};
ghost use Rattle.abc_base.specs.Faults.{HasCause};
ghost use Rattle.abc_base.specs.Sinks.{WritesAll};
ghost use Rattle.abc_cli_answers.specs.Answers.{On, line_answer};
ghost use Rattle.abc_cli_answers.specs.End.{Ends, GivesBytes, GivesLine, UsesUp, stream};
ghost use Rattle.abc_cli.specs.Logs.{Replay, replayed_line, unreplayed_answer, unreplayed_text};
ghost use Rattle.abc_replay.specs.Prefaces.{TakesLog};
ghost use Rattle.abc_replay.specs.declared.error.ReplayError.{ReplayError};

use abc_base::{Failed, Host, Sink, Source, Status, write_all};
use abc_cli_answers::{Stop, ended, give_line, give_stop, write_place};
use abc_replay::{ReplayError, ReplayReason};
use itoa::Buffer;
use std::alloc::Global;

/// Writes a line of a word, its blank, and a number, which is given by its digits.
#[tactic(auto, using(abc_base::proofs::Writing::writing))]
fn write_numbered<K: Sink>(out: &mut K, word: &[u8], digits: &[u8]) -> Result<(), Failed>
    ensures bytes { WritesAll (K.written out.old) (K.written out.new) result
        (word.now ++ digits.now ++ 10 ∷ []) }
    ensures cause { HasCause (K.faults out.old) (K.faults out.new) result }
{
    write_all(out, word)?;
    write_all(out, digits)?;
    write_all(out, b"\n")
}

/// Writes the line of a log that is the log of its file.
#[tactic(auto, unfolding(crate::specs::Logs::replayed_line))]
fn write_replayed<K: Sink>(out: &mut K, steps: u64) -> Result<(), Failed>
    ensures bytes { WritesAll (K.written out.old) (K.written out.new) result (replayed_line steps) }
    ensures cause { HasCause (K.faults out.old) (K.faults out.new) result }
{
    let mut buffer = Buffer::new();
    let digits = buffer.format(steps).as_bytes();
    write_numbered(out, b"replayed ", digits)
}

/// Gives the number of steps of a log, or where that can't be written the line that says so. It takes no memory.
#[tactic(auto, unfolding(abc_cli_answers::specs::Lines::write_fault_text))]
fn give_replayed<K: Sink, E: Sink>(steps: u64, out: &mut K, err: &mut E) -> Status
    ensures { GivesBytes (stream K.written K.faults out.old out.new)
        (stream E.written E.faults err.old err.new) (replayed_line steps) result }
{
    match write_replayed(out, steps) {
        Ok(()) => Status::Done,
        Err(Failed) => give_line(err, Status::WriteFault, b"write fault"),
    }
}

/// Writes the line of a place of the input, and of what is wrong there.
#[tactic(auto, using(abc_cli_answers::proofs::Ending::gives))]
fn give_refused<E: Sink>(err: &mut E, place: u64, reason: ReplayReason) -> Status
    ensures { GivesLine (stream E.written E.faults err.old err.new)
        (line_answer Status.Refused (unreplayed_text (ReplayError.Refused place reason))) result }
{
    let written = write_place(err, b"byte", place, reason.name());
    ended(written, Status::Refused)
}

/// Writes the line that says why an input is no log.
fn give_unreplayed<E: Sink>(err: &mut E, e: ReplayError) -> Status
    ensures { GivesLine (stream E.written E.faults err.old err.new) (unreplayed_answer e) result }
{
    match e {
        ReplayError::Refused { place, reason } => give_refused(err, place, reason),
        ReplayError::Link { rule, item } => give_stop(err, Stop::Item { item, rule }),
        ReplayError::Verify {
            method,
            offset,
            rule,
        } => give_stop(
            err,
            Stop::Code {
                method,
                offset,
                rule,
            },
        ),
        ReplayError::ReadFault => give_stop(err, Stop::ReadFault),
        ReplayError::NoMemory => give_stop(err, Stop::NoMemory),
    }
}

/// Does the command `replay`: the number of steps of the input's log goes to `out`, or the line that says why it is none to `err`.
/// Nothing is asked of memory once the run has begun.
pub fn replay<S: Source, K: Sink, E: Sink, H: Host>(
    alloc: Global,
    source: &mut S,
    out: &mut K,
    err: &mut E,
    host: &H,
) -> Status
    ensures end { Ends (On (Replay (H.formulas host.now))) (stream S.left S.faults source.old source.new)
        (stream K.written K.faults out.old out.new) (stream E.written E.faults err.old err.new) result }
    ensures used_up { UsesUp (stream S.left S.faults source.old source.new) result }
    ensures taken { TakesLog (S.left source.old) (S.left source.new) }
{
    match abc_replay::replay(alloc, source, host) {
        Ok(steps) => give_replayed(steps, out, err),
        Err(e) => give_unreplayed(err, e),
    }
}
