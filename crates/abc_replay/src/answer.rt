ghost use Rattle.std.specs.Prelude.{◌≡◌, ◌≤◌, ◌⊎◌, [], Err, IfErr, IfOk};
ghost use Rattle.std.specs.Io.KnownBytes.{Consumes, IsAtEnd};
ghost use Rattle.abc_base.specs.Faults.{Rose};
ghost use Rattle.abc_log.specs.declared.compare.Verdict.TheVariants as verdicts;
ghost use Rattle.abc_file.specs.Reading.{IsUsedUp, OfInput};
ghost use Rattle.abc_log.specs.Checks.{IsLogFault};
ghost use Rattle.abc_log.specs.declared.check.LogFault.{LogFault};
ghost use Rattle.abc_replay.specs.Prefaces.{AnswersLog, TakesLog, error_of_log};
ghost use Rattle.abc_replay.specs.Replays.{IsLogRefusedBy, IsReplayed};
ghost use Rattle.abc_replay.specs.declared.error.ReplayError.{ReplayError};

use crate::error::ReplayError;
use crate::reading::{Preface, error_at, read_preface};
use crate::run::compare_log;
use abc_base::{Host, Source};
use abc_log::{Verdict, check_verdict};
use abc_log_blocks::{BlockSource, SourceLoan};
use std::alloc::Global;
use std::marker::Brand;

/// How many steps a log has whose comparison gave this, or why it is none, where it begins at this place.
fn judge<S: Source>(
    source: &mut S,
    place: u64,
    steps: u64,
    verdict: Verdict,
    agreed: u64,
) -> Result<u64, ReplayError>
    ensures steps { IfOk result (λ n. n ≡ steps) }
    ensures end { IfOk result (λ _. (verdict ≡ verdicts.Same)
        × Consumes (S.left source.old) (S.left source.new) [] × IsAtEnd (S.left source.new)) }
    ensures fault { IfErr result
        (λ e. (f : LogFault) × (e ≡ error_of_log place f) × IsLogFault verdict (S.left source.old) agreed f) }
    ensures later { S.faults source.old ≤ S.faults source.new }
    ensures cause { result ≡ Err ReplayError.ReadFault
        → (verdict ≡ verdicts.ReadFault) ⊎ Rose (S.faults source.old) (S.faults source.new) }
{
    match check_verdict(source, verdict, agreed) {
        Ok(()) => Ok(steps),
        Err(fault) => Err(error_at(place, fault)),
    }
}

/// How many steps the log has with which a source goes on behind what stands before a log, or why it is none.
fn check_log<S: Source, H: Host>(
    alloc: Global,
    preface: Preface,
    source: &mut S,
    host: &H,
) -> Result<u64, ReplayError>
    ensures answers { AnswersLog (H.formulas host.now) (S.left source.old) preface.verified preface.line
        preface.place (S.left source.new) result }
    ensures later { S.faults source.old ≤ S.faults source.new }
    ensures cause { result ≡ Err ReplayError.ReadFault → Rose (S.faults source.old) (S.faults source.new) }
{
    let Preface {
        verified,
        line,
        place,
    } = preface;
    let compared = compare_log(alloc, verified, &line, source, host);
    let steps = compared.steps?;
    judge(source, place, steps, compared.verdict, compared.agreed)
}

/// The same of a source that is lent and given back, which is taken a block ahead.
fn check_ahead<'a, S: Source, H: Host, N: SourceLoan>(
    alloc: Global,
    preface: Preface,
    source: &'a mut S,
    host: &H,
) -> (&'a mut S, Result<u64, ReplayError>)
    requires { source.ghost_name ≡ N.name }
    ensures answers { AnswersLog (H.formulas host.now) (S.left source.old) preface.verified preface.line
        preface.place (S.left result.0.now) result.1 }
    ensures later { S.faults source.old ≤ S.faults result.0.now }
    ensures cause { result.1 ≡ Err ReplayError.ReadFault
        → Rose (S.faults source.old) (S.faults result.0.now) }
    ensures same { result.0.ghost_name ≡ source.entry.ghost_name }
{
    let mut ahead = BlockSource::<S, N>::new(source);
    let answer = check_log(alloc, preface, &mut ahead, host);
    (ahead.into_inner(), answer)
}

/// The same of a source that is read by blocks.
fn check_in_blocks<S: Source, H: Host>(
    alloc: Global,
    preface: Preface,
    source: &mut S,
    host: &H,
) -> Result<u64, ReplayError>
    ensures answers { AnswersLog (H.formulas host.now) (S.left source.old) preface.verified preface.line
        preface.place (S.left source.new) result }
    ensures later { S.faults source.old ≤ S.faults source.new }
    ensures cause { result ≡ Err ReplayError.ReadFault → Rose (S.faults source.old) (S.faults source.new) }
{
    let checked = check_ahead::<S, H, Brand>(alloc, preface, source, host);
    checked.1
}

/// Replays a log: the number of its steps, where the input is the line that states the length of a file, the bytes of that,
/// which is verified, a line of limits and the log of the run within them beside this host, and nothing else. Otherwise it says why
/// the input is none, in its order. `ReadFault` comes only where the source's count of faults rose; want of memory is free. Behind the
/// line of limits at most 4,096 bytes are taken ahead of what is looked at. No memory is taken once the run has begun.
pub fn replay<S: Source, H: Host>(
    alloc: Global,
    source: &mut S,
    host: &H,
) -> Result<u64, ReplayError>
    ensures replayed { IfOk result
        (λ n. OfInput (S.left source.old) (λ input. IsReplayed (H.formulas host.now) input n)) }
    ensures end { IfOk result (λ _. IsUsedUp (S.left source.old) (S.left source.new)) }
    ensures refused { IfErr result
        (λ e. OfInput (S.left source.old) (λ input. IsLogRefusedBy (H.formulas host.now) input e)) }
    ensures taken { TakesLog (S.left source.old) (S.left source.new) }
    ensures later { S.faults source.old ≤ S.faults source.new }
    ensures cause { result ≡ Err ReplayError.ReadFault → Rose (S.faults source.old) (S.faults source.new) }
{
    let preface = read_preface(alloc, source)?;
    check_in_blocks(alloc, preface, source, host)
}
