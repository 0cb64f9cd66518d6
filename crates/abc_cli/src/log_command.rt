ghost use Rattle.std.specs.Prelude.{◌≡◌, ◌≤◌, ◌+◌, ◌++◌, ◌^◌, IfOk, None, length};
ghost use Rattle.abc_base.specs.Taking.{TakesAtMost};
ghost use Rattle.abc_base.specs.Faults.{HasCause};
ghost use Rattle.abc_base.specs.Sinks.{WritesAll};
ghost use Rattle.abc_bodies.specs.Places.{ArePlaces};
ghost use Rattle.abc_cli_answers.specs.Answers.{OfFileRead, On};
ghost use Rattle.abc_cli_answers.specs.End.{GivesAll, HasFailed, IsRunStatus, RunsTo, UsesUp, stream};
ghost use Rattle.abc_cli.specs.Logs.{GivesUnopened, IsLogged, Log, front as front_of_log, whole_log};
ghost use Rattle.abc_cli.specs.Endings.{open_answer};
ghost use Rattle.abc_cli.specs.Logged.{GotLog};
ghost use Rattle.abc_cli.specs.Meant.{limits_of as limits_in};
ghost use Rattle.abc_log.specs.Lines.{AreLimits, limit_end};
ghost use Rattle.abc_meaning.specs.Logs.{log as log_of_run};
ghost use Rattle.abc_meaning.specs.ThrowLaws.{AreCounted, IsVerifiedSetting};
ghost use Rattle.abc_meaning.specs.Meaning.{meaning};
ghost use Rattle.abc_objects.specs.Opening.{formula_names};
ghost use Rattle.abc_file_types.specs.Files.{file_bytes};
ghost use Rattle.abc_meaning.specs.Openings.{setting};
ghost use Rattle.abc_verify.specs.Verified.{IsVerifiedOf};

use crate::endings::{give_end, give_unopened};
use crate::logged_run::run_in_blocks;
use crate::machines::{close_file, close_machine, end_can_be_told, limits_of};
use abc_base::{Failed, Host, NoMemory, Sink, Source, Status, write_all};
use abc_bodies::Places;
use abc_cli_answers::{RunOptions, Stop, give_line, give_stop};
use abc_file::write;
use abc_heap_store::{Limit, Limits};
use abc_log::{write_head_line, write_limit_end, write_limits_line};
use abc_machine::Machine;
use abc_meaning::too_small_is_one_line;
use abc_objects::OpenError;
use abc_replay::one_replay;
use abc_verify::{Verified, read_verified};
use std::alloc::Global;

/// What stands in a log before the steps: the bytes of the file, and the fuel and the limits of the run.
#[derive(Drop)]
struct Front {
    file: Vec<u8>,
    fuel: u32,
    limits: Limits,
}

/// The front of the log of a verified file, with its canonical bytes.
fn front_of(alloc: Global, verified: &Verified, options: &RunOptions) -> Result<Front, NoMemory>
    requires { IsVerifiedOf (verified.now).file verified.now }
    ensures file { IfOk result (λ f. f.file.items ≡ file_bytes (verified.now).file) }
    ensures short { IfOk result (λ f. length f.file.items ≤ 2 ^ 24) }
    ensures fuel { IfOk result (λ f. f.fuel ≡ (options.now).fuel) }
    ensures limits { IfOk result (λ f. f.limits ≡ limits_in options.now) }
    ensures counted { IfOk result (λ f. AreCounted f.limits) }
{
    let mut file = Vec::new(alloc);
    write(alloc, verified.linked().abc(), &mut file)?;
    Ok(Front {
        file,
        fuel: options.fuel,
        limits: limits_of(options),
    })
}

/// Writes what stands before the steps.
#[tactic(auto, using(abc_base::proofs::Writing::writing))]
fn write_front<K: Sink>(out: &mut K, front: &Front) -> Result<(), Failed>
    requires { length (front.now).file.items ≤ 2 ^ 24 }
    ensures bytes { WritesAll (K.written out.old) (K.written out.new) result
        (front_of_log (front.now).file.items (front.now).fuel (front.now).limits) }
    ensures cause { HasCause (K.faults out.old) (K.faults out.new) result }
{
    let file = front.file.as_slice();
    write_head_line(out, file.len() as u32)?;
    write_all(out, file)?;
    write_limits_line(out, front.fuel, &front.limits)
}

/// Writes the log of a run that is not begun, since an opening count passes its limit.
#[tactic(auto, using(abc_base::proofs::Writing::writing))]
fn write_unbegun<K: Sink>(out: &mut K, front: &Front, limit: Limit) -> Result<(), Failed>
    requires { length (front.now).file.items ≤ 2 ^ 24 }
    ensures bytes { WritesAll (K.written out.old) (K.written out.new) result
        (front_of_log (front.now).file.items (front.now).fuel (front.now).limits ++ limit_end limit) }
    ensures cause { HasCause (K.faults out.old) (K.faults out.new) result }
{
    write_front(out, front)?;
    write_limit_end(out, limit)
}

/// Gives the log of a run that is not begun, and writes the line of the limit.
fn log_unbegun<K: Sink, E: Sink>(front: &Front, limit: Limit, out: &mut K, err: &mut E) -> Status
    requires { length (front.now).file.items ≤ 2 ^ 24 }
    ensures { GivesAll (stream K.written K.faults out.old out.new) (stream E.written E.faults err.old err.new)
        (front_of_log (front.now).file.items (front.now).fuel (front.now).limits ++ limit_end limit)
        (open_answer (OpenError.TooSmall limit)) result }
{
    match write_unbegun(out, front, limit) {
        Ok(()) => give_unopened(err, OpenError::TooSmall(limit)),
        Err(Failed) => give_line(err, Status::WriteFault, b"write fault"),
    }
}

/// Gives what there is to log where no machine is opened, and writes the line that says why.
fn log_unopened<K: Sink, E: Sink>(front: &Front, e: OpenError, out: &mut K, err: &mut E) -> Status
    requires { length (front.now).file.items ≤ 2 ^ 24 }
    ensures { GivesUnopened (stream K.written K.faults out.old out.new)
        (stream E.written E.faults err.old err.new)
        (front_of_log (front.now).file.items (front.now).fuel (front.now).limits) e result }
{
    match e {
        OpenError::TooSmall(limit) => log_unbegun(front, limit, out, err),
        OpenError::NoMemory => give_line(err, Status::NoMemory, b"no memory"),
    }
}

/// Gives the log of the run of an opened machine, and writes the line of its end.
fn log_machine<K: Sink, E: Sink, H: Host>(
    machine: &mut Machine,
    front: &Front,
    places: &Places,
    out: &mut K,
    err: &mut E,
    host: &H,
) -> Status
    requires begun { machine.old.ended ≡ None }
    requires names { formula_names (H.formulas host.now) ≡ machine.old.names }
    requires verified { IsVerifiedSetting (setting machine.old.linked (H.formulas host.now)) }
    requires counted { AreCounted machine.old.limits }
    requires places { ArePlaces machine.old.linked.file.bodies places.now }
    requires short { length (front.now).file.items ≤ 2 ^ 24 }
    ensures { RunsTo (IsLogged machine.old.linked.file places.now (front_of_log (front.now).file.items
        (front.now).fuel (front.now).limits
        ++ log_of_run (setting machine.old.linked (H.formulas host.now)) machine.old.limits
        (front.now).fuel)
        (meaning (setting machine.old.linked (H.formulas host.now)) machine.old.limits (front.now).fuel))
        ⊥ (stream K.written K.faults out.old out.new) (stream E.written E.faults err.old err.new) result }
{
    let fuel = front.fuel;
    end_can_be_told(machine, fuel, host);
    match write_front(out, front) {
        Ok(()) => {
            let end = run_in_blocks(machine, fuel, out, host);
            give_end(err, machine.linked(), places, &end)
        }
        Err(Failed) => give_line(err, Status::WriteFault, b"write fault"),
    }
}

/// Opens a verified file, whose instructions were read at these places, and gives the log of its run, with the line of its end.
fn log_verified<K: Sink, E: Sink, H: Host>(
    alloc: Global,
    verified: Verified,
    front: &Front,
    places: &Places,
    out: &mut K,
    err: &mut E,
    host: &H,
) -> Status
    requires verified { IsVerifiedOf verified.file verified }
    requires places { ArePlaces verified.file.bodies places.now }
    requires short { length (front.now).file.items ≤ 2 ^ 24 }
    requires counted { AreCounted (front.now).limits }
    ensures { RunsTo (IsLogged verified.file places.now (front_of_log (front.now).file.items (front.now).fuel
        (front.now).limits
        ++ log_of_run (setting verified (H.formulas host.now)) (front.now).limits (front.now).fuel)
        (meaning (setting verified (H.formulas host.now)) (front.now).limits (front.now).fuel)) ⊥
        (stream K.written K.faults out.old out.new) (stream E.written E.faults err.old err.new) result }
{
    too_small_is_one_line();
    match Machine::open(alloc, verified, &front.limits, host) {
        Ok(mut machine) => {
            let status = log_machine(&mut machine, front, places, out, err, host);
            close_machine(machine);
            status
        }
        Err(e) => log_unopened(front, e, out, err),
    }
}

/// Gives the log of a verified file, whose instructions were read at these places.
fn log_file<K: Sink, E: Sink, H: Host>(
    alloc: Global,
    verified: Verified,
    places: &Places,
    options: &RunOptions,
    out: &mut K,
    err: &mut E,
    host: &H,
) -> Status
    requires verified { IsVerifiedOf verified.file verified }
    requires places { ArePlaces verified.file.bodies places.now }
    ensures { RunsTo (IsLogged verified.file places.now
        (whole_log (setting verified (H.formulas host.now)) (limits_in options.now) (options.now).fuel)
        (meaning (setting verified (H.formulas host.now)) (limits_in options.now) (options.now).fuel)) ⊥
        (stream K.written K.faults out.old out.new) (stream E.written E.faults err.old err.new) result }
{
    match front_of(alloc, &verified, options) {
        Ok(front) => log_verified(alloc, verified, &front, places, out, err, host),
        Err(NoMemory) => {
            close_file(verified);
            give_stop(err, Stop::NoMemory)
        }
    }
}

/// Does the command `log`: the log of a run of the input's file goes to `out`, and the line of an end but Done to `err`.
pub fn log<S: Source, K: Sink, E: Sink, H: Host>(
    alloc: Global,
    options: &RunOptions,
    source: &mut S,
    out: &mut K,
    err: &mut E,
    host: &H,
) -> Status
    ensures end { RunsTo (On (OfFileRead (Log options.now (H.formulas host.now))) (S.left source.old))
        (HasFailed (stream S.left S.faults source.old source.new)) (stream K.written K.faults out.old out.new)
        (stream E.written E.faults err.old err.new) result }
    ensures taken { TakesAtMost (S.left source.old) (S.left source.new) (2 ^ 24 + 1) }
    ensures used_up { UsesUp (stream S.left S.faults source.old source.new) result }
    ensures logged { AreLimits (options.now).fuel (limits_in options.now) → IsRunStatus result
        → GotLog (H.formulas host.now) (stream K.written K.faults out.old out.new) }
{
    one_replay();
    match read_verified(alloc, source) {
        Ok((verified, places)) => log_file(alloc, verified, &places, options, out, err, host),
        Err(e) => give_stop(err, Stop::from(e)),
    }
}
