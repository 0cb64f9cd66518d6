ghost use Rattle.std.specs.Prelude.{◌≡◌, ◌+◌, ◌^◌, None};
ghost use Rattle.abc_base.specs.Taking.{TakesAtMost};
ghost use Rattle.abc_bodies.specs.Places.{ArePlaces};
ghost use Rattle.abc_cli_answers.specs.Answers.{OfFileRead, On, line_answer};
ghost use Rattle.abc_cli.specs.Calls.{Calls, IsCalled};
ghost use Rattle.abc_cli_answers.specs.End.{GivesLine, HasFailed, RunsTo, UsesUp, stream};
ghost use Rattle.abc_cli_answers.specs.Lines.{no_export_text};
ghost use Rattle.abc_cli.specs.Meant.{IsMeant, limits_of as limits_in};
ghost use Rattle.abc_meaning.specs.ThrowLaws.{AreCounted, IsVerifiedSetting};
ghost use Rattle.abc_meaning.specs.Meaning.{first_world, too_small};
ghost use Rattle.abc_meaning.specs.Exports.{IsScriptMethod};
ghost use Rattle.abc_machine.specs.Machines.{IsOpened};
ghost use Rattle.abc_meaning.specs.Openings.{setting};
ghost use Rattle.abc_meaning.specs.Told.{CanBeTold};
ghost use Rattle.abc_session.specs.Ticks.{calls_meaning};
ghost use Rattle.abc_verify.specs.Verified.{IsVerifiedOf};

use crate::endings::{give_end, give_unopened};
use crate::machines::{close_session, limits_of};
use abc_base::{Host, Sink, Source, Status};
use abc_bodies::Places;
use abc_cli_answers::{CallsOptions, Stop, ended, give_stop, write_place};
use abc_session::{Session, run_and_call, ticks_can_be_told};
use abc_verify::{Verified, read_verified};
use std::alloc::Global;

/// Writes the line of a file that doesn't export the function that is called.
#[tactic(auto, unfolding(abc_cli_answers::specs::Lines::no_export_text), using(abc_cli_answers::proofs::Ending::gives))]
fn give_no_export<E: Sink>(err: &mut E) -> Status
    ensures { GivesLine (stream E.written E.faults err.old err.new)
        (line_answer Status.Refused no_export_text) result }
{
    let written = write_place(err, b"file", 0, b"NoExport");
    ended(written, Status::Refused)
}

/// How the run of this session and the calls after it end can be told.
#[tactic(none)]
fn calls_end_can_be_told<H: Host>(session: &Session, method: u32, fuel: u32, times: u32, host: &H)
    requires verified { IsVerifiedSetting (setting (session.now).linked (H.formulas host.now)) }
    requires counted { AreCounted (session.now).limits }
    requires fits { too_small
        (first_world (setting (session.now).linked (H.formulas host.now)) (session.now).limits).heap
        ≡ None }
    requires method { IsScriptMethod (setting (session.now).linked (H.formulas host.now)) method }
    ensures { CanBeTold (session.now).linked.file (calls_meaning
        (setting (session.now).linked (H.formulas host.now)) (session.now).limits fuel times method) }
{
    ticks_can_be_told();
}

/// Runs an opened session, calls the method after that, and writes the line of how they end.
fn call_method<K: Sink, E: Sink, H: Host>(
    session: &mut Session,
    method: u32,
    places: &Places,
    options: &CallsOptions,
    out: &mut K,
    err: &mut E,
    host: &H,
) -> Status
    requires opened { IsOpened session.old.linked (H.formulas host.now) session.old.limits session.old }
    requires verified { IsVerifiedSetting (setting session.old.linked (H.formulas host.now)) }
    requires counted { AreCounted session.old.limits }
    requires places { ArePlaces session.old.linked.file.bodies places.now }
    requires method { IsScriptMethod (setting session.old.linked (H.formulas host.now)) method }
    ensures { RunsTo (IsMeant session.old.linked.file places.now (calls_meaning
        (setting session.old.linked (H.formulas host.now)) session.old.limits (options.now).run.fuel
        (options.now).times method)) ⊥ (stream K.written K.faults out.old out.new)
        (stream E.written E.faults err.old err.new) result }
{
    let fuel = options.run.fuel;
    let times = options.times;
    calls_end_can_be_told(session, method, fuel, times, host);
    let end = run_and_call(session, method, fuel, times, out, host);
    give_end(err, session.linked(), places, &end)
}

/// Runs an opened session and calls its function `tick`, where the file exports one.
fn call_exported<K: Sink, E: Sink, H: Host>(
    session: &mut Session,
    places: &Places,
    options: &CallsOptions,
    out: &mut K,
    err: &mut E,
    host: &H,
) -> Status
    requires opened { IsOpened session.old.linked (H.formulas host.now) session.old.limits session.old }
    requires limits { session.old.limits ≡ limits_in (options.now).run }
    requires verified { IsVerifiedSetting (setting session.old.linked (H.formulas host.now)) }
    requires counted { AreCounted session.old.limits }
    requires places { ArePlaces session.old.linked.file.bodies places.now }
    ensures { RunsTo (IsCalled options.now (setting session.old.linked (H.formulas host.now)) places.now) ⊥
        (stream K.written K.faults out.old out.new) (stream E.written E.faults err.old err.new) result }
{
    match session.export(b"tick") {
        Some(method) => call_method(session, method, places, options, out, err, host),
        None => give_no_export(err),
    }
}

/// Opens a session of a verified file, whose instructions were read at these places, runs it and calls its function.
fn call_verified<K: Sink, E: Sink, H: Host>(
    alloc: Global,
    verified: Verified,
    places: &Places,
    options: &CallsOptions,
    out: &mut K,
    err: &mut E,
    host: &H,
) -> Status
    requires verified { IsVerifiedOf verified.file verified }
    requires places { ArePlaces verified.file.bodies places.now }
    ensures { RunsTo (IsCalled options.now (setting verified (H.formulas host.now)) places.now) ⊥
        (stream K.written K.faults out.old out.new) (stream E.written E.faults err.old err.new) result }
{
    let limits = limits_of(&options.run);
    match Session::open(alloc, verified, &limits, host) {
        Ok(mut session) => {
            let status = call_exported(&mut session, places, options, out, err, host);
            close_session(session);
            status
        }
        Err(e) => give_unopened(err, e),
    }
}

/// Does the command `calls`: runs the file of the input, and calls its function `tick` on what that left, again and again. What they
/// write and each value goes to `out`, and the line of an end but Done to `err`.
pub fn calls<S: Source, K: Sink, E: Sink, H: Host>(
    alloc: Global,
    options: &CallsOptions,
    source: &mut S,
    out: &mut K,
    err: &mut E,
    host: &H,
) -> Status
    ensures end { RunsTo (On (OfFileRead (Calls options.now (H.formulas host.now))) (S.left source.old))
        (HasFailed (stream S.left S.faults source.old source.new)) (stream K.written K.faults out.old out.new)
        (stream E.written E.faults err.old err.new) result }
    ensures taken { TakesAtMost (S.left source.old) (S.left source.new) (2 ^ 24 + 1) }
    ensures used_up { UsesUp (stream S.left S.faults source.old source.new) result }
{
    match read_verified(alloc, source) {
        Ok((verified, places)) => call_verified(alloc, verified, &places, options, out, err, host),
        Err(e) => give_stop(err, Stop::from(e)),
    }
}
