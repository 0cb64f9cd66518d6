ghost use Rattle.std.specs.Prelude.{◌≡◌, ◌≤◌, ◌<◌, ◌+◌, ◌^◌, None};
ghost use Rattle.abc_base.specs.Taking.{TakesAtMost};
ghost use Rattle.abc_bodies.specs.Places.{ArePlaces};
ghost use Rattle.abc_cli_answers.specs.Answers.{OfFileRead, On};
ghost use Rattle.abc_cli_answers.specs.End.{HasFailed, RunsTo, UsesUp, stream};
ghost use Rattle.abc_cli.specs.Meant.{IsMeant, limits_of as limits_in};
ghost use Rattle.abc_cli.specs.Runs.{RunOfFile};
ghost use Rattle.abc_meaning.specs.ThrowLaws.{AreCounted, IsVerifiedSetting};
ghost use Rattle.abc_meaning.specs.Meaning.{meaning};
ghost use Rattle.abc_objects.specs.Opening.{formula_names};
ghost use Rattle.abc_meaning.specs.Openings.{setting};
ghost use Rattle.abc_verify.specs.Verified.{IsVerifiedOf};

use crate::endings::{give_end, give_unopened};
use crate::machines::{close_machine, end_can_be_told, limits_of};
use abc_base::{Host, Sink, Source, Status};
use abc_bodies::Places;
use abc_cli_answers::{RunOptions, Stop, give_stop};
use abc_machine::Machine;
use abc_verify::{Verified, read_verified};
use std::alloc::Global;

/// Runs an opened machine, and writes the line of its end.
fn run_machine<K: Sink, E: Sink, H: Host>(
    machine: &mut Machine,
    places: &Places,
    fuel: u32,
    out: &mut K,
    err: &mut E,
    host: &H,
) -> Status
    requires begun { machine.old.ended ≡ None }
    requires names { formula_names (H.formulas host.now) ≡ machine.old.names }
    requires verified { IsVerifiedSetting (setting machine.old.linked (H.formulas host.now)) }
    requires counted { AreCounted machine.old.limits }
    requires places { ArePlaces machine.old.linked.file.bodies places.now }
    ensures end { RunsTo (IsMeant machine.old.linked.file places.now
        (meaning (setting machine.old.linked (H.formulas host.now)) machine.old.limits fuel)) ⊥
        (stream K.written K.faults out.old out.new) (stream E.written E.faults err.old err.new) result }
    ensures later { K.faults out.old ≤ K.faults out.new }
    ensures quiet { result ≡ Status.Done → err.new ≡ err.old }
{
    end_can_be_told(machine, fuel, host);
    let end = machine.run(fuel, out, host);
    give_end(err, machine.linked(), places, &end)
}

/// Runs a verified file, whose instructions were read at these places, and writes the line of how the run ends.
pub(crate) fn run_verified<K: Sink, E: Sink, H: Host>(
    alloc: Global,
    verified: Verified,
    places: &Places,
    options: &RunOptions,
    out: &mut K,
    err: &mut E,
    host: &H,
) -> Status
    requires verified { IsVerifiedOf verified.file verified }
    requires places { ArePlaces verified.file.bodies places.now }
    ensures end { RunsTo (IsMeant verified.file places.now
        (meaning (setting verified (H.formulas host.now)) (limits_in options.now) (options.now).fuel)) ⊥
        (stream K.written K.faults out.old out.new) (stream E.written E.faults err.old err.new) result }
    ensures later { K.faults out.old ≤ K.faults out.new }
    ensures quiet { result ≡ Status.Done → err.new ≡ err.old }
{
    let limits = limits_of(options);
    match Machine::open(alloc, verified, &limits, host) {
        Ok(mut machine) => {
            let status = run_machine(&mut machine, places, options.fuel, out, err, host);
            close_machine(machine);
            status
        }
        Err(e) => give_unopened(err, e),
    }
}

/// Does the command `run`: what the file of the input writes goes to `out`, and the line of an end but Done to `err`.
pub fn run<S: Source, K: Sink, E: Sink, H: Host>(
    alloc: Global,
    options: &RunOptions,
    source: &mut S,
    out: &mut K,
    err: &mut E,
    host: &H,
) -> Status
    ensures end { RunsTo (On (OfFileRead (RunOfFile options.now (H.formulas host.now))) (S.left source.old))
        (HasFailed (stream S.left S.faults source.old source.new)) (stream K.written K.faults out.old out.new)
        (stream E.written E.faults err.old err.new) result }
    ensures taken { TakesAtMost (S.left source.old) (S.left source.new) (2 ^ 24 + 1) }
    ensures used_up { UsesUp (stream S.left S.faults source.old source.new) result }
    ensures later { K.faults out.old ≤ K.faults out.new }
    ensures quiet { result ≡ Status.Done → err.new ≡ err.old }
{
    match read_verified(alloc, source) {
        Ok((verified, places)) => run_verified(alloc, verified, &places, options, out, err, host),
        Err(e) => give_stop(err, Stop::from(e)),
    }
}
