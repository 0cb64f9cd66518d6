ghost use Rattle.std.specs.Prelude.{◌≡◌, ◌≤◌};
ghost use Rattle.abc_cli_answers.specs.Answers.{OfFileRead};
ghost use Rattle.abc_cli_answers.specs.End.{IsEnd, RunsTo, stream};
ghost use Rattle.abc_bodies.specs.Places.{ArePlaces};
ghost use Rattle.abc_cli.specs.Runs.{Gen, RunOfFile, default_options};
ghost use Rattle.abc_cli_answers.specs.Generated.{generated_file};
ghost use Rattle.abc_cli_answers.specs.Measured.{size_lines};
ghost use Rattle.abc_cli_answers.specs.Placed.{IsReadAgain};
ghost use Rattle.abc_file_types.specs.Files.{file_bytes};

use crate::run_command::run_verified;
use abc_base::{Host, NoMemory, Sink, Status};
use abc_bodies::Places;
use abc_cli_answers::{GenOptions, Made, RunOptions, Stop, give_bytes, give_stop, make};
use abc_file_types::Abc;
use abc_verify::verified_file;
use std::alloc::Global;

/// The options of `run` where no word gives one.
const DEFAULTS: RunOptions = RunOptions {
    fuel: 10_000_000,
    objects: 100_000,
    cells: 1_000_000,
    text: 4_000_000,
    frames: 1_000,
    stack: 100_000,
};

/// Does `run` with the canonical bytes of a file as its input, and the default options: they would be read as this file, with its
/// instructions at these places.
fn run_file<K: Sink, E: Sink, H: Host>(
    alloc: Global,
    file: Abc,
    places: &Places,
    out: &mut K,
    err: &mut E,
    host: &H,
) -> Status
    requires read { IsReadAgain file places.now }
    requires places { ArePlaces file.bodies places.now }
    ensures end { RunsTo (OfFileRead (RunOfFile default_options (H.formulas host.now)) (file_bytes file)) ⊥
        (stream K.written K.faults out.old out.new) (stream E.written E.faults err.old err.new) result }
    ensures later { K.faults out.old ≤ K.faults out.new }
    ensures quiet { result ≡ Status.Done → err.new ≡ err.old }
{
    match verified_file(alloc, file, places) {
        Ok(verified) => run_verified(alloc, verified, places, &DEFAULTS, out, err, host),
        Err(e) => give_stop(err, Stop::from(e)),
    }
}

/// Runs a generated file, and where the run is done writes the lines on the file.
fn run_made<K: Sink, E: Sink, H: Host>(
    alloc: Global,
    made: Made,
    options: &GenOptions,
    out: &mut K,
    err: &mut E,
    host: &H,
) -> Status
    requires file { made.file ≡ generated_file (options.now).seed (options.now).methods }
    requires read { IsReadAgain made.file made.notes.places }
    requires places { ArePlaces made.file.bodies made.notes.places }
    requires lines { made.notes.lines.items
        ≡ size_lines (generated_file (options.now).seed (options.now).methods) }
    ensures { IsEnd (Gen options.now (H.formulas host.now)) ⊥ (stream K.written K.faults out.old out.new)
        (stream E.written E.faults err.old err.new) result }
{
    let Made { file, notes } = made;
    match run_file(alloc, file, &notes.places, out, err, host) {
        Status::Done => give_bytes(out, err, notes.lines.as_slice()),
        status => status,
    }
}

/// Does the command `gen`: makes a file, runs it, and where the run is done writes the lines on the file.
pub fn generate<K: Sink, E: Sink, H: Host>(
    alloc: Global,
    options: &GenOptions,
    out: &mut K,
    err: &mut E,
    host: &H,
) -> Status
    requires { (options.now).methods ≤ 10000 }
    ensures { IsEnd (Gen options.now (H.formulas host.now)) ⊥ (stream K.written K.faults out.old out.new)
        (stream E.written E.faults err.old err.new) result }
{
    match make(alloc, options.seed, options.methods) {
        Ok(made) => run_made(alloc, made, options, out, err, host),
        Err(NoMemory) => give_stop(err, Stop::NoMemory),
    }
}
