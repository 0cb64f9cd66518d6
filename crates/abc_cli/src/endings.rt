ghost use Rattle.std.specs.Prelude.{◌≡◌};
ghost use Rattle.abc_base.specs.Names.{fault_name};
ghost use Rattle.abc_cli_answers.specs.Answers.{line_answer};
ghost use Rattle.abc_cli_answers.specs.End.{GivesLine, stream};
ghost use Rattle.abc_cli.specs.Endings.{HasCodePlace, IsPlacedEnd, end_answer, open_answer};
ghost use Rattle.abc_cli_answers.specs.Lines.{code_text, limit_text, uncaught_text};
ghost use Rattle.abc_cli.specs.Meant.{place_as_read};

use abc_base::{Fault, Sink, Status};
use abc_bodies::Places;
use abc_cli_answers::{ended, give_line, write_code, write_limit, write_uncaught};
use abc_heap_store::Limit;
use abc_link::Linked;
use abc_machine::{End, thrown_name};
use abc_objects::OpenError;

/// Writes the line of what nothing caught.
#[tactic(auto, using(abc_cli_answers::proofs::Ending::gives))]
fn give_uncaught<E: Sink>(err: &mut E, name: &[u8]) -> Status
    ensures { GivesLine (stream E.written E.faults err.old err.new)
        (line_answer Status.Uncaught (uncaught_text name.now)) result }
{
    let written = write_uncaught(err, name);
    ended(written, Status::Uncaught)
}

/// Writes the line of a limit that is reached, or below what every run begins with.
#[tactic(auto, using(abc_cli_answers::proofs::Ending::gives))]
fn give_limit<E: Sink>(err: &mut E, limit: Limit) -> Status
    ensures { GivesLine (stream E.written E.faults err.old err.new)
        (line_answer Status.Limit (limit_text limit)) result }
{
    let written = write_limit(err, limit);
    ended(written, Status::Limit)
}

/// Writes the line that says why no machine is opened.
#[tactic(auto, unfolding(abc_cli_answers::specs::Lines::no_memory_text))]
pub fn give_unopened<E: Sink>(err: &mut E, e: OpenError) -> Status
    ensures { GivesLine (stream E.written E.faults err.old err.new) (open_answer e) result }
{
    match e {
        OpenError::TooSmall(limit) => give_limit(err, limit),
        OpenError::NoMemory => give_line(err, Status::NoMemory, b"no memory"),
    }
}

/// Where an instruction of a method began in its code as it was read.
fn place(linked: &Linked, places: &Places, method: u32, index: u32) -> u32
    requires { HasCodePlace linked.now.file places.now method index }
    ensures { result ≡ place_as_read linked.now.file places.now method index }
{
    let body = linked.body_of(method).unwrap_or(0);
    places.offset(body, index)
}

/// Writes the line of what the profile leaves out, at an offset in the code of a method.
#[tactic(auto, using(abc_cli_answers::proofs::Ending::gives))]
fn give_fault<E: Sink>(err: &mut E, method: u32, offset: u32, fault: Fault) -> Status
    ensures { GivesLine (stream E.written E.faults err.old err.new)
        (line_answer Status.Profile (code_text method offset (fault_name fault))) result }
{
    let written = write_code(err, method, offset, fault.name());
    ended(written, Status::Profile)
}

/// Writes the line of how a run ended; there is none where it is done.
#[tactic(auto, unfolding(abc_cli_answers::specs::Lines::fuel_spent_text, abc_cli_answers::specs::Lines::write_fault_text))]
pub fn give_end<E: Sink>(err: &mut E, linked: &Linked, places: &Places, end: &End) -> Status
    requires { IsPlacedEnd linked.now.file places.now end.now }
    ensures line { GivesLine (stream E.written E.faults err.old err.new)
        (end_answer linked.now.file places.now end.now) result }
    ensures done { end.now ≡ End.Done → (result ≡ Status.Done) × (err.new ≡ err.old) }
{
    match end {
        End::Done => Status::Done,
        End::Uncaught(thrown) => give_uncaught(err, thrown_name(linked.abc(), thrown)),
        End::Profile {
            method,
            index,
            fault,
        } => give_fault(err, *method, place(linked, places, *method, *index), *fault),
        End::FuelSpent => give_line(err, Status::Fuel, b"fuel spent"),
        End::Full(limit) => give_limit(err, *limit),
        End::WriteFault => give_line(err, Status::WriteFault, b"write fault"),
    }
}
