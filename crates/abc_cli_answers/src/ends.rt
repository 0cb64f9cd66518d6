ghost use Rattle.std.specs.Prelude.{◌≡◌, is_ok, if◌then◌else◌};
ghost use Rattle.abc_cli_answers.specs.End.{GivesBytes, GivesLine, stream};
ghost use Rattle.abc_cli_answers.specs.Lines.{kind_of_tidy, write_fault_text, no_command_text};
ghost use Rattle.abc_cli_answers.specs.Answers.{line_answer};
ghost use Rattle.abc_cli_answers.specs.Stops.{IsGiven, stop_answer};

use crate::lines::{write_code, write_line, write_place};
use crate::stop::Stop;
use abc_base::{Failed, Sink, Status, write_all};
use abc_file_types::Reason;
use abc_link_names::{Item, LinkRule};
use abc_text_lines::AsmReason;
use abc_tidy_entries::TidyRule;
use abc_verify_typing::VerifyRule;

/// The status where its line was written, and that of a failed write where it wasn't.
pub fn ended(written: Result<(), Failed>, status: Status) -> Status
    ensures { result ≡ (if is_ok written then status else Status.WriteFault) }
{
    match written {
        Ok(()) => status,
        Err(_) => Status::WriteFault,
    }
}

/// Writes the line of a status that has a fixed one.
#[tactic(auto, using(crate::proofs::Ending::gives))]
pub fn give_line<E: Sink>(err: &mut E, status: Status, text: &[u8]) -> Status
    ensures { GivesLine (stream E.written E.faults err.old err.new) (line_answer status text.now) result }
{
    let written = write_line(err, text);
    ended(written, status)
}

/// Writes the line of a refused file.
#[tactic(auto, using(crate::proofs::Ending::gives))]
fn give_file<E: Sink>(err: &mut E, place: u32, reason: Reason) -> Status
    ensures { GivesLine (stream E.written E.faults err.old err.new) (stop_answer (Stop.File place reason))
        result }
{
    let written = write_place(err, b"byte", u64::from(place), reason.name());
    ended(written, Status::Refused)
}

/// Writes the line of a refused text.
#[tactic(auto, using(crate::proofs::Ending::gives))]
fn give_text<E: Sink>(err: &mut E, line: u32, reason: AsmReason) -> Status
    ensures { GivesLine (stream E.written E.faults err.old err.new) (stop_answer (Stop.Text line reason))
        result }
{
    let written = write_place(err, b"line", u64::from(line), reason.name());
    ended(written, Status::Refused)
}

/// Writes the line of an item that breaks a rule of linking.
#[tactic(auto, using(crate::proofs::Ending::gives))]
fn give_item<E: Sink>(err: &mut E, item: Item, rule: LinkRule) -> Status
    ensures { GivesLine (stream E.written E.faults err.old err.new) (stop_answer (Stop.Item item rule))
        result }
{
    let written = write_place(err, item.kind.name(), u64::from(item.index), rule.name());
    ended(written, Status::Refused)
}

/// Writes the line of a method that breaks a rule of verifying.
#[tactic(auto, using(crate::proofs::Ending::gives))]
fn give_code<E: Sink>(err: &mut E, method: u32, offset: u32, rule: VerifyRule) -> Status
    ensures { GivesLine (stream E.written E.faults err.old err.new)
        (stop_answer (Stop.Code method offset rule)) result }
{
    let written = write_code(err, method, offset, rule.name());
    ended(written, Status::Refused)
}

/// What kind of thing breaks a rule of tidying.
fn tidy_kind(rule: TidyRule) -> &'static [u8]
    ensures { result.now ≡ kind_of_tidy rule }
{
    match rule {
        TidyRule::Operand => b"body",
        TidyRule::ParamName => b"method",
        TidyRule::NameCycle => b"name",
        TidyRule::TooLarge => b"file",
    }
}

/// Writes the line of a file that breaks a rule of tidying.
#[tactic(auto, using(crate::proofs::Ending::gives))]
fn give_tidy<E: Sink>(err: &mut E, rule: TidyRule, index: u32) -> Status
    ensures { GivesLine (stream E.written E.faults err.old err.new) (stop_answer (Stop.Tidy rule index))
        result }
{
    let written = write_place(
        err,
        tidy_kind(rule),
        u64::from(index),
        rule.name().as_bytes(),
    );
    ended(written, Status::Refused)
}

/// Writes the line of no words at all.
#[tactic(auto, unfolding(crate::specs::Lines::no_command_text))]
pub fn give_no_command<E: Sink>(err: &mut E) -> Status
    ensures { GivesLine (stream E.written E.faults err.old err.new) (line_answer Status.Usage no_command_text)
        result }
{
    give_line(err, Status::Usage, b"usage: no command")
}

/// Writes the line that says why there are no bytes.
#[tactic(auto, unfolding(crate::specs::Lines::read_fault_text, crate::specs::Lines::no_memory_text))]
pub fn give_stop<E: Sink>(err: &mut E, stop: Stop) -> Status
    ensures { GivesLine (stream E.written E.faults err.old err.new) (stop_answer stop) result }
{
    match stop {
        Stop::File { place, reason } => give_file(err, place, reason),
        Stop::Text { line, reason } => give_text(err, line, reason),
        Stop::Item { item, rule } => give_item(err, item, rule),
        Stop::Code {
            method,
            offset,
            rule,
        } => give_code(err, method, offset, rule),
        Stop::Tidy { rule, index } => give_tidy(err, rule, index),
        Stop::ReadFault => give_line(err, Status::ReadFault, b"read fault"),
        Stop::NoMemory => give_line(err, Status::NoMemory, b"no memory"),
    }
}

/// Writes bytes to `out`, and where that fails the line that says so to `err`.
#[tactic(auto, unfolding(crate::specs::Lines::write_fault_text))]
pub fn give_bytes<K: Sink, E: Sink>(out: &mut K, err: &mut E, bytes: &[u8]) -> Status
    ensures { GivesBytes (stream K.written K.faults out.old out.new)
        (stream E.written E.faults err.old err.new) bytes.now result }
{
    match write_all(out, bytes) {
        Ok(()) => Status::Done,
        Err(_) => give_line(err, Status::WriteFault, b"write fault"),
    }
}

/// Writes what a command gives to `out`, or the line that says why it gives nothing to `err`.
pub fn give<K: Sink, E: Sink>(done: Result<Vec<u8>, Stop>, out: &mut K, err: &mut E) -> Status
    ensures { IsGiven done (stream K.written K.faults out.old out.new)
        (stream E.written E.faults err.old err.new) result }
{
    match done {
        Ok(bytes) => give_bytes(out, err, bytes.as_slice()),
        Err(stop) => give_stop(err, stop),
    }
}
