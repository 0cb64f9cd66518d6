//! The interface to C, and to Rust by way of C: one call opens a file, runs its last script, and calls functions that the script
//! exports, one after the other on one heap. What goes in and comes out are numbers and bytes.
#![tactic(auto)]

mod answers;
mod crossing;
mod kept;
mod opening;

ghost use Rattle.std.specs.Prelude.{◌≡◌, [], length, None, Some};
ghost use Rattle.abc_base.specs.Sinks.{GrowsByFront};
ghost use Rattle.abc_c.specs.Outcome.{ComesOfUse, HasOutcome, RunsAndAnswers, reason_of, refusal_of as refusal_in, no_refusal as none_refused, use_of};

use crate::answers::{answer_all, copy_out};
use crate::crossing::{Answer, Bounds, Call, Outcome, Refusal};
use crate::kept::{Kept, status_of_end};
use crate::opening::{Unopened, open, reason_for, refusal_of, unrefused};
use abc_base::{MemSink, NoMemory, Status, release, write_all};
use abc_machine::End;
use abc_verify::VerifiedError;
use std::alloc::Global;

/// How many bytes the sink takes at once.
const PIECE: usize = 4096;

/// What came of a file: a status, where it was refused, and how many calls were answered.
#[derive(Clone, Copy)]
struct Came {
    status: Status,
    refusal: Refusal,
    answered: usize,
}

impl Came {
    /// No call was answered, of a file that nothing refused.
    fn to(status: Status) -> Came
        ensures { (result.status ≡ status) × (result.refusal ≡ none_refused) × (result.answered ≡ 0) }
    {
        Came {
            status,
            refusal: unrefused(),
            answered: 0,
        }
    }
}

/// Runs the last script and makes the calls where it was done.
fn run(
    kept: &mut Kept,
    fuel: u32,
    names: &[u8],
    calls: &[Call],
    answers: &mut [Answer],
    out: &mut MemSink,
) -> Came
    requires begun { (kept.old.session).ended ≡ None }
    requires fresh { (out.old).taken ≡ [] }
    ensures used { RunsAndAnswers kept.old.session fuel names.now calls.now answers.new result.status
        result.answered (out.new).taken }
    ensures refusal { result.refusal ≡ none_refused }
    ensures room { length answers.new ≡ length answers.old }
{
    let end = kept.start(fuel, out);
    match end {
        End::Done => Came {
            status: Status::Done,
            refusal: unrefused(),
            answered: answer_all(kept, names, calls, answers, out),
        },
        _ => Came::to(status_of_end(end)),
    }
}

/// A file is refused: the name of the reason is written.
fn refuse(e: &VerifiedError, out: &mut MemSink) -> Came
    requires { (out.old).taken ≡ [] }
    ensures came { (result.status ≡ Status.Refused) × (result.refusal ≡ refusal_in e.now)
        × (result.answered ≡ 0) }
    ensures front { GrowsByFront (Some []) (Some (out.new).taken) (reason_of e.now) }
{
    let _ = write_all(out, reason_for(e));
    Came {
        status: Status::Refused,
        refusal: refusal_of(e),
        answered: 0,
    }
}

/// Opens a file, and does all with it.
fn open_and_run(
    alloc: Global,
    file: &[u8],
    bounds: &Bounds,
    names: &[u8],
    calls: &[Call],
    answers: &mut [Answer],
    out: &mut MemSink,
) -> Came
    requires { (out.old).taken ≡ [] }
    ensures came { ComesOfUse (use_of file.now bounds.now names.now calls.now) answers.new result.status
        result.refusal result.answered (out.new).taken }
    ensures room { length answers.new ≡ length answers.old }
{
    match open(alloc, file, bounds) {
        Ok(mut kept) => {
            let came = run(&mut kept, bounds.fuel, names, calls, answers, out);
            release(kept);
            came
        }
        Err(Unopened::Refused(e)) => refuse(&e, out),
        Err(Unopened::TooSmall) => Came::to(Status::Limit),
        Err(Unopened::NoMemory) => Came::to(Status::NoMemory),
    }
}

/// Opens a file within bounds, runs its last script, and makes the calls, as far as there is room for their answers. What the script
/// writes and the texts of answers stand in `out`, one after the other; of a file that is refused, the name of the reason does.
#[unsafe(no_mangle)]
pub extern "C" fn abc_c_run(
    alloc: Global,
    file: &[u8],
    bounds: &Bounds,
    names: &[u8],
    calls: &[Call],
    answers: &mut [Answer],
    out: &mut [u8],
) -> Outcome
    ensures { HasOutcome (use_of file.now bounds.now names.now calls.now) answers.new out.old out.new result }
{
    match MemSink::new(alloc, out.len(), PIECE, &[]) {
        Ok(mut sink) => {
            let came = open_and_run(alloc, file, bounds, names, calls, answers, &mut sink);
            Outcome {
                status: came.status.code() as u32,
                refusal: came.refusal,
                answered: came.answered,
                written: copy_out(&sink, out),
            }
        }
        Err(NoMemory) => Outcome {
            status: Status::NoMemory.code() as u32,
            refusal: unrefused(),
            answered: 0,
            written: 0,
        },
    }
}
