ghost use Rattle.std.specs.Prelude.{◌≡◌, ◌++◌, length, min, take, drop};
ghost use Rattle.abc_c.specs.Answered.{AreAnswered};

use crate::crossing::{Answer, Call};
use crate::kept::Kept;
use abc_base::MemSink;

/// Makes the calls, as far as there is room for their answers, and gives how many were made.
pub fn answer_all(
    kept: &mut Kept,
    names: &[u8],
    calls: &[Call],
    answers: &mut [Answer],
    out: &mut MemSink,
) -> usize
    ensures count { result ≡ min (length calls.now) (length answers.old) }
    ensures answers { AreAnswered names.now kept.old.session (take result calls.now) (take result answers.new)
        out.old.taken kept.new.session out.new.taken }
    ensures room { length answers.new ≡ length answers.old }
{
    let count = calls.len().min(answers.len());
    for i in 0..count {
        answers[i] = kept.answer(names, &calls[i], out);
    }
    count
}

/// Copies what was written to the front of a piece of memory, and gives how much that is.
pub fn copy_out(sink: &MemSink, out: &mut [u8]) -> usize
    ensures count { result ≡ min (length (sink.now).taken) (length out.old) }
    ensures output { out.new ≡ take result (sink.now).taken ++ drop result out.old }
{
    let written = sink.written();
    let count = written.len().min(out.len());
    out[..count].copy_from_slice(&written[..count]);
    count
}
