ghost use Rattle.std.specs.Prelude.{◌≡◌, ◌+◌, ◌^◌, IfErr, IfOk, length};
ghost use Rattle.abc_base.specs.Taking.{TakesAtMost};
ghost use Rattle.abc_cli_answers.specs.End.{stream};
ghost use Rattle.abc_cli_answers.specs.Lines.{verified_line};
ghost use Rattle.abc_cli_answers.specs.Answers.{OfFileRead};
ghost use Rattle.abc_cli.specs.Outcome.{Check};
ghost use Rattle.abc_cli_answers.specs.Stops.{GivesAllBytes, Stops};

use abc_base::{NoMemory, Source};
use abc_cli_answers::{Stop, numbered_line};
use abc_verify::{Verified, read_verified};
use itoa::Buffer;
use std::alloc::Global;
use std::mem::forget;

/// The line of a file that is verified.
#[tactic(auto, unfolding(abc_cli_answers::specs::Lines::verified_line))]
fn line_of(alloc: Global, count: usize) -> Result<Vec<u8>, NoMemory>
    ensures { IfOk result (λ bytes. bytes.items ≡ verified_line count) }
{
    let mut buffer = Buffer::new();
    let digits = buffer.format(count).as_bytes();
    numbered_line(alloc, b"verified ", digits)
}

/// How many bodies a verified file has.
fn body_count(verified: &Verified) -> usize
    ensures { result ≡ length verified.now.file.bodies }
{
    verified.linked().abc().bodies.len()
}

/// What the command `check` gives: how many bodies are verified.
pub fn check<S: Source>(alloc: Global, source: &mut S) -> Result<Vec<u8>, Stop>
    ensures gives { IfOk result (λ bytes. GivesAllBytes (OfFileRead Check)
        (stream S.left S.faults source.old source.new) bytes.items) }
    ensures stops { IfErr result
        (λ stop. Stops (OfFileRead Check) (stream S.left S.faults source.old source.new) stop) }
    ensures taken { TakesAtMost (S.left source.old) (S.left source.new) (2 ^ 24 + 1) }
{
    let (verified, _) = read_verified(alloc, source)?;
    let count = body_count(&verified);
    // The program ends soon, and its memory goes back at once then: to let go of each part before would be one more walk over all.
    forget(verified);
    let bytes = line_of(alloc, count)?;
    Ok(bytes)
}
