ghost use Rattle.std.specs.Prelude.{◌+◌, ◌^◌, IfErr, IfOk};
ghost use Rattle.abc_base.specs.Taking.{TakesAtMost};
ghost use Rattle.abc_cli_answers.specs.End.{stream};
ghost use Rattle.abc_cli_answers.specs.Answers.{OfFile, bytes_answer};
ghost use Rattle.abc_cli.specs.Outcome.{Tidy};
ghost use Rattle.abc_cli_answers.specs.Stops.{GivesAllBytes, Stops, StopsAt};

use abc_base::Source;
use abc_cli_answers::Stop;
use abc_file::{read_alone, write};
use abc_file_types::Abc;
use abc_tidy::tidy_owned;
use std::alloc::Global;
use std::mem;

/// The canonical bytes of the tidied file.
fn tidied(alloc: Global, abc: Abc) -> Result<Vec<u8>, Stop>
    ensures gives { IfOk result (λ bytes. Tidy abc (bytes_answer bytes.items)) }
    ensures stops { IfErr result (λ stop. StopsAt (Tidy abc) stop) }
{
    let tidied = tidy_owned(alloc, abc)?;
    let mut bytes = Vec::new(alloc);
    write(alloc, &tidied, &mut bytes)?;
    // The program ends soon, and its memory goes back at once then: to let go of each part before would be one more walk over all.
    mem::forget(tidied);
    Ok(bytes)
}

/// What the command `tidy` gives: the canonical bytes of the tidied file.
pub fn tidy<S: Source>(alloc: Global, source: &mut S) -> Result<Vec<u8>, Stop>
    ensures gives { IfOk result
        (λ bytes. GivesAllBytes (OfFile Tidy) (stream S.left S.faults source.old source.new) bytes.items) }
    ensures stops { IfErr result
        (λ stop. Stops (OfFile Tidy) (stream S.left S.faults source.old source.new) stop) }
    ensures taken { TakesAtMost (S.left source.old) (S.left source.new) (2 ^ 24 + 1) }
{
    let abc = read_alone(alloc, source)?;
    let bytes = tidied(alloc, abc)?;
    Ok(bytes)
}
