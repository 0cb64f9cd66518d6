ghost use Rattle.std.specs.Prelude.{◌+◌, ◌^◌, IfErr, IfOk};
ghost use Rattle.abc_base.specs.Taking.{TakesAtMost};
ghost use Rattle.abc_cli_answers.specs.End.{stream};
ghost use Rattle.abc_cli_answers.specs.Answers.{OfFile};
ghost use Rattle.abc_cli.specs.Outcome.{Canon};
ghost use Rattle.abc_cli_answers.specs.Stops.{GivesAllBytes, Stops};

use abc_base::Source;
use abc_cli_answers::Stop;
use abc_file::canonical;
use std::alloc::Global;

/// What the command `canon` gives: the canonical bytes of the file.
pub fn canon<S: Source>(alloc: Global, source: &mut S) -> Result<Vec<u8>, Stop>
    ensures gives { IfOk result
        (λ bytes. GivesAllBytes (OfFile Canon) (stream S.left S.faults source.old source.new) bytes.items) }
    ensures stops { IfErr result
        (λ stop. Stops (OfFile Canon) (stream S.left S.faults source.old source.new) stop) }
    ensures taken { TakesAtMost (S.left source.old) (S.left source.new) (2 ^ 24 + 1) }
{
    let bytes = canonical(alloc, source)?;
    Ok(bytes)
}
