ghost use Rattle.std.specs.Prelude.{◌+◌, ◌^◌, IfErr, IfOk};
ghost use Rattle.abc_base.specs.Taking.{TakesAtMost};
ghost use Rattle.abc_cli_answers.specs.End.{stream};
ghost use Rattle.abc_cli_answers.specs.Answers.{OfFile};
ghost use Rattle.abc_cli.specs.Outcome.{Dis};
ghost use Rattle.abc_cli_answers.specs.Stops.{GivesAllBytes, Stops};

use abc_base::Source;
use abc_cli_answers::Stop;
use abc_disasm::listing_of;
use std::alloc::Global;

/// What the command `dis` gives: the text of the file.
pub fn dis<S: Source>(alloc: Global, source: &mut S) -> Result<Vec<u8>, Stop>
    ensures gives { IfOk result
        (λ bytes. GivesAllBytes (OfFile Dis) (stream S.left S.faults source.old source.new) bytes.items) }
    ensures stops { IfErr result
        (λ stop. Stops (OfFile Dis) (stream S.left S.faults source.old source.new) stop) }
    ensures taken { TakesAtMost (S.left source.old) (S.left source.new) (2 ^ 24 + 1) }
{
    let text = listing_of(alloc, source)?;
    Ok(text)
}
