ghost use Rattle.std.specs.Prelude.{◌≡◌, ◌⊎◌, ◌≤◌, [], Err, IfErr, OnOk};
ghost use Rattle.std.specs.Io.KnownBytes.{Consumes, IsAtEnd};
ghost use Rattle.abc_base.specs.Faults.{Rose};
ghost use Rattle.abc_log.specs.declared.compare.Verdict.TheVariants.{ReadFault, Same};
ghost use Rattle.abc_log.specs.Checks.{IsLogFault, IsTooMuch};
ghost use Rattle.abc_log.specs.declared.check.LogFault.{LogFault};
ghost use Rattle.abc_log.specs.declared.check.LogFault.TheVariants as faults;

use crate::compare::Verdict;
use abc_base::{Failed, Source};

/// Why what follows is not the log.
#[derive(Clone, Copy, Debug, PartialEq, Eq)]
pub enum LogFault {
    /// So many bytes agree, and then there is another byte, none or one too many. The number stands still at 2^64 - 1.
    Differs(u64),
    /// A read failed.
    ReadFault,
}

impl From<Failed> for LogFault {
    ghost from_gives = { λ _ e. e ≡ faults.ReadFault };

    fn from(_e: Failed) -> LogFault {
        LogFault::ReadFault
    }
}

/// Whether nothing more follows, where so many bytes agreed.
fn check_end<S: Source>(source: &mut S, agreed: u64) -> Result<(), LogFault>
    ensures end { OnOk result
        (Consumes (S.left source.old) (S.left source.new) [] × IsAtEnd (S.left source.new)) }
    ensures more { IfErr result (IsTooMuch (S.left source.old) agreed) }
    ensures later { S.faults source.old ≤ S.faults source.new }
    ensures cause { result ≡ Err LogFault.ReadFault → Rose (S.faults source.old) (S.faults source.new) }
{
    let mut byte = [0];
    if source.read(&mut byte)? > 0 {
        return Err(LogFault::Differs(agreed));
    }
    Ok(())
}

/// What the verdict says, and where all that was written agrees, whether nothing more follows. `ReadFault` comes only where the
/// verdict is that, or the source's count of faults rose.
pub fn check_verdict<S: Source>(
    source: &mut S,
    verdict: Verdict,
    agreed: u64,
) -> Result<(), LogFault>
    ensures end { OnOk result ((verdict ≡ Same) × Consumes (S.left source.old) (S.left source.new) []
        × IsAtEnd (S.left source.new)) }
    ensures fault { IfErr result (IsLogFault verdict (S.left source.old) agreed) }
    ensures later { S.faults source.old ≤ S.faults source.new }
    ensures cause { result ≡ Err LogFault.ReadFault
        → (verdict ≡ ReadFault) ⊎ Rose (S.faults source.old) (S.faults source.new) }
{
    match verdict {
        Verdict::Same => check_end(source, agreed),
        Verdict::Differs(agreeing) => Err(LogFault::Differs(agreeing)),
        Verdict::ReadFault => Err(LogFault::ReadFault),
    }
}
