ghost use Rattle.std.specs.Prelude.{◌≡◌, IfOk};
ghost use Rattle.abc_base.specs.Faults.{HasCause};
ghost use Rattle.abc_base.specs.Taking.{TakesAtMost};
ghost use Rattle.abc_log.specs.Bytes.{GivesNext};

use abc_base::{Failed, Source};

/// The next byte, if there is one.
pub(crate) fn read_byte<S: Source>(source: &mut S) -> Result<Option<u8>, Failed>
    ensures next { IfOk result (λ b. GivesNext (S.left source.old) (S.left source.new) b) }
    ensures taken { TakesAtMost (S.left source.old) (S.left source.new) 1 }
    ensures cause { HasCause (S.faults source.old) (S.faults source.new) result }
    ensures same { S.name source.new ≡ S.name source.old }
{
    let mut byte = [0];
    let count = source.read(&mut byte)?;
    if count == 0 {
        return Ok(None);
    }
    Ok(Some(byte[0]))
}
