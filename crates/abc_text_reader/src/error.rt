ghost use Rattle.std.specs.Prelude.{◌≡◌};
ghost use Rattle.abc_text_reader.specs.declared.error.AsmError.TheVariants as errors;

use abc_base::NoMemory;
use abc_text_lines::AsmReason;
use thiserror::Error;

/// Why a text is not assembled.
#[derive(Clone, Copy, Debug, PartialEq, Eq, Error)]
pub enum AsmError {
    /// The least line that has a fault, counted from 1, and the first reason that holds there.
    #[error("the text is refused")]
    Refused { line: u32, reason: AsmReason },
    /// Memory ran out.
    #[error("memory ran out")]
    NoMemory,
}

impl From<NoMemory> for AsmError {
    ghost use Rattle.std.specs.Prelude.{◌≡◌};
    ghost use Rattle.abc_text_reader.specs.declared.error.AsmError.TheVariants.{NoMemory};

    ghost from_gives = { λ _ e. e ≡ NoMemory };

    fn from(_failed: NoMemory) -> AsmError {
        AsmError::NoMemory
    }
}

/// That the reason holds at a line.
pub fn refused(line: u32, reason: AsmReason) -> AsmError
    ensures { result ≡ errors.Refused line reason }
{
    AsmError::Refused { line, reason }
}
