use abc_base::NoMemory;
use abc_text_lines::AsmReason;

/// Why a line has no value.
#[derive(Clone, Copy, Debug)]
pub enum LineError {
    /// The first reason that holds at the line.
    Refused(AsmReason),
    /// Memory ran out.
    NoMemory,
}

impl From<AsmReason> for LineError {
    ghost use Rattle.std.specs.Prelude.{◌≡◌};
    ghost use Rattle.abc_text_operands.specs.declared.error.LineError.TheVariants.{Refused};

    ghost from_gives = { λ r e. e ≡ Refused r };

    fn from(reason: AsmReason) -> LineError {
        LineError::Refused(reason)
    }
}

impl From<NoMemory> for LineError {
    ghost use Rattle.std.specs.Prelude.{◌≡◌};
    ghost use Rattle.abc_text_operands.specs.declared.error.LineError.TheVariants.{NoMemory};

    ghost from_gives = { λ _ e. e ≡ NoMemory };

    fn from(_failed: NoMemory) -> LineError {
        LineError::NoMemory
    }
}
