ghost use Rattle.std.specs.Prelude.{◌≡◌};
ghost use Rattle.abc_log.specs.declared.errors.HeadError.TheVariants as head;
ghost use Rattle.abc_log.specs.declared.errors.LimitsError.TheVariants as limits;

use abc_base::Failed;
use thiserror::Error;

/// Why the line before the file isn't read.
#[derive(Clone, Copy, Debug, PartialEq, Eq, Error)]
pub enum HeadError {
    /// A byte of it is wrong or missing: its place, from 0.
    #[error("the line before the file is wrong")]
    Wrong(u32),
    /// A read failed.
    #[error("a read failed")]
    ReadFault,
}

impl From<Failed> for HeadError {
    ghost from_gives = { λ _ e. e ≡ head.ReadFault };

    fn from(_e: Failed) -> HeadError {
        HeadError::ReadFault
    }
}

/// Why the line behind the file isn't read.
#[derive(Clone, Copy, Debug, PartialEq, Eq, Error)]
pub enum LimitsError {
    /// It isn't such a line, or has no line feed.
    #[error("the line behind the file is wrong")]
    Wrong,
    /// A read failed.
    #[error("a read failed")]
    ReadFault,
}

impl From<Failed> for LimitsError {
    ghost from_gives = { λ _ e. e ≡ limits.ReadFault };

    fn from(_e: Failed) -> LimitsError {
        LimitsError::ReadFault
    }
}
