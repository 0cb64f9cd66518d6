ghost use Rattle.std.specs.Prelude.{◌≡◌};
ghost use Rattle.abc_base.specs.declared.input_error.InputError.TheVariants as errors;

use crate::source::Failed;
use std::alloc::AllocError;
use thiserror::Error;

/// Why an input isn't held.
#[derive(Clone, Copy, Debug, PartialEq, Eq, Error)]
pub enum InputError {
    /// It has more bytes than may be held.
    #[error("the input is too long")]
    TooLong,
    /// A read failed.
    #[error("a read failed")]
    ReadFault,
    /// Memory ran out.
    #[error("memory ran out")]
    NoMemory,
}

impl From<Failed> for InputError {
    ghost from_gives = { λ _ e. e ≡ errors.ReadFault };

    fn from(_e: Failed) -> InputError {
        InputError::ReadFault
    }
}

impl From<AllocError> for InputError {
    ghost from_gives = { λ _ e. e ≡ errors.NoMemory };

    fn from(_e: AllocError) -> InputError {
        InputError::NoMemory
    }
}
