ghost use Rattle.std.specs.Prelude.{◌≡◌};
ghost use Rattle.abc_objects.specs.declared.error.OpenError.TheVariants as errors;

use abc_base::NoMemory;
use abc_heap_store::Limit;
use thiserror::Error;

/// Why no arena is opened.
#[derive(Clone, Copy, Debug, PartialEq, Eq, Error)]
pub enum OpenError {
    /// Memory ran out.
    #[error("memory ran out")]
    NoMemory,
    /// What every run begins with passes this limit.
    #[error("a limit is below what every run begins with")]
    TooSmall(Limit),
}

impl From<NoMemory> for OpenError {
    ghost from_gives = { λ _ e. e ≡ errors.NoMemory };

    fn from(_e: NoMemory) -> OpenError {
        OpenError::NoMemory
    }
}
