ghost use Rattle.std.specs.Prelude.{◌≡◌};
ghost use Rattle.abc_link_names.specs.declared.error.LinkError.TheVariants as errors;

use crate::items::{Item, LinkRule};
use abc_base::NoMemory;
use thiserror::Error;

/// Why a file is not linked.
#[derive(Clone, Copy, Debug, PartialEq, Eq, Error)]
pub enum LinkError {
    /// An item breaks a rule.
    #[error("the file breaks a rule of linking")]
    Refused { rule: LinkRule, item: Item },
    /// Memory ran out.
    #[error("memory ran out")]
    NoMemory,
}

impl From<NoMemory> for LinkError {
    ghost from_gives = { λ _ e. e ≡ errors.NoMemory };

    fn from(_e: NoMemory) -> LinkError {
        LinkError::NoMemory
    }
}
