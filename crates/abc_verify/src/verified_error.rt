ghost use Rattle.std.specs.Prelude.{◌≡◌};
ghost use Rattle.abc_verify.specs.FileRefusing.{error_of_link, error_of_read};

use abc_file_types::Reason;
use abc_link_names::{Item, LinkError, LinkRule};
use abc_varint::ReadError;
use abc_verify_typing::VerifyRule;
use thiserror::Error;

/// Why an input gives no verified file.
#[derive(Clone, Copy, Debug, Error)]
pub enum VerifiedError {
    /// The input is no file.
    #[error("the file is refused")]
    Refused {
        place: u32,
        reason: Reason,
    },
    /// The file breaks a rule of linking.
    #[error("the file breaks a rule of linking")]
    Link {
        rule: LinkRule,
        item: Item,
    },
    /// A method breaks a rule of verifying, at an offset in its code as it was read.
    #[error("a method has no typing")]
    Verify {
        method: u32,
        offset: u32,
        rule: VerifyRule,
    },
    /// A read failed.
    #[error("a read failed")]
    ReadFault,
    /// Memory ran out.
    #[error("memory ran out")]
    NoMemory,
}

impl From<ReadError> for VerifiedError {
    ghost from_gives = { λ e f. f ≡ error_of_read e };

    fn from(e: ReadError) -> VerifiedError {
        match e {
            ReadError::Refused { place, reason } => VerifiedError::Refused { place, reason },
            ReadError::ReadFault => VerifiedError::ReadFault,
            ReadError::NoMemory => VerifiedError::NoMemory,
        }
    }
}

impl From<LinkError> for VerifiedError {
    ghost from_gives = { λ e f. f ≡ error_of_link e };

    fn from(e: LinkError) -> VerifiedError {
        match e {
            LinkError::Refused { rule, item } => VerifiedError::Link { rule, item },
            LinkError::NoMemory => VerifiedError::NoMemory,
        }
    }
}
