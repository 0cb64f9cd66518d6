ghost use Rattle.std.specs.Prelude.{◌≡◌};
ghost use Rattle.abc_replay.specs.Names.{replay_reason_name};
ghost use Rattle.abc_replay.specs.Prefaces.{error_of_head, error_of_part};
ghost use Rattle.abc_replay.specs.Replays.{error_of};
ghost use Rattle.abc_replay.specs.declared.error.ReplayError.TheVariants as errors;

use abc_base::NoMemory;
use abc_file_types::Reason;
use abc_link_names::{Item, LinkRule};
use abc_log::{HeadError, PartError};
use abc_verify::VerifiedError;
use abc_verify_typing::VerifyRule;
use thiserror::Error;

/// What is wrong with an input at a place.
#[derive(Clone, Copy, Debug, PartialEq, Eq)]
pub enum ReplayReason {
    /// The bytes of the file are no file.
    File(Reason),
    /// The line before the file, which states its length.
    LogHead,
    /// The line behind the file, which states the fuel and the limits.
    LogLimits,
    /// The rest is not the log of the file.
    LogDiffers,
}

impl ReplayReason {
    /// The reason's name, as error lines show it.
    pub fn name(&self) -> &[u8]
        ensures { result.now ≡ replay_reason_name self.now }
    {
        match self {
            ReplayReason::File(reason) => reason.name(),
            ReplayReason::LogHead => b"LogHead",
            ReplayReason::LogLimits => b"LogLimits",
            ReplayReason::LogDiffers => b"LogDiffers",
        }
    }
}

/// Why an input is not replayed.
#[derive(Clone, Copy, Debug, Error)]
pub enum ReplayError {
    /// It is no log: the place of the first byte that is wrong, missing or too much, and why. The place stands still at 2^64 - 1.
    #[error("the log is refused")]
    Refused {
        place: u64,
        reason: ReplayReason,
    },
    /// Its file breaks a rule of linking.
    #[error("the file breaks a rule of linking")]
    Link {
        rule: LinkRule,
        item: Item,
    },
    /// A method of its file breaks a rule of verifying, at an offset in its code as it was read.
    #[error("a method has no typing")]
    Verify {
        method: u32,
        offset: u32,
        rule: VerifyRule,
    },
    /// A read failed.
    #[error("a read failed")]
    ReadFault,
    /// Memory ran out.
    #[error("memory ran out")]
    NoMemory,
}

impl From<VerifiedError> for ReplayError {
    ghost from_gives = { λ e f. f ≡ error_of e };

    #[tactic(auto, unfolding(crate::specs::Replays::error_of))]
    fn from(e: VerifiedError) -> ReplayError {
        match e {
            VerifiedError::Refused { place, reason } => ReplayError::Refused {
                place: 9 + u64::from(place),
                reason: ReplayReason::File(reason),
            },
            VerifiedError::Link { rule, item } => ReplayError::Link { rule, item },
            VerifiedError::Verify {
                method,
                offset,
                rule,
            } => ReplayError::Verify {
                method,
                offset,
                rule,
            },
            VerifiedError::ReadFault => ReplayError::ReadFault,
            VerifiedError::NoMemory => ReplayError::NoMemory,
        }
    }
}

impl From<HeadError> for ReplayError {
    ghost from_gives = { λ e f. f ≡ error_of_head e };

    fn from(e: HeadError) -> ReplayError {
        match e {
            HeadError::Wrong(place) => ReplayError::Refused {
                place: u64::from(place),
                reason: ReplayReason::LogHead,
            },
            HeadError::ReadFault => ReplayError::ReadFault,
        }
    }
}

impl From<PartError> for ReplayError {
    ghost from_gives = { λ e f. f ≡ error_of_part e };

    fn from(e: PartError) -> ReplayError {
        match e {
            PartError::ReadFault => ReplayError::ReadFault,
            PartError::NoMemory => ReplayError::NoMemory,
        }
    }
}

impl From<NoMemory> for ReplayError {
    ghost from_gives = { λ _ e. e ≡ errors.NoMemory };

    fn from(_e: NoMemory) -> ReplayError {
        ReplayError::NoMemory
    }
}
