ghost use Rattle.std.specs.Prelude.{◌≡◌};
ghost use Rattle.abc_cli_answers.specs.Stops.{stop_of_asm, stop_of_input, stop_of_read, stop_of_tidy, stop_of_verified};
ghost use Rattle.abc_cli_answers.specs.declared.stop.Stop.TheVariants as stops;

use abc_base::{InputError, NoMemory};
use abc_file_types::Reason;
use abc_link_names::{Item, LinkRule};
use abc_text_lines::AsmReason;
use abc_text_reader::AsmError;
use abc_tidy_entries::{TidyError, TidyRule};
use abc_varint::ReadError;
use abc_verify::VerifiedError;
use abc_verify_typing::VerifyRule;
use thiserror::Error;

/// Why a command gives no bytes.
#[derive(Clone, Copy, Debug, Error)]
pub enum Stop {
    /// The input is no file.
    #[error("the file is refused")]
    File {
        place: u32,
        reason: Reason,
    },
    /// The input is no assembly text.
    #[error("the text is refused")]
    Text {
        line: u32,
        reason: AsmReason,
    },
    /// The file breaks a rule of linking.
    #[error("the file breaks a rule of linking")]
    Item {
        item: Item,
        rule: LinkRule,
    },
    /// A method breaks a rule of verifying, at an offset in its code as it was read.
    #[error("a method has no typing")]
    Code {
        method: u32,
        offset: u32,
        rule: VerifyRule,
    },
    /// The file breaks a rule of tidying, at a body, a method or a name.
    #[error("the file breaks a rule of tidying")]
    Tidy {
        rule: TidyRule,
        index: u32,
    },
    /// A read failed.
    #[error("a read failed")]
    ReadFault,
    /// Memory ran out.
    #[error("memory ran out")]
    NoMemory,
}

impl From<ReadError> for Stop {
    ghost from_gives = { λ e stop. stop ≡ stop_of_read e };

    fn from(e: ReadError) -> Stop {
        match e {
            ReadError::Refused { place, reason } => Stop::File { place, reason },
            ReadError::ReadFault => Stop::ReadFault,
            ReadError::NoMemory => Stop::NoMemory,
        }
    }
}

impl From<AsmError> for Stop {
    ghost from_gives = { λ e stop. stop ≡ stop_of_asm e };

    fn from(e: AsmError) -> Stop {
        match e {
            AsmError::Refused { line, reason } => Stop::Text { line, reason },
            AsmError::NoMemory => Stop::NoMemory,
        }
    }
}

impl From<InputError> for Stop {
    ghost from_gives = { λ e stop. stop ≡ stop_of_input e };

    fn from(e: InputError) -> Stop {
        match e {
            InputError::TooLong => Stop::Text {
                line: 0,
                reason: AsmReason::TextTooLong,
            },
            InputError::ReadFault => Stop::ReadFault,
            InputError::NoMemory => Stop::NoMemory,
        }
    }
}

impl From<VerifiedError> for Stop {
    ghost from_gives = { λ e stop. stop ≡ stop_of_verified e };

    fn from(e: VerifiedError) -> Stop {
        match e {
            VerifiedError::Refused { place, reason } => Stop::File { place, reason },
            VerifiedError::Link { rule, item } => Stop::Item { item, rule },
            VerifiedError::Verify {
                method,
                offset,
                rule,
            } => Stop::Code {
                method,
                offset,
                rule,
            },
            VerifiedError::ReadFault => Stop::ReadFault,
            VerifiedError::NoMemory => Stop::NoMemory,
        }
    }
}

impl From<TidyError> for Stop {
    ghost from_gives = { λ e stop. stop ≡ stop_of_tidy e };

    fn from(e: TidyError) -> Stop {
        match e {
            TidyError::Refused { rule, index } => Stop::Tidy { rule, index },
            TidyError::NoMemory => Stop::NoMemory,
        }
    }
}

impl From<NoMemory> for Stop {
    ghost from_gives = { λ _ stop. stop ≡ stops.NoMemory };

    fn from(_e: NoMemory) -> Stop {
        Stop::NoMemory
    }
}
