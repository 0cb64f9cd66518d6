ghost use Rattle.std.specs.Prelude.{◌≡◌};
ghost use Rattle.abc_tidy_entries.specs.declared.error.TidyError.TheVariants as errors;
ghost use Rattle.abc_tidy_entries.specs.Rules.{tidy_rule_name};

use abc_base::NoMemory;
use thiserror::Error;

/// What keeps a file from being tidied. The rules are tried in this order.
#[derive(Clone, Copy, Debug, PartialEq, Eq)]
pub enum TidyRule {
    /// An instruction of a body names an entry of a pool that is not there.
    Operand,
    /// A name of a parameter of a method is above the strings.
    ParamName,
    /// A name that is visited reaches itself through the bases and parameters of type names.
    NameCycle,
    /// The tidied file is not spelled by any bytes of at most 2^24.
    TooLarge,
}

impl TidyRule {
    /// The rule's name, as it is shown.
    pub fn name(self) -> &'static str
        ensures { result.now ≡ tidy_rule_name self }
    {
        match self {
            TidyRule::Operand => "Operand",
            TidyRule::ParamName => "ParamName",
            TidyRule::NameCycle => "NameCycle",
            TidyRule::TooLarge => "TooLarge",
        }
    }
}

/// Why a file is not tidied.
#[derive(Clone, Copy, Debug, PartialEq, Eq, Error)]
pub enum TidyError {
    /// A rule is broken. The index is that of a body or of a method, counted from 0, or of a name, counted from 1; it is 0
    /// for TooLarge.
    #[error("the file breaks a rule of tidying")]
    Refused { rule: TidyRule, index: u32 },
    /// Memory ran out.
    #[error("memory ran out")]
    NoMemory,
}

impl From<NoMemory> for TidyError {
    ghost from_gives = { λ _ e. e ≡ errors.NoMemory };

    fn from(_e: NoMemory) -> TidyError {
        TidyError::NoMemory
    }
}
