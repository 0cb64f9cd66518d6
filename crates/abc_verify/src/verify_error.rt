use abc_base::NoMemory;
use abc_verify_typing::VerifyRule;
use thiserror::Error;

/// Why a linked file isn't verified.
#[derive(Clone, Copy, Debug, PartialEq, Eq, Error)]
pub enum VerifyError {
    /// A method has no typing: the first such method, by its number, its body, and a place in the code where a state that
    /// can be derived breaks the rule.
    #[error("a method has no typing")]
    Refused {
        method: u32,
        body: u32,
        index: u32,
        rule: VerifyRule,
    },
    /// Memory ran out.
    #[error("memory ran out")]
    NoMemory,
}

impl From<NoMemory> for VerifyError {
    ghost use Rattle.abc_verify.specs.declared.verify_error.VerifyError.TheVariants as errors;
    ghost use Rattle.std.specs.Prelude.{◌≡◌};

    ghost from_gives = { λ _ e. e ≡ errors.NoMemory };

    fn from(_e: NoMemory) -> VerifyError {
        VerifyError::NoMemory
    }
}
