ghost use Rattle.std.specs.Prelude.{◌≡◌, ◌∷◌, [], MatchOption};
ghost use Rattle.abc_text_operands.specs.Answers.{AnswersOperand};

use crate::error::LineError;
use abc_text_lines::AsmReason;
use abc_text_tokens::Token;

/// The first token and the others.
pub fn first_and_rest<'t, 'a>(tokens: &'t [Token<'a>]) -> Option<(Token<'a>, &'t [Token<'a>])>
    ensures { MatchOption result (tokens.now ≡ []) (λ x. tokens.now ≡ x.0 ∷ x.1.now) }
{
    if tokens.is_empty() {
        return None;
    }
    Some((tokens[0], &tokens[1..]))
}

/// A value that takes no memory.
pub fn told<T: Drop>(value: Result<T, AsmReason>) -> Result<T, LineError>
    ensures { AnswersOperand result value }
{
    match value {
        Ok(value) => Ok(value),
        Err(reason) => Err(LineError::Refused(reason)),
    }
}
