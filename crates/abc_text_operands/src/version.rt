//! The line of the version.
ghost use Rattle.std.specs.Prelude.{◌≡◌, List, []};
ghost use Rattle.abc_text_lines.specs.Lineforms as forms;
ghost use Rattle.abc_text_operands.specs.Joined.{line_result, map_operand};
ghost use Rattle.abc_text_operands.specs.Otherlines.{as_version};
ghost use Rattle.abc_text_lines.specs.Lines.{Label};
ghost use Rattle.abc_text_lines.specs.Operands as operands;
ghost use Rattle.abc_text_tokens.specs.Walks.{token_as_text, tokens_of};

use crate::counts::two_tokens;
use crate::numbers::number_below;
use crate::together::two;
use abc_text_lines::AsmReason;
use abc_text_tokens::Token;

/// That number, and no other.
#[tactic(auto, using(crate::proofs::Exact::exact_in, crate::proofs::Exact::exact_out, crate::proofs::Exact::exact_bad))]
fn exactly(token: Token<'_>, number: u32) -> Result<u32, AsmReason>
    ensures { result ≡ (operands.exactly number).reads [] (token_as_text token.entry) }
{
    match number_below(token, u64::from(number) + 1) {
        Ok(read) => {
            if read == number {
                Ok(read)
            } else {
                Err(AsmReason::Range)
            }
        }
        Err(reason) => Err(reason),
    }
}

/// The version: its minor number, which is 16, and its major number, which is 46.
pub fn version_line(tokens: &[Token<'_>]) -> Result<(u32, u32), AsmReason>
    ensures { (labels : List Label)
        → map_operand as_version result ≡ line_result forms.version_line labels (tokens_of tokens.now) }
{
    match two_tokens(tokens) {
        Some((minor, major)) => two(exactly(minor, 16), exactly(major, 46)),
        None => Err(AsmReason::Operands),
    }
}
