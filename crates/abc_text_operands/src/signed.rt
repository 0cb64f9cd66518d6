//! Numbers that may be below 0.
ghost use Rattle.std.specs.Prelude.{◌≡◌, ◌<◌, ◌≤◌, ◌^◌, ◌-◌, ◌≤ℤ◌, negsuc, pos, [], Ok, Err, IfOk, if◌then◌else◌};
ghost use Rattle.abc_text_lines.specs.declared.reason.AsmReason.TheVariants as reasons;
ghost use Rattle.abc_text_lines.specs.Operands.{is_numeral, negative, number_of_digits};
ghost use Rattle.abc_text_lines.specs.Operands as operands;
ghost use Rattle.abc_text_operands.specs.Signed.{in_signed_range};
ghost use Rattle.abc_text_tokens.specs.Walks.{token_as_text};

use crate::numbers::numeral;
use abc_text_lines::AsmReason;
use abc_text_tokens::Token;

/// A number from -`limit` to `limit` - 1, with `-` where it is below 0. `-0` is no number.
#[tactic(auto, unfolding(abc_text_lines::specs::Operands::any_signed), using(crate::proofs::Signs::plain_is, crate::proofs::Signs::minus_is))]
pub fn signed_within(token: Token<'_>, limit: u32) -> Result<i64, AsmReason>
    requires some { 0 < limit }
    requires wide { limit ≤ 2 ^ 31 }
    ensures { result
        ≡ (operands.signed_between (negsuc (limit - 1)) (pos (limit - 1))).reads []
        (token_as_text token.entry) }
{
    let Token::Bare(word) = token else {
        return Err(AsmReason::Number);
    };
    if word.is_empty() {
        return Err(AsmReason::Number);
    }
    if word[0] == b'-' {
        negative_from(&word[1..], limit)
    } else {
        plain_below(word, limit)
    }
}

/// A number that isn't below 0.
#[tactic(auto, using(crate::proofs::Signs::no_number, crate::proofs::Signs::plain_in, crate::proofs::Signs::plain_out))]
fn plain_below(word: &[u8], limit: u32) -> Result<i64, AsmReason>
    requires some { 0 < limit }
    requires wide { limit ≤ 2 ^ 31 }
    ensures { result
        ≡ in_signed_range limit
        (if is_numeral word.now then Ok (pos (number_of_digits word.now)) else Err reasons.Number) }
{
    match numeral(word) {
        None => Err(AsmReason::Number),
        Some(number) => {
            if number < u64::from(limit) {
                Ok(number as i64)
            } else {
                Err(AsmReason::Range)
            }
        }
    }
}

/// The number below 0 whose digits stand behind a `-`.
#[tactic(auto, using(crate::proofs::Signs::no_number, crate::proofs::Signs::negative_in, crate::proofs::Signs::negative_out, crate::proofs::Signs::negative_none))]
fn negative_from(digits: &[u8], limit: u32) -> Result<i64, AsmReason>
    requires some { 0 < limit }
    requires wide { limit ≤ 2 ^ 31 }
    ensures { result
        ≡ in_signed_range limit
        (if is_numeral digits.now then negative (number_of_digits digits.now) else Err reasons.Number) }
{
    match numeral(digits) {
        None => Err(AsmReason::Number),
        Some(number) => {
            if number == 0 {
                Err(AsmReason::Number)
            } else if number <= u64::from(limit) {
                Ok(-1 - (number as i64 - 1))
            } else {
                Err(AsmReason::Range)
            }
        }
    }
}
