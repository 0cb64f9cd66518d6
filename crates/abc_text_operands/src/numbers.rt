ghost use Rattle.std.specs.Prelude.{◌≡◌, ◌^◌, ◌≤◌, [], min, MatchOption, true, false};
ghost use Rattle.abc_text_lines.specs.Operands.{is_numeral, number_of_digits};
ghost use Rattle.abc_text_lines.specs.Operands as operands;
ghost use Rattle.abc_text_tokens.specs.Walks.{token_as_text};

use abc_text_lines::AsmReason;
use abc_text_tokens::Token;

/// No number from here on is in the range of a field.
const TOO_GREAT: u64 = 1 << 40;

/// The number that a numeral stands for, or one that is too great for any field; `None` for a word that is no numeral.
pub fn numeral(word: &[u8]) -> Option<u64>
    ensures { MatchOption result (is_numeral word.now ≡ false)
        (λ n. (is_numeral word.now ≡ true) × (n ≡ min (number_of_digits word.now) (2 ^ 40))) }
{
    if word.is_empty() || (word[0] == b'0' && word.len() > 1) {
        return None;
    }
    let mut number: u64 = 0;
    for digit in word {
        if *digit < b'0' || *digit > b'9' {
            return None;
        }
        number = (number * 10 + u64::from(*digit - b'0')).min(TOO_GREAT);
    }
    Some(number)
}

/// A number below a bound.
#[tactic(auto, unfolding(abc_text_lines::specs::Operands::any_number))]
pub fn number_below(token: Token<'_>, bound: u64) -> Result<u32, AsmReason>
    requires { bound ≤ 2 ^ 32 }
    ensures { result ≡ (operands.number_below bound).reads [] (token_as_text token.entry) }
{
    let Token::Bare(word) = token else {
        return Err(AsmReason::Number);
    };
    match numeral(word) {
        None => Err(AsmReason::Number),
        Some(number) => {
            if number < bound {
                Ok(number as u32)
            } else {
                Err(AsmReason::Range)
            }
        }
    }
}

/// A number below 256.
pub fn byte(token: Token<'_>) -> Result<u8, AsmReason>
    ensures { result ≡ (operands.number_below 256).reads [] (token_as_text token.entry) }
{
    match number_below(token, 256) {
        Ok(number) => Ok(number as u8),
        Err(reason) => Err(reason),
    }
}

/// A number below 2^30.
pub fn u30(token: Token<'_>) -> Result<u32, AsmReason>
    ensures { result ≡ operands.u30_operand.reads [] (token_as_text token.entry) }
{
    number_below(token, 1 << 30)
}

/// An index into a table of that many entries that counts from 1, or 0.
pub fn index_upto(token: Token<'_>, size: u32) -> Result<u32, AsmReason>
    ensures { result ≡ (operands.index_upto size).reads [] (token_as_text token.entry) }
{
    match u30(token) {
        Ok(index) if index <= size => Ok(index),
        Ok(_) => Err(AsmReason::Index),
        Err(reason) => Err(reason),
    }
}

/// An index into such a table that isn't 0.
pub fn entry_upto(token: Token<'_>, size: u32) -> Result<u32, AsmReason>
    ensures { result ≡ (operands.entry_upto size).reads [] (token_as_text token.entry) }
{
    match u30(token) {
        Ok(index) if 0 < index && index <= size => Ok(index),
        Ok(_) => Err(AsmReason::Index),
        Err(reason) => Err(reason),
    }
}

/// An index into a table of that many entries that counts from 0.
pub fn index_below(token: Token<'_>, size: u32) -> Result<u32, AsmReason>
    ensures { result ≡ (operands.index_operand_below size).reads [] (token_as_text token.entry) }
{
    match u30(token) {
        Ok(index) if index < size => Ok(index),
        Ok(_) => Err(AsmReason::Index),
        Err(reason) => Err(reason),
    }
}
