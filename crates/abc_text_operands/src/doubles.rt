//! The lines of doubles.
ghost use Rattle.std.specs.Prelude.{◌≡◌, ◌<◌, ◌+◌, List, [], None, drop, length, MatchOption};
ghost use Rattle.abc_text_lines.specs.Lineforms as forms;
ghost use Rattle.abc_text_operands.specs.Joined.{line_result};
ghost use Rattle.abc_text_lines.specs.Lines.{Label};
ghost use Rattle.abc_text_lines.specs.Operands as operands;
ghost use Rattle.abc_text_tokens.specs.Walks.{token_as_text, tokens_of};

use crate::counts::one_token;
use abc_file_types::Eight;
use abc_text_lines::AsmReason;
use abc_text_tokens::{Token, hex_pair, is_hex};

/// The byte of the two hexadecimal digits at a place of a word, or `None` where there are none.
#[tactic(auto, using(crate::proofs::Hexing::hex_next, crate::proofs::Hexing::hex_high, crate::proofs::Hexing::hex_low))]
fn byte_at(word: &[u8], place: usize) -> Option<u8>
    requires { place + 1 < length word.now }
    ensures { MatchOption result (operands.hex_bytes (drop place word.now) ≡ None)
        (λ byte. operands.hex_bytes (drop place word.now)
        ≡ operands.more_hex byte (operands.hex_bytes (drop (place + 2) word.now))) }
{
    let high = word[place];
    let low = word[place + 1];
    if !is_hex(high) {
        return None;
    }
    if !is_hex(low) {
        return None;
    }
    Some(hex_pair(high, low))
}

/// The bytes of 16 hexadecimal digits.
#[tactic(auto, using(crate::proofs::Hexing::short_word, crate::proofs::Hexing::no_bytes))]
fn eight_bytes(word: &[u8]) -> Result<[u8; 8], AsmReason>
    ensures { result ≡ operands.eight_in (operands.hex_bytes word.now) }
{
    if word.len() != 16 {
        return Err(AsmReason::Kind);
    }
    let mut bytes = [0; 8];
    for i in 0..8 {
        match byte_at(word, 2 * i) {
            Some(byte) => bytes[i] = byte,
            None => return Err(AsmReason::Kind),
        }
    }
    Ok(bytes)
}

/// The bytes of a token that is 16 hexadecimal digits.
#[tactic(auto, unfolding(abc_text_lines::specs::Operands::eight))]
fn eight(token: Token<'_>) -> Result<[u8; 8], AsmReason>
    ensures { result ≡ operands.eight.reads [] (token_as_text token.entry) }
{
    match token {
        Token::Bare(word) => eight_bytes(word),
        Token::Quoted(_) => Err(AsmReason::Kind),
    }
}

/// The eight bytes of a double, as 16 hexadecimal digits.
pub fn double_line(tokens: &[Token<'_>]) -> Result<Eight, AsmReason>
    ensures { (labels : List Label) → result ≡ line_result forms.double_line labels (tokens_of tokens.now) }
{
    let Some(token) = one_token(tokens) else {
        return Err(AsmReason::Operands);
    };
    match eight(token) {
        Ok(bytes) => Ok(Eight(bytes)),
        Err(reason) => Err(reason),
    }
}
