//! The lines of the pools, and of optional values.
ghost use Rattle.std.specs.Prelude.{◌≡◌, List, []};
ghost use Rattle.abc_text_lines.specs.Lineforms as forms;
ghost use Rattle.abc_text_lines.specs.Lines.{Label};
ghost use Rattle.abc_text_operands.specs.Answers.{AnswersOperand};
ghost use Rattle.abc_text_operands.specs.Joined.{line_result};
ghost use Rattle.abc_text_tokens.specs.Walks.{token_as_text, tokens_of};

use crate::counts::{one_token, two_tokens};
use crate::error::LineError;
use crate::kinds::{space_kind, value_kind};
use crate::numbers::{index_upto, number_below, u30};
use crate::signed::signed_within;
use crate::together::{earlier, two};
use abc_base::Bytes;
use abc_file_types::{Namespace, OptionValue, Sizes, ValueKind};
use abc_text_lines::AsmReason;
use abc_text_tokens::{Token, unquoted};
use std::alloc::Global;

/// A signed number of 32 bits.
pub fn int_line(tokens: &[Token<'_>]) -> Result<i64, AsmReason>
    ensures { (labels : List Label) → result ≡ line_result forms.int_line labels (tokens_of tokens.now) }
{
    match one_token(tokens) {
        Some(token) => signed_within(token, 1 << 31),
        None => Err(AsmReason::Operands),
    }
}

/// A number of 32 bits.
pub fn uint_line(tokens: &[Token<'_>]) -> Result<u32, AsmReason>
    ensures { (labels : List Label) → result ≡ line_result forms.uint_line labels (tokens_of tokens.now) }
{
    match one_token(tokens) {
        Some(token) => number_below(token, 1 << 32),
        None => Err(AsmReason::Operands),
    }
}

/// A string. `LineError::NoMemory` where memory runs out.
pub fn string_line(alloc: Global, tokens: &[Token<'_>]) -> Result<Bytes, LineError>
    ensures { (labels : List Label)
        → AnswersOperand result (line_result forms.string_line labels (tokens_of tokens.now)) }
{
    match one_token(tokens) {
        Some(Token::Quoted(quoted)) => match unquoted(alloc, quoted) {
            Ok(text) => Ok(text),
            Err(_) => Err(LineError::NoMemory),
        },
        Some(Token::Bare(_)) => Err(LineError::Refused(AsmReason::Kind)),
        None => Err(LineError::Refused(AsmReason::Operands)),
    }
}

/// A namespace: its kind and its name.
pub fn namespace_line(tokens: &[Token<'_>], sizes: &Sizes) -> Result<Namespace, AsmReason>
    ensures { (labels : List Label)
        → result ≡ line_result (forms.namespace_line sizes.now) labels (tokens_of tokens.now) }
{
    let Some((kind, name)) = two_tokens(tokens) else {
        return Err(AsmReason::Operands);
    };
    match two(space_kind(kind), index_upto(name, sizes.strings)) {
        Ok((kind, name)) => Ok(Namespace { kind, name }),
        Err(reason) => Err(reason),
    }
}

/// An index into the pool that a kind names, if it names one.
fn value_index(token: Token<'_>, sizes: &Sizes, kind: ValueKind) -> Result<u32, AsmReason>
    ensures { result ≡ (forms.value_index sizes.now kind).reads [] (token_as_text token.entry) }
{
    match u30(token) {
        Ok(value) if sizes.has_value(value, kind) => Ok(value),
        Ok(_) => Err(AsmReason::Index),
        Err(reason) => Err(reason),
    }
}

/// The value of an optional parameter.
pub fn option_line(tokens: &[Token<'_>], sizes: &Sizes) -> Result<OptionValue, AsmReason>
    ensures { (labels : List Label)
        → result ≡ line_result (forms.option_line sizes.now) labels (tokens_of tokens.now) }
{
    let Some((kind, value)) = two_tokens(tokens) else {
        return Err(AsmReason::Operands);
    };
    match value_kind(kind) {
        Ok(kind) => match value_index(value, sizes, kind) {
            Ok(value) => Ok(OptionValue { kind, value }),
            Err(reason) => Err(reason),
        },
        Err(reason) => Err(earlier(reason, u30(value))),
    }
}
