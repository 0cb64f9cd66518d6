//! The values of slots.
ghost use Rattle.std.specs.Prelude.{◌≡◌, List, [], Some};
ghost use Rattle.abc_text_lines.specs.Lineforms as forms;
ghost use Rattle.abc_text_operands.specs.Joined.{line_result, map_operand};
ghost use Rattle.abc_text_lines.specs.Lines.{Label};
ghost use Rattle.abc_file_types.specs.declared.tables.Sizes.{Sizes as TableSizes};
ghost use Rattle.abc_text_tokens.specs.Walks.{token_as_text, tokens_of};
ghost use Rattle.abc_text_operands.specs.Numbered.{unknown_value};

use crate::counts::one_token;
use crate::fronts::first_and_rest;
use crate::kinds::value_kind;
use crate::numbers::u30;
use crate::together::earlier;
use abc_file_types::{OptionValue, Sizes, ValueKind};
use abc_text_lines::AsmReason;
use abc_text_tokens::Token;

/// The value of a slot: an index, and a kind unless that is 0.
pub fn slot_value(fields: &[Token<'_>], sizes: &Sizes) -> Result<Option<OptionValue>, AsmReason>
    ensures { (labels : List Label)
        → result ≡ line_result (forms.slot_value_operand sizes.now) labels (tokens_of fields.now) }
{
    let Some((index, kinds)) = first_and_rest(fields) else {
        return Err(AsmReason::Operands);
    };
    match u30(index) {
        Ok(value) => known(value, kinds, sizes),
        Err(reason) => Err(unknown(reason, kinds)),
    }
}

/// A value of a known index.
fn known(value: u32, kinds: &[Token<'_>], sizes: &Sizes) -> Result<Option<OptionValue>, AsmReason>
    ensures { (labels : List Label)
        → result
        ≡ map_operand (λ o. forms.slot_value_of_parts (value, o))
        (line_result (forms.slot_rest sizes.now (Some value)) labels (tokens_of kinds.now)) }
{
    if value == 0 {
        return no_value(kinds);
    }
    let Some(kind) = one_token(kinds) else {
        return Err(AsmReason::Operands);
    };
    match slot_kind(kind, value, sizes) {
        Ok(kind) => Ok(Some(OptionValue { kind, value })),
        Err(reason) => Err(reason),
    }
}

/// No value, behind which no kind stands.
fn no_value(kinds: &[Token<'_>]) -> Result<Option<OptionValue>, AsmReason>
    ensures { (labels : List Label) (v : TableSizes)
        → result
        ≡ map_operand (λ o. forms.slot_value_of_parts (0, o))
        (line_result (forms.slot_rest v (Some 0)) labels (tokens_of kinds.now)) }
{
    if kinds.is_empty() {
        Ok(None)
    } else {
        Err(AsmReason::Operands)
    }
}

/// The kind of a value, whose pool has the entry of the index.
fn slot_kind(token: Token<'_>, value: u32, sizes: &Sizes) -> Result<ValueKind, AsmReason>
    ensures { result ≡ (forms.slot_kind_operand sizes.now value).reads [] (token_as_text token.entry) }
{
    match value_kind(token) {
        Ok(kind) if sizes.has_value(value, kind) => Ok(kind),
        Ok(_) => Err(AsmReason::Index),
        Err(reason) => Err(reason),
    }
}

/// The first reason of an index and of the kind behind it.
fn unknown(reason: AsmReason, kinds: &[Token<'_>]) -> AsmReason
    ensures { (labels : List Label) → result ≡ unknown_value reason labels (tokens_of kinds.now) }
{
    match one_token(kinds) {
        Some(token) => earlier(reason, value_kind(token)),
        None => AsmReason::Operands,
    }
}
