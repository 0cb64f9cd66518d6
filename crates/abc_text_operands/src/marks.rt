//! The flags and the attributes of a line, whatever its other operands are: 0 where they have a fault.
ghost use Rattle.std.specs.Prelude.{◌≡◌, List, []};
ghost use Rattle.abc_text_lines.specs.Lineforms as forms;
ghost use Rattle.abc_text_operands.specs.Otherlines.{attrs_in, flags_in};
ghost use Rattle.abc_text_lines.specs.Lines.{Label};
ghost use Rattle.abc_text_lines.specs.Operands as operands;
ghost use Rattle.abc_file_types.specs.declared.tables.Sizes.{Sizes as TableSizes};
ghost use Rattle.abc_text_tokens.specs.Walks.{token_as_text, tokens_of};

use crate::kinds::trait_kind;
use crate::numbers::{byte, number_below};
use abc_text_tokens::Token;

/// The flags of a method's or an instance's line, 0 where there are none.
pub fn flags_of(tokens: &[Token<'_>]) -> u8
    ensures of_method { (v : TableSizes) (labels : List Label)
        → result ≡ ((forms.method_line v).value labels (tokens_of tokens.now)).flags }
    ensures of_instance { (v : TableSizes) (labels : List Label)
        → result ≡ ((forms.instance_line v).value labels (tokens_of tokens.now)).flags }
{
    third_or_zero(tokens)
}

/// The third operand, or 0 where there is none below 256.
#[tactic(auto, using(crate::proofs::Marking::flags_few, crate::proofs::Marking::flags_third, crate::proofs::Marking::flags_fault))]
fn third_or_zero(tokens: &[Token<'_>]) -> u8
    ensures { result ≡ flags_in (tokens_of tokens.now) }
{
    if tokens.len() < 3 {
        return 0;
    }
    match byte(tokens[2]) {
        Ok(flags) => flags,
        Err(_) => 0,
    }
}

/// The attributes of a trait's line, 0 where there are none.
pub fn attrs_of(tokens: &[Token<'_>]) -> u8
    ensures { (v : TableSizes) (labels : List Label)
        → result ≡ ((forms.trait_line v).value labels (tokens_of tokens.now)).attrs }
{
    second_or_zero(tokens)
}

/// The second operand behind a kind of trait, or 0 where there is none below 16.
#[tactic(auto, using(crate::proofs::Marking::attrs_few, crate::proofs::Marking::attrs_known, crate::proofs::Marking::attrs_unknown))]
fn second_or_zero(tokens: &[Token<'_>]) -> u8
    ensures { result ≡ attrs_in (tokens_of tokens.now) }
{
    if tokens.len() < 2 {
        return 0;
    }
    match trait_kind(tokens[0]) {
        Ok(_) => below_16(tokens[1]),
        Err(_) => 0,
    }
}

/// A number below 16, or 0 for any other token.
fn below_16(token: Token<'_>) -> u8
    ensures { result ≡ operands.value_or ((operands.number_below 16).reads [] (token_as_text token.entry)) 0 }
{
    match number_below(token, 16) {
        Ok(number) => number as u8,
        Err(_) => 0,
    }
}
