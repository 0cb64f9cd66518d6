//! The lines of traits.
ghost use Rattle.std.specs.Prelude.{◌≡◌, List, [], Some, true};
ghost use Rattle.abc_text_lines.specs.Lineforms as forms;
ghost use Rattle.abc_text_operands.specs.Joined.{line_result, map_operand};
ghost use Rattle.abc_text_lines.specs.Lines.{Label};
ghost use Rattle.abc_text_lines.specs.Operands as operands;
ghost use Rattle.abc_text_tokens.specs.Walks.{token_as_text, tokens_of};
ghost use Rattle.abc_text_operands.specs.Traited.{as_trait};
ghost use Rattle.abc_text_operands.specs.Numbered.{numbered_trait, is_numbered, pair_result, size_of_table, slot_kind_of};

use crate::counts::two_tokens;
use crate::fronts::first_and_rest;
use crate::kinds::trait_kind;
use crate::numbers::{entry_upto, index_below, index_upto, number_below, u30};
use crate::slots::slot_value;
use crate::together::two;
use abc_file_types::{Sizes, TraitBody, TraitKind};
use abc_text_lines::AsmReason;
use abc_text_tokens::Token;

/// A trait without the lines below it.
#[derive(Clone, Copy, Debug)]
pub struct TraitHead {
    pub attrs: u8,
    pub name: u32,
    pub body: TraitBody,
}

/// A trait: its kind, its attributes, its name, and what the kind asks for.
pub fn trait_line(tokens: &[Token<'_>], sizes: &Sizes) -> Result<TraitHead, AsmReason>
    ensures { (labels : List Label)
        → map_operand as_trait result
        ≡ line_result (forms.trait_line sizes.now) labels (tokens_of tokens.now) }
{
    let Some((kind, fields)) = first_and_rest(tokens) else {
        return Err(AsmReason::Operands);
    };
    match trait_kind(kind) {
        Ok(kind) => named(kind, fields, sizes),
        Err(reason) => Err(reason),
    }
}

/// The attributes, the name, and what the kind asks for.
fn named(kind: TraitKind, fields: &[Token<'_>], sizes: &Sizes) -> Result<TraitHead, AsmReason>
    ensures { (labels : List Label)
        → map_operand as_trait result
        ≡ line_result (forms.trait_rest sizes.now (Some kind)) labels (tokens_of fields.now) }
{
    let Some((attrs, others)) = first_and_rest(fields) else {
        return Err(AsmReason::Operands);
    };
    let Some((name, others)) = first_and_rest(others) else {
        return Err(AsmReason::Operands);
    };
    let attrs = small(attrs);
    let last = two(entry_upto(name, sizes.names), body(kind, others, sizes));
    match two(attrs, last) {
        Ok((attrs, (name, body))) => Ok(TraitHead { attrs, name, body }),
        Err(reason) => Err(reason),
    }
}

/// A number below 16.
fn small(token: Token<'_>) -> Result<u8, AsmReason>
    ensures { result ≡ (operands.number_below 16).reads [] (token_as_text token.entry) }
{
    match number_below(token, 16) {
        Ok(number) => Ok(number as u8),
        Err(reason) => Err(reason),
    }
}

/// What a trait declares.
fn body(kind: TraitKind, fields: &[Token<'_>], sizes: &Sizes) -> Result<TraitBody, AsmReason>
    ensures { (labels : List Label)
        → result ≡ line_result (forms.trait_operands sizes.now kind) labels (tokens_of fields.now) }
{
    match kind {
        TraitKind::Slot => slot(fields, sizes, false),
        TraitKind::Const => slot(fields, sizes, true),
        TraitKind::Method => numbered(TraitKind::Method, fields, sizes),
        TraitKind::Getter => numbered(TraitKind::Getter, fields, sizes),
        TraitKind::Setter => numbered(TraitKind::Setter, fields, sizes),
        TraitKind::Class => numbered(TraitKind::Class, fields, sizes),
        TraitKind::Function => numbered(TraitKind::Function, fields, sizes),
    }
}

/// A slot or a constant: its position, its type, and its value.
fn slot(fields: &[Token<'_>], sizes: &Sizes, constant: bool) -> Result<TraitBody, AsmReason>
    ensures { (labels : List Label)
        → result
        ≡ line_result (forms.trait_operands sizes.now (slot_kind_of constant)) labels
        (tokens_of fields.now) }
{
    let Some((id, others)) = first_and_rest(fields) else {
        return Err(AsmReason::Operands);
    };
    let Some((ty, others)) = first_and_rest(others) else {
        return Err(AsmReason::Operands);
    };
    let id = u30(id);
    let ty = index_upto(ty, sizes.names);
    let last = two(ty, slot_value(others, sizes));
    match two(id, last) {
        Ok((id, (ty, value))) => Ok(TraitBody::Slot {
            id,
            ty,
            value,
            constant,
        }),
        Err(reason) => Err(reason),
    }
}

/// A trait of a number and an index.
fn numbered(kind: TraitKind, fields: &[Token<'_>], sizes: &Sizes) -> Result<TraitBody, AsmReason>
    requires { is_numbered kind ≡ true }
    ensures { (labels : List Label)
        → result ≡ line_result (forms.trait_operands sizes.now kind) labels (tokens_of fields.now) }
{
    match pair(fields, size_of(kind, sizes)) {
        Ok((number, index)) => Ok(made(kind, number, index)),
        Err(reason) => Err(reason),
    }
}

/// A number, and an index into a table of that many entries.
fn pair(fields: &[Token<'_>], size: u32) -> Result<(u32, u32), AsmReason>
    ensures { (labels : List Label) → result ≡ pair_result size labels (tokens_of fields.now) }
{
    match two_tokens(fields) {
        Some((number, index)) => two(u30(number), index_below(index, size)),
        None => Err(AsmReason::Operands),
    }
}

/// How many entries the table has that a trait's index is of.
fn size_of(kind: TraitKind, sizes: &Sizes) -> u32
    ensures { result ≡ size_of_table sizes.now kind }
{
    match kind {
        TraitKind::Class => sizes.classes,
        _ => sizes.methods,
    }
}

fn made(kind: TraitKind, number: u32, index: u32) -> TraitBody
    ensures { result ≡ numbered_trait kind number index }
{
    match kind {
        TraitKind::Getter => TraitBody::Getter {
            disp: number,
            method: index,
        },
        TraitKind::Setter => TraitBody::Setter {
            disp: number,
            method: index,
        },
        TraitKind::Class => TraitBody::Class {
            id: number,
            class: index,
        },
        TraitKind::Function => TraitBody::Function {
            id: number,
            method: index,
        },
        _ => TraitBody::Method {
            disp: number,
            method: index,
        },
    }
}
