//! The lines of multinames.
ghost use Rattle.std.specs.Prelude.{◌≡◌, List};
ghost use Rattle.abc_text_operands.specs.Each.{reason_after};
ghost use Rattle.abc_text_lines.specs.Lineforms as forms;
ghost use Rattle.abc_text_operands.specs.Answers.{AnswersOperand};
ghost use Rattle.abc_text_operands.specs.Joined.{line_result, map_operand};
ghost use Rattle.abc_text_lines.specs.Lines.{Label};
ghost use Rattle.abc_file_types.specs.declared.names.Multiname.TheVariants as names;
ghost use Rattle.abc_file_types.specs.declared.names.MultinameKind.TheVariants as kinds;
ghost use Rattle.abc_text_tokens.specs.Walks.{tokens_of};

use crate::counts::{one_token, two_tokens};
use crate::each::{Indices, read_each, sooner};
use crate::error::LineError;
use crate::fronts::{first_and_rest, told};
use crate::kinds::multiname_kind;
use crate::numbers::{entry_upto, index_upto};
use crate::together::two;
use abc_base::Table;
use abc_file_types::{BoxedList, Multiname, MultinameKind, Sizes};
use abc_text_lines::AsmReason;
use abc_text_tokens::Token;
use std::alloc::Global;

/// A name in a namespace.
fn qualified(attr: bool, fields: &[Token<'_>], sizes: &Sizes) -> Result<Multiname, AsmReason>
    ensures { (labels : List Label)
        → result
        ≡ line_result (forms.multiname_operands sizes.now (kinds.QName attr)) labels
        (tokens_of fields.now) }
{
    let Some((ns, name)) = two_tokens(fields) else {
        return Err(AsmReason::Operands);
    };
    match two(
        index_upto(ns, sizes.namespaces),
        index_upto(name, sizes.strings),
    ) {
        Ok((ns, name)) => Ok(Multiname::QName { attr, ns, name }),
        Err(reason) => Err(reason),
    }
}

/// A name whose namespace comes at run time.
fn late_space(attr: bool, fields: &[Token<'_>], sizes: &Sizes) -> Result<Multiname, AsmReason>
    ensures { (labels : List Label)
        → result
        ≡ line_result (forms.multiname_operands sizes.now (kinds.Rt attr)) labels (tokens_of fields.now) }
{
    let Some(name) = one_token(fields) else {
        return Err(AsmReason::Operands);
    };
    match index_upto(name, sizes.strings) {
        Ok(name) => Ok(Multiname::Rt { attr, name }),
        Err(reason) => Err(reason),
    }
}

/// A name that comes at run time with its namespace.
fn late(attr: bool, fields: &[Token<'_>], _sizes: &Sizes) -> Result<Multiname, AsmReason>
    ensures { (labels : List Label)
        → result
        ≡ line_result (forms.multiname_operands _sizes.now (kinds.RtL attr)) labels
        (tokens_of fields.now) }
{
    if fields.is_empty() {
        Ok(Multiname::RtL { attr })
    } else {
        Err(AsmReason::Operands)
    }
}

/// A name in a set of namespaces.
fn in_set(attr: bool, fields: &[Token<'_>], sizes: &Sizes) -> Result<Multiname, AsmReason>
    ensures { (labels : List Label)
        → result
        ≡ line_result (forms.multiname_operands sizes.now (kinds.Multi attr)) labels
        (tokens_of fields.now) }
{
    let Some((name, set)) = two_tokens(fields) else {
        return Err(AsmReason::Operands);
    };
    match two(index_upto(name, sizes.strings), entry_upto(set, sizes.sets)) {
        Ok((name, set)) => Ok(Multiname::Multi { attr, name, set }),
        Err(reason) => Err(reason),
    }
}

/// A set of namespaces, whose name comes at run time.
fn late_name(attr: bool, fields: &[Token<'_>], sizes: &Sizes) -> Result<Multiname, AsmReason>
    ensures { (labels : List Label)
        → result
        ≡ line_result (forms.multiname_operands sizes.now (kinds.MultiL attr)) labels
        (tokens_of fields.now) }
{
    let Some(set) = one_token(fields) else {
        return Err(AsmReason::Operands);
    };
    match entry_upto(set, sizes.sets) {
        Ok(set) => Ok(Multiname::MultiL { attr, set }),
        Err(reason) => Err(reason),
    }
}

/// A type with its parameters. `LineError::NoMemory` where memory runs out.
fn type_name(alloc: Global, fields: &[Token<'_>], sizes: &Sizes) -> Result<Multiname, LineError>
    ensures { (labels : List Label)
        → AnswersOperand result
        (line_result (forms.multiname_operands sizes.now kinds.TypeName) labels (tokens_of fields.now)) }
{
    let Some((base, others)) = first_and_rest(fields) else {
        return Err(LineError::Refused(AsmReason::Operands));
    };
    let base = entry_upto(base, sizes.names);
    match read_each(alloc, others, &Indices { size: sizes.names }) {
        Ok(params) => with_params(alloc, base, params),
        Err(LineError::Refused(reason)) => Err(LineError::Refused(first_of(base, reason))),
        Err(LineError::NoMemory) => Err(LineError::NoMemory),
    }
}

/// A type of a base, if it is one, with parameters. `LineError::NoMemory` where memory runs out.
fn with_params(
    alloc: Global,
    base: Result<u32, AsmReason>,
    params: Table<u32>,
) -> Result<Multiname, LineError>
    ensures { AnswersOperand result (map_operand (λ b. names.TypeName b params) base) }
{
    let params = BoxedList::new(alloc, params)?;
    match base {
        Ok(base) => Ok(Multiname::TypeName { base, params }),
        Err(reason) => Err(LineError::Refused(reason)),
    }
}

/// The first of the reason that a value has, if it has one, and of another.
pub fn first_of(value: Result<u32, AsmReason>, reason: AsmReason) -> AsmReason
    ensures { result ≡ reason_after value reason }
{
    match value {
        Ok(_) => reason,
        Err(first) => sooner(Some(first), reason),
    }
}

/// A multiname: its kind, and its indices in file order. `LineError::NoMemory` where memory runs out.
pub fn name_line(alloc: Global, tokens: &[Token<'_>], sizes: &Sizes) -> Result<Multiname, LineError>
    ensures { (labels : List Label)
        → AnswersOperand result (line_result (forms.name_line sizes.now) labels (tokens_of tokens.now)) }
{
    let Some((kind, fields)) = first_and_rest(tokens) else {
        return Err(LineError::Refused(AsmReason::Operands));
    };
    match multiname_kind(kind) {
        Ok(kind) => name_fields(alloc, kind, fields, sizes),
        Err(reason) => Err(LineError::Refused(reason)),
    }
}

/// The indices of a multiname of a kind.
fn name_fields(
    alloc: Global,
    kind: MultinameKind,
    fields: &[Token<'_>],
    sizes: &Sizes,
) -> Result<Multiname, LineError>
    ensures { (labels : List Label)
        → AnswersOperand result
        (line_result (forms.multiname_operands sizes.now kind) labels (tokens_of fields.now)) }
{
    match kind {
        MultinameKind::QName { attr } => told(qualified(attr, fields, sizes)),
        MultinameKind::Rt { attr } => told(late_space(attr, fields, sizes)),
        MultinameKind::RtL { attr } => told(late(attr, fields, sizes)),
        MultinameKind::Multi { attr } => told(in_set(attr, fields, sizes)),
        MultinameKind::MultiL { attr } => told(late_name(attr, fields, sizes)),
        MultinameKind::TypeName => type_name(alloc, fields, sizes),
    }
}
