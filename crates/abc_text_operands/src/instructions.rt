//! The lines of instructions, by what follows the opcode.
ghost use Rattle.std.specs.Prelude.{◌≡◌, ◌≤ℤ◌, negsuc, pos, List};
ghost use Rattle.abc_text_operands.specs.Each.{label_place};
ghost use Rattle.abc_text_lines.specs.Lineforms as lines;
ghost use Rattle.abc_text_operands.specs.Answers.{AnswersOperand};
ghost use Rattle.abc_text_operands.specs.Joined.{line_result, map_operand};
ghost use Rattle.abc_text_operands.specs.Places.{Places};
ghost use Rattle.abc_text_lines.specs.Lines.{Label};
ghost use Rattle.abc_file_types.specs.declared.code.Instr.TheVariants as instrs;
ghost use Rattle.abc_file_types.specs.declared.opcodes.Form.TheVariants as forms;
ghost use Rattle.abc_text_tokens.specs.Walks.{tokens_of};

use crate::counts::{one_token, three_tokens, two_tokens};
use crate::each::{Element, read_each};
use crate::error::LineError;
use crate::fronts::{first_and_rest, told};
use crate::handlers::target;
use crate::multinames::first_of;
use crate::numbers::{byte, u30};
use crate::signed::signed_within;
use crate::together::two;
use abc_base::Table;
use abc_file_types::{BoxedList, Form, Instr, opcode};
use abc_text_lines::AsmReason;
use abc_text_tokens::Token;
use indexmap::IndexMap;
use std::alloc::Global;

/// Labels, each with the number of the instruction that it stands for.
#[derive(Clone, Copy, Debug)]
pub struct Targets<'m, 'a> {
    pub places: &'m IndexMap<&'a [u8], u32>,
}

impl<'m, 'a> Element for Targets<'m, 'a> {
    ghost reads = { λ s t. label_place s.places.now t };

    fn read(&self, token: Token<'_>) -> Result<u32, AsmReason> {
        target(token, self.places)
    }
}

/// An opcode alone.
fn plain(op: u8, tokens: &[Token<'_>]) -> Result<Instr, AsmReason>
    ensures { (labels : List Label)
        → result ≡ line_result (lines.instruction_fields op forms.Plain) labels (tokens_of tokens.now) }
{
    if tokens.is_empty() {
        Ok(Instr::Plain(op))
    } else {
        Err(AsmReason::Operands)
    }
}

/// A number.
fn number(op: u8, tokens: &[Token<'_>]) -> Result<Instr, AsmReason>
    ensures { (labels : List Label)
        → result ≡ line_result (lines.instruction_fields op forms.One) labels (tokens_of tokens.now) }
{
    let Some(token) = one_token(tokens) else {
        return Err(AsmReason::Operands);
    };
    match u30(token) {
        Ok(number) => Ok(Instr::One(op, number)),
        Err(reason) => Err(reason),
    }
}

/// Two numbers.
fn two_numbers(op: u8, tokens: &[Token<'_>]) -> Result<Instr, AsmReason>
    ensures { (labels : List Label)
        → result ≡ line_result (lines.instruction_fields op forms.Two) labels (tokens_of tokens.now) }
{
    let Some((first, second)) = two_tokens(tokens) else {
        return Err(AsmReason::Operands);
    };
    match two(u30(first), u30(second)) {
        Ok((first, second)) => Ok(Instr::Two(op, first, second)),
        Err(reason) => Err(reason),
    }
}

/// A label.
fn to_label(op: u8, tokens: &[Token<'_>], places: &IndexMap<&[u8], u32>) -> Result<Instr, AsmReason>
    ensures { (labels : List Label) → Places places.now labels
        → result ≡ line_result (lines.instruction_fields op forms.Branch) labels (tokens_of tokens.now) }
{
    let Some(token) = one_token(tokens) else {
        return Err(AsmReason::Operands);
    };
    match target(token, places) {
        Ok(place) => Ok(Instr::Branch(op, place)),
        Err(reason) => Err(reason),
    }
}

fn byte_of(number: i64) -> i8
    requires low { negsuc 127 ≤ℤ number }
    requires high { number ≤ℤ pos 127 }
    ensures { result ≡ number }
{
    number as i8
}

fn short_of(number: i64) -> i16
    requires low { negsuc 32767 ≤ℤ number }
    requires high { number ≤ℤ pos 32767 }
    ensures { result ≡ number }
{
    number as i16
}

/// A number from -128 to 127.
fn small(tokens: &[Token<'_>]) -> Result<Instr, AsmReason>
    ensures { (labels : List Label)
        → result ≡ line_result (lines.instruction_fields 0x24 forms.Byte) labels (tokens_of tokens.now) }
{
    let Some(token) = one_token(tokens) else {
        return Err(AsmReason::Operands);
    };
    match signed_within(token, 128) {
        Ok(number) => Ok(Instr::Byte(byte_of(number))),
        Err(reason) => Err(reason),
    }
}

/// A number from -32768 to 32767.
fn short(tokens: &[Token<'_>]) -> Result<Instr, AsmReason>
    ensures { (labels : List Label)
        → result ≡ line_result (lines.instruction_fields 0x25 forms.Short) labels (tokens_of tokens.now) }
{
    let Some(token) = one_token(tokens) else {
        return Err(AsmReason::Operands);
    };
    match signed_within(token, 32768) {
        Ok(number) => Ok(Instr::Short(short_of(number))),
        Err(reason) => Err(reason),
    }
}

/// The position of a scope.
fn scope_object(tokens: &[Token<'_>]) -> Result<Instr, AsmReason>
    ensures { (labels : List Label)
        → result
        ≡ line_result (lines.instruction_fields 0x65 forms.ScopeObject) labels (tokens_of tokens.now) }
{
    let Some(token) = one_token(tokens) else {
        return Err(AsmReason::Operands);
    };
    match byte(token) {
        Ok(number) => Ok(Instr::ScopeObject(number)),
        Err(reason) => Err(reason),
    }
}

/// What `debug` has.
fn debug(tokens: &[Token<'_>]) -> Result<Instr, AsmReason>
    ensures { (labels : List Label)
        → result ≡ line_result (lines.instruction_fields 0xef forms.Debug) labels (tokens_of tokens.now) }
{
    let Some((kind, others)) = first_and_rest(tokens) else {
        return Err(AsmReason::Operands);
    };
    let Some((name, reg, extra)) = three_tokens(others) else {
        return Err(AsmReason::Operands);
    };
    let kind = byte(kind);
    let name = u30(name);
    let reg = byte(reg);
    let ends = two(reg, u30(extra));
    let last = two(name, ends);
    match two(kind, last) {
        Ok((kind, (name, (reg, extra)))) => Ok(Instr::Debug {
            kind,
            name,
            reg,
            extra,
        }),
        Err(reason) => Err(reason),
    }
}

/// The labels of a switch: that of its default, and those of its cases, of which there is at least one.
fn switch(
    alloc: Global,
    tokens: &[Token<'_>],
    places: &IndexMap<&[u8], u32>,
) -> Result<Instr, LineError>
    ensures { (labels : List Label) → Places places.now labels
        → AnswersOperand result
        (line_result (lines.instruction_fields 0x1b forms.Switch) labels (tokens_of tokens.now)) }
{
    let Some((default, cases)) = first_and_rest(tokens) else {
        return Err(LineError::Refused(AsmReason::Operands));
    };
    if cases.is_empty() {
        return Err(LineError::Refused(AsmReason::Operands));
    }
    let default = target(default, places);
    match read_each(alloc, cases, &Targets { places }) {
        Ok(cases) => with_cases(alloc, default, cases),
        Err(LineError::Refused(reason)) => Err(LineError::Refused(first_of(default, reason))),
        Err(LineError::NoMemory) => Err(LineError::NoMemory),
    }
}

/// A switch of a default, if it is one, with cases. `LineError::NoMemory` where memory runs out.
fn with_cases(
    alloc: Global,
    default: Result<u32, AsmReason>,
    cases: Table<u32>,
) -> Result<Instr, LineError>
    ensures { AnswersOperand result (map_operand (λ d. instrs.Switch d cases) default) }
{
    let cases = BoxedList::new(alloc, cases)?;
    match default {
        Ok(default) => Ok(Instr::Switch { default, cases }),
        Err(reason) => Err(LineError::Refused(reason)),
    }
}

/// An instruction, by what follows its opcode. `LineError::NoMemory` where memory runs out.
pub fn instruction_line(
    alloc: Global,
    op: u8,
    tokens: &[Token<'_>],
    places: &IndexMap<&[u8], u32>,
) -> Result<Instr, LineError>
    ensures { (labels : List Label) → Places places.now labels
        → AnswersOperand result (line_result (lines.instruction_operands op) labels (tokens_of tokens.now)) }
{
    match opcode(op) {
        Some(info) => fields(alloc, op, info.form, tokens, places),
        None => Err(LineError::Refused(AsmReason::Word)),
    }
}

/// The operands of an instruction of a form.
fn fields(
    alloc: Global,
    op: u8,
    form: Form,
    tokens: &[Token<'_>],
    places: &IndexMap<&[u8], u32>,
) -> Result<Instr, LineError>
    ensures { (labels : List Label) → Places places.now labels
        → AnswersOperand result
        (line_result (lines.instruction_fields op form) labels (tokens_of tokens.now)) }
{
    match form {
        Form::Plain => told(plain(op, tokens)),
        Form::One => told(number(op, tokens)),
        Form::Two => told(two_numbers(op, tokens)),
        Form::Branch => told(to_label(op, tokens, places)),
        Form::Switch => switch(alloc, tokens, places),
        Form::Byte => told(small(tokens)),
        Form::Short => told(short(tokens)),
        Form::ScopeObject => told(scope_object(tokens)),
        Form::Debug => told(debug(tokens)),
    }
}
