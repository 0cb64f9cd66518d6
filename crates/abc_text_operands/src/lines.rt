//! The lines of methods, metadata, instances, classes, scripts and bodies.
ghost use Rattle.std.specs.Prelude.{◌≡◌, List};
ghost use Rattle.abc_text_lines.specs.Lineforms as forms;
ghost use Rattle.abc_text_lines.specs.Lines.{Label};
ghost use Rattle.abc_text_operands.specs.Joined.{line_result, map_operand};
ghost use Rattle.abc_text_operands.specs.Heads.{as_body, as_instance, as_method};
ghost use Rattle.abc_text_tokens.specs.Walks.{tokens_of};

use crate::counts::{five_tokens, one_token, three_tokens, two_tokens};
use crate::numbers::{byte, entry_upto, index_below, index_upto, u30};
use crate::together::two;
use abc_file_types::Sizes;
use abc_text_lines::AsmReason;
use abc_text_tokens::Token;

/// A method without the lines below it.
#[derive(Clone, Copy, Debug)]
pub struct MethodHead {
    pub ret: u32,
    pub name: u32,
    pub flags: u8,
}

/// An instance without the lines below it.
#[derive(Clone, Copy, Debug)]
pub struct InstanceHead {
    pub name: u32,
    pub super_name: u32,
    pub flags: u8,
}

/// A body without the lines below it.
#[derive(Clone, Copy, Debug)]
pub struct BodyHead {
    pub method: u32,
    pub max_stack: u32,
    pub local_count: u32,
    pub init_scope: u32,
    pub max_scope: u32,
}

/// The type of a parameter.
pub fn param_line(tokens: &[Token<'_>], sizes: &Sizes) -> Result<u32, AsmReason>
    ensures { (labels : List Label)
        → result ≡ line_result (forms.param_line sizes.now) labels (tokens_of tokens.now) }
{
    match one_token(tokens) {
        Some(token) => index_upto(token, sizes.names),
        None => Err(AsmReason::Operands),
    }
}

/// The name of a parameter, which is any number.
pub fn number_line(tokens: &[Token<'_>]) -> Result<u32, AsmReason>
    ensures { (labels : List Label) → result ≡ line_result forms.number_line labels (tokens_of tokens.now) }
{
    match one_token(tokens) {
        Some(token) => u30(token),
        None => Err(AsmReason::Operands),
    }
}

/// The name of metadata.
pub fn string_index_line(tokens: &[Token<'_>], sizes: &Sizes) -> Result<u32, AsmReason>
    ensures { (labels : List Label)
        → result ≡ line_result (forms.string_index_line sizes.now) labels (tokens_of tokens.now) }
{
    match one_token(tokens) {
        Some(token) => index_upto(token, sizes.strings),
        None => Err(AsmReason::Operands),
    }
}

/// The protected namespace of an instance.
pub fn protected_line(tokens: &[Token<'_>], sizes: &Sizes) -> Result<u32, AsmReason>
    ensures { (labels : List Label)
        → result ≡ line_result (forms.protected_line sizes.now) labels (tokens_of tokens.now) }
{
    match one_token(tokens) {
        Some(token) => index_upto(token, sizes.namespaces),
        None => Err(AsmReason::Operands),
    }
}

/// An interface of an instance.
pub fn implements_line(tokens: &[Token<'_>], sizes: &Sizes) -> Result<u32, AsmReason>
    ensures { (labels : List Label)
        → result ≡ line_result (forms.implements_line sizes.now) labels (tokens_of tokens.now) }
{
    match one_token(tokens) {
        Some(token) => entry_upto(token, sizes.names),
        None => Err(AsmReason::Operands),
    }
}

/// The method of an initializer, a class or a script.
pub fn method_index_line(tokens: &[Token<'_>], sizes: &Sizes) -> Result<u32, AsmReason>
    ensures { (labels : List Label)
        → result ≡ line_result (forms.method_index_line sizes.now) labels (tokens_of tokens.now) }
{
    match one_token(tokens) {
        Some(token) => index_below(token, sizes.methods),
        None => Err(AsmReason::Operands),
    }
}

/// The metadata of a trait.
pub fn trait_metadata_line(tokens: &[Token<'_>], sizes: &Sizes) -> Result<u32, AsmReason>
    ensures { (labels : List Label)
        → result ≡ line_result (forms.trait_metadata_line sizes.now) labels (tokens_of tokens.now) }
{
    match one_token(tokens) {
        Some(token) => index_below(token, sizes.metadata),
        None => Err(AsmReason::Operands),
    }
}

/// An entry of metadata: two strings.
pub fn entry_line(tokens: &[Token<'_>], sizes: &Sizes) -> Result<(u32, u32), AsmReason>
    ensures { (labels : List Label)
        → result ≡ line_result (forms.entry_line sizes.now) labels (tokens_of tokens.now) }
{
    match two_tokens(tokens) {
        Some((key, value)) => two(
            index_upto(key, sizes.strings),
            index_upto(value, sizes.strings),
        ),
        None => Err(AsmReason::Operands),
    }
}

/// A method: its return type, its name and its flags.
pub fn method_line(tokens: &[Token<'_>], sizes: &Sizes) -> Result<MethodHead, AsmReason>
    ensures { (labels : List Label)
        → map_operand as_method result
        ≡ line_result (forms.method_line sizes.now) labels (tokens_of tokens.now) }
{
    let Some((ret, name, flags)) = three_tokens(tokens) else {
        return Err(AsmReason::Operands);
    };
    let ret = index_upto(ret, sizes.names);
    let name = index_upto(name, sizes.strings);
    match two(ret, two(name, byte(flags))) {
        Ok((ret, (name, flags))) => Ok(MethodHead { ret, name, flags }),
        Err(reason) => Err(reason),
    }
}

/// An instance: its name, its base and its flags.
pub fn instance_line(tokens: &[Token<'_>], sizes: &Sizes) -> Result<InstanceHead, AsmReason>
    ensures { (labels : List Label)
        → map_operand as_instance result
        ≡ line_result (forms.instance_line sizes.now) labels (tokens_of tokens.now) }
{
    let Some((name, super_name, flags)) = three_tokens(tokens) else {
        return Err(AsmReason::Operands);
    };
    let name = entry_upto(name, sizes.names);
    let super_name = index_upto(super_name, sizes.names);
    match two(name, two(super_name, byte(flags))) {
        Ok((name, (super_name, flags))) => Ok(InstanceHead {
            name,
            super_name,
            flags,
        }),
        Err(reason) => Err(reason),
    }
}

/// A body: its method and its four sizes.
pub fn body_line(tokens: &[Token<'_>], sizes: &Sizes) -> Result<BodyHead, AsmReason>
    ensures { (labels : List Label)
        → map_operand as_body result ≡ line_result (forms.body_line sizes.now) labels (tokens_of tokens.now) }
{
    let Some((method, stack, locals, from, most)) = five_tokens(tokens) else {
        return Err(AsmReason::Operands);
    };
    let method = index_below(method, sizes.methods);
    let stack = u30(stack);
    let locals = u30(locals);
    let from = u30(from);
    let scopes = two(from, u30(most));
    let last = two(locals, scopes);
    let sizes = two(stack, last);
    match two(method, sizes) {
        Ok((method, (max_stack, (local_count, (init_scope, max_scope))))) => Ok(BodyHead {
            method,
            max_stack,
            local_count,
            init_scope,
            max_scope,
        }),
        Err(reason) => Err(reason),
    }
}
