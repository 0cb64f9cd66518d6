//! Labels, and the lines of handlers.
ghost use Rattle.std.specs.Prelude.{◌≡◌, List};
ghost use Rattle.abc_text_lines.specs.Lineforms as forms;
ghost use Rattle.abc_text_lines.specs.Lines.{Label};
ghost use Rattle.abc_text_lines.specs.Operands as operands;
ghost use Rattle.abc_text_operands.specs.Joined.{line_result};
ghost use Rattle.abc_text_operands.specs.Places.{Places};
ghost use Rattle.abc_text_tokens.specs.Walks.{token_as_text, tokens_of};

use crate::counts::five_tokens;
use crate::numbers::index_upto;
use crate::together::two;
use abc_file_types::{Handler, Sizes};
use abc_text_lines::AsmReason;
use abc_text_tokens::{Token, is_name};
use indexmap::IndexMap;

/// The instruction that a label stands for, by the labels that a body sets.
pub fn target(token: Token<'_>, places: &IndexMap<&[u8], u32>) -> Result<u32, AsmReason>
    ensures { (labels : List Label) → Places places.now labels
        → result ≡ operands.target.reads labels (token_as_text token.entry) }
{
    let Token::Bare(word) = token else {
        return Err(AsmReason::Kind);
    };
    if !is_name(word) {
        return Err(AsmReason::Kind);
    }
    match places.get(word) {
        Some(place) => Ok(*place),
        None => Err(AsmReason::LabelMissing),
    }
}

/// A handler: where its range begins and ends, where it leads, its type and its name.
pub fn catch_line(
    tokens: &[Token<'_>],
    sizes: &Sizes,
    places: &IndexMap<&[u8], u32>,
) -> Result<Handler, AsmReason>
    ensures { (labels : List Label) → Places places.now labels
        → result ≡ line_result (forms.catch_line sizes.now) labels (tokens_of tokens.now) }
{
    let Some((from, to, leads, exc_type, var_name)) = five_tokens(tokens) else {
        return Err(AsmReason::Operands);
    };
    let from = target(from, places);
    let to = target(to, places);
    let leads = target(leads, places);
    let exc_type = index_upto(exc_type, sizes.names);
    let names = two(exc_type, index_upto(var_name, sizes.names));
    let last = two(leads, names);
    let ends = two(to, last);
    match two(from, ends) {
        Ok((from, (to, (target, (exc_type, var_name))))) => Ok(Handler {
            from,
            to,
            target,
            exc_type,
            var_name,
        }),
        Err(reason) => Err(reason),
    }
}
