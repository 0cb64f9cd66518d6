ghost use Rattle.std.specs.Prelude.{◌≡◌, ℕ, List};
ghost use Rattle.std.specs.declared.result.Result.{Result};
ghost use Rattle.abc_text_lines.specs.declared.reason.AsmReason.{AsmReason};
ghost use Rattle.abc_text_lines.specs.Tokens.{Token as TextToken};
ghost use Rattle.abc_text_operands.specs.Each.{each_result, entry_in, index_in, label_place, sooner as sooner_of};
ghost use Rattle.abc_text_lines.specs.Lineforms as forms;
ghost use Rattle.abc_text_operands.specs.Answers.{AnswersOperand};
ghost use Rattle.abc_text_operands.specs.Joined.{line_result};
ghost use Rattle.abc_text_lines.specs.Lines.{Label};
ghost use Rattle.abc_text_tokens.specs.Walks.{token_as_text, tokens_of};

use crate::error::LineError;
use crate::numbers::{entry_upto, index_upto};
use abc_base::Table;
use abc_file_types::Sizes;
use abc_text_lines::AsmReason;
use abc_text_tokens::Token;
use std::alloc::Global;

/// An operand of which a line has any number.
pub trait Element {
    /// What a token is read as.
    ghost reads: { Self → TextToken → Result ℕ AsmReason };

    /// The value of a token, or its fault.
    fn read(&self, token: Token<'_>) -> Result<u32, AsmReason>
        ensures { result ≡ reads self.now (token_as_text token.entry) };
}

/// Entries of a table of that many, which counts from 1.
#[derive(Clone, Copy, Debug)]
pub struct Entries {
    pub size: u32,
}

impl Element for Entries {
    ghost reads = { λ s t. entry_in s.size t };

    fn read(&self, token: Token<'_>) -> Result<u32, AsmReason> {
        entry_upto(token, self.size)
    }
}

/// Entries of such a table, or 0.
#[derive(Clone, Copy, Debug)]
pub struct Indices {
    pub size: u32,
}

impl Element for Indices {
    ghost reads = { λ s t. index_in s.size t };

    fn read(&self, token: Token<'_>) -> Result<u32, AsmReason> {
        index_upto(token, self.size)
    }
}

/// The first of a reason that was noted and one more.
pub fn sooner(first: Option<AsmReason>, reason: AsmReason) -> AsmReason
    ensures { result ≡ sooner_of first reason }
{
    match first {
        None => reason,
        Some(first) => {
            if first.rank() <= reason.rank() {
                first
            } else {
                reason
            }
        }
    }
}

/// The values of all tokens, or the first reason of those that they have.
pub fn read_each<E: Element>(
    alloc: Global,
    tokens: &[Token<'_>],
    element: &E,
) -> Result<Table<u32>, LineError>
    ensures { AnswersOperand result (each_result (E.reads element.now) (tokens_of tokens.now)) }
{
    let mut items = Table::new(alloc);
    let mut first: Option<AsmReason> = None;
    for token in tokens {
        match element.read(*token) {
            Ok(value) => match items.push(value) {
                Ok(()) => {}
                Err(_) => return Err(LineError::NoMemory),
            },
            Err(reason) => first = Some(sooner(first, reason)),
        }
    }
    match first {
        None => Ok(items),
        Some(reason) => Err(LineError::Refused(reason)),
    }
}

/// A set of namespaces. `LineError::NoMemory` where memory runs out.
pub fn set_line(alloc: Global, tokens: &[Token<'_>], sizes: &Sizes) -> Result<Table<u32>, LineError>
    ensures { (labels : List Label)
        → AnswersOperand result (line_result (forms.set_line sizes.now) labels (tokens_of tokens.now)) }
{
    let entries = Entries {
        size: sizes.namespaces,
    };
    read_each(alloc, tokens, &entries)
}
