//! Lines of one word that come, each with the lines below it.
ghost use Rattle.std.specs.Prelude.{◌≡◌, ◌<◌, ℕ, false, nat_eq, IfOk, List, length};
ghost use Rattle.abc_text_lines.specs.declared.word.Word.{Word as TextWord};
ghost use Rattle.abc_text_lines.specs.Tokens.{Token as TextToken};
ghost use Rattle.abc_text_lines.specs.Words.{place_of as place_of_word};
ghost use Rattle.abc_file_types.specs.declared.tables.Sizes.{Sizes as TableSizes};
ghost use Rattle.abc_text_lines.specs.Lines.{Label};
ghost use Rattle.abc_text_operands.specs.Answers.{AnswersOperand};
ghost use Rattle.abc_text_operands.specs.Places.{Places};
ghost use Rattle.abc_text_tokens.specs.Walks.{tokens_of};
ghost use Rattle.abc_text_reader.specs.Parts.{ComesNext, IsPlainLine, TextPart, ReadsItem, ReadsTextPart, all_items, error_at, head_says, headed_item, line_says, lone_item, lone_items, made_at, valued_at};
ghost use Rattle.abc_text_reader.specs.Reading.{Goes, IsReader, may_repeat, rows_left};

use crate::error::{AsmError, refused};
use crate::reader::{Reader, Taken};
use abc_base::Table;
use abc_file_types::Sizes;
use abc_text_lines::{AsmReason, Word};
use abc_text_operands::LineError;
use abc_text_tokens::{Token, place_of};
use indexmap::IndexMap;
use std::alloc::Global;

/// Lines of one word, with no lines below them.
pub trait Flat {
    /// What is made of one of them.
    type Value: Drop;

    /// The word of the lines.
    ghost named: { TextWord };

    /// The value of their operands.
    ghost value: { TableSizes → List Label → List TextToken → Self.Value };

    /// The word of the lines.
    fn word() -> Word
        ensures { result ≡ named };

    /// The value of a line, or the first fault of its operands. `NoMemory` where memory runs out.
    fn line(
        alloc: Global,
        tokens: &[Token<'_>],
        sizes: &Sizes,
        places: &IndexMap<&[u8], u32>,
    ) -> Result<Self::Value, LineError>
        ensures { (instances : ℕ) (labels : List Label) → Places places.now labels
            → AnswersOperand result
            (line_says named value sizes.now instances labels (tokens_of tokens.now)) };

    /// Nothing else is asked of these lines.
    ghost plain: { IsPlainLine named };
}

/// Lines of one word, each with the lines below it.
pub trait Headed {
    /// What a line says.
    type Head: Drop;

    /// What is made of the lines below it.
    type Below: Drop;

    /// What is made of both.
    type Value: Drop;

    /// The word of the lines.
    ghost named: { TextWord };

    /// The value of their operands.
    ghost value: { TableSizes → List Label → List TextToken → Self.Head };

    /// The lines below one.
    ghost lower: { TextPart Self.Below };

    ghost whole: { Self.Head → Self.Below → Self.Value };

    /// The word of the lines.
    fn word() -> Word
        ensures { result ≡ named };

    /// The value of a line that was taken, or its first fault, which can depend on the lines that follow it.
    fn head(reader: &Reader<'_>, taken: &Taken) -> Result<Self::Head, AsmReason>
        requires is { IsReader reader.now }
        requires word { taken.now.word ≡ named }
        requires once { taken.now.repeated ≡ false }
        ensures { result ≡ head_says value taken.now reader.now };

    /// Reads the lines below one. `Refused` for the first fault, `NoMemory` where memory runs out.
    fn below(reader: &mut Reader<'_>) -> Result<Self::Below, AsmError>
        requires { IsReader reader.old }
        ensures goes { IfOk result (λ x. Goes reader.old reader.new) }
        ensures reads { ReadsTextPart lower reader.old reader.new result };

    /// What a line and the lines below it are.
    fn make(head: Self::Head, below: Self::Below) -> Self::Value
        ensures { result ≡ whole head below };

    /// None of these lines repeats another.
    ghost once: { may_repeat named ≡ false };

    /// The word is the only one in its place.
    ghost apart: { nat_eq (place_of_word named) 23 ≡ false };
}

/// Reads all lines of a word that come, with no lines below them. `Refused` for the first fault, `NoMemory` where memory
/// runs out.
pub fn read_flat<F: Flat>(reader: &mut Reader<'_>) -> Result<Table<F::Value>, AsmError>
    requires { IsReader reader.old }
    ensures goes { IfOk result (λ xs. Goes reader.old reader.new) }
    ensures reads { ReadsTextPart (lone_items F.named F.value) reader.old reader.new result }
{
    let mut table = Table::new(reader.alloc);
    while let Some(word) = reader.word() {
        if place_of(word) != place_of(F::word()) {
            return Ok(table);
        }
        let value = read_line::<F>(reader)?;
        table.push(value)?;
    }
    Ok(table)
}

/// Reads a line of the word, which comes next.
fn read_line<F: Flat>(reader: &mut Reader<'_>) -> Result<F::Value, AsmError>
    requires is { IsReader reader.old }
    requires next { ComesNext F.named (rows_left reader.old) }
    ensures goes { IfOk result (λ x. Goes reader.old reader.new) }
    ensures ahead { IfOk result (λ x. length (rows_left reader.new) < length (rows_left reader.old)) }
    ensures reads { ReadsItem (lone_item F.value) reader.old reader.new result }
{
    let taken = reader.take()?;
    let value = F::line(
        reader.alloc,
        reader.operands.as_slice(),
        &reader.sizes,
        &reader.places,
    );
    made(&taken, value)
}

/// Reads all lines of a word that come, each with the lines below it. `Refused` for the first fault, `NoMemory` where
/// memory runs out.
pub fn read_all<H: Headed>(reader: &mut Reader<'_>) -> Result<Table<H::Value>, AsmError>
    requires { IsReader reader.old }
    ensures goes { IfOk result (λ xs. Goes reader.old reader.new) }
    ensures reads { ReadsTextPart (all_items H.named (headed_item H.value H.lower H.whole)) reader.old
        reader.new result }
{
    let mut table = Table::new(reader.alloc);
    while let Some(word) = reader.word() {
        if place_of(word) != place_of(H::word()) {
            return Ok(table);
        }
        let value = read_item::<H>(reader)?;
        table.push(value)?;
    }
    Ok(table)
}

/// Reads a line of the word, which comes next, and the lines below it. `Refused` for the first fault, `NoMemory` where
/// memory runs out.
pub fn read_item<H: Headed>(reader: &mut Reader<'_>) -> Result<H::Value, AsmError>
    requires is { IsReader reader.old }
    requires next { ComesNext H.named (rows_left reader.old) }
    ensures goes { IfOk result (λ x. Goes reader.old reader.new) }
    ensures ahead { IfOk result (λ x. length (rows_left reader.new) < length (rows_left reader.old)) }
    ensures reads { ReadsItem (headed_item H.value H.lower H.whole) reader.old reader.new result }
{
    let taken = reader.take()?;
    let head = valued(&taken, H::head(reader, &taken))?;
    let below = H::below(reader)?;
    Ok(H::make(head, below))
}

/// The value of a line, or the error at it.
pub fn valued<T: Drop>(taken: &Taken, value: Result<T, AsmReason>) -> Result<T, AsmError>
    ensures { result ≡ valued_at taken.now.number value }
{
    match value {
        Ok(value) => Ok(value),
        Err(reason) => Err(refused(taken.number, reason)),
    }
}

/// The value of a line, or the error at it.
pub fn made<T: Drop>(taken: &Taken, value: Result<T, LineError>) -> Result<T, AsmError>
    ensures { result ≡ made_at taken.now.number value }
{
    match value {
        Ok(value) => Ok(value),
        Err(error) => Err(at_line(taken.number, error)),
    }
}

fn at_line(line: u32, error: LineError) -> AsmError
    ensures { result ≡ error_at line error }
{
    match error {
        LineError::Refused(reason) => AsmError::Refused { line, reason },
        LineError::NoMemory => AsmError::NoMemory,
    }
}
