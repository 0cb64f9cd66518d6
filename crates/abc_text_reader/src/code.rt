//! The code of a body.
ghost use Rattle.std.specs.Prelude.{◌≡◌, ◌<◌, ◌-◌, ◌^◌, ℕ, [], IfOk, length, min, Some};
ghost use Rattle.abc_file_types.specs.CodeBytes.{code_len};
ghost use Rattle.abc_text_lines.specs.declared.word.Word.TheVariants as words;
ghost use Rattle.abc_text_reader.specs.Parts.{ReadsItem, ReadsTextPart};
ghost use Rattle.abc_text_reader.specs.Reading.{Goes, IsReader, rows_left, word_next};
ghost use Rattle.abc_text_reader.specs.Coded.{IsSummed, code_read, list_or_error, instruction_read, label_read};

use crate::error::{AsmError, refused};
use crate::gathering::Gathering;
use crate::reader::Reader;
use crate::tables::made;
use abc_base::Table;
use abc_file_types::Instr;
use abc_text_lines::{AsmReason, Word};
use abc_text_operands::instruction_line;

/// Reads the instructions of a body, and the label lines among them, to the end of a list.
fn gather_code(reader: &mut Reader<'_>, gathering: &mut Gathering) -> Result<(), AsmError>
    requires is { IsReader reader.old }
    requires none { gathering.old.instrs ≡ [] }
    requires summed { IsSummed gathering.old }
    ensures goes { IfOk result (λ x. Goes reader.old reader.new) }
    ensures reads { ReadsTextPart code_read reader.old reader.new
        (list_or_error result gathering.new.instrs) }
    ensures summed { IfOk result (λ x. IsSummed gathering.new) }
{
    while let Some(word) = reader.word() {
        match word {
            Word::Label => read_label(reader)?,
            Word::Instruction(op) => {
                let instr = read_instruction(reader, op)?;
                gathering.push(instr)?;
            }
            _ => return Ok(()),
        }
    }
    Ok(())
}

/// Reads the instructions of a body, and the label lines among them, and sums up how many bytes they have. `Refused` for the
/// first fault, `NoMemory` where memory runs out.
pub fn read_code(
    reader: &mut Reader<'_>,
    gathering: &mut Gathering,
) -> Result<Table<Instr>, AsmError>
    requires { IsReader reader.old }
    ensures goes { IfOk result (λ xs. Goes reader.old reader.new) }
    ensures reads { ReadsTextPart code_read reader.old reader.new result }
    ensures len { IfOk result (λ code. gathering.new.len ≡ min (code_len code) (2 ^ 64 - 1)) }
{
    gathering.clear();
    gather_code(reader, gathering)?;
    let code = gathering.move_out(reader.alloc)?;
    Ok(code)
}

/// Reads an instruction, which comes next.
fn read_instruction(reader: &mut Reader<'_>, op: u8) -> Result<Instr, AsmError>
    requires is { IsReader reader.old }
    requires next { word_next (rows_left reader.old) ≡ Some (words.Instruction op) }
    ensures goes { IfOk result (λ x. Goes reader.old reader.new) }
    ensures ahead { IfOk result (λ x. length (rows_left reader.new) < length (rows_left reader.old)) }
    ensures reads { ReadsItem instruction_read reader.old reader.new result }
{
    let taken = reader.take()?;
    let instr = instruction_line(reader.alloc, op, reader.operands.as_slice(), &reader.places);
    made(&taken, instr)
}

/// Reads a label line, which comes next.
fn read_label(reader: &mut Reader<'_>) -> Result<(), AsmError>
    requires is { IsReader reader.old }
    requires next { word_next (rows_left reader.old) ≡ Some words.Label }
    ensures goes { IfOk result (λ x. Goes reader.old reader.new) }
    ensures ahead { IfOk result (λ x. length (rows_left reader.new) < length (rows_left reader.old)) }
    ensures reads { ReadsItem label_read reader.old reader.new result }
{
    let taken = reader.take()?;
    if !reader.operands.as_slice().is_empty() {
        return Err(refused(taken.number, AsmReason::Operands));
    }
    if taken.repeated {
        return Err(refused(taken.number, AsmReason::LabelTwice));
    }
    Ok(())
}
