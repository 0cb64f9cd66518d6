ghost use Rattle.std.specs.Prelude.{◌≡◌, ◌≤◌, ◌<◌, ◌^◌, ◌+◌, None, All, IfOk, OnOk, length};
ghost use Rattle.abc_file_types.specs.Code.{code as code_part};
ghost use Rattle.abc_file_types.specs.Instructions.{code_length};
ghost use Rattle.abc_file_types.specs.Ready.{IsReady};
ghost use Rattle.abc_file_types.specs.Starts.{IsRising};
ghost use Rattle.abc_varint.specs.Answers.{AnswersPart};
ghost use Rattle.abc_varint.specs.Reads.{ReadsPart};
ghost use Rattle.abc_instr.specs.Reading.{AreSmallStarts, with_targets, with_offsets};
ghost use Rattle.abc_instr.specs.Resolving.{Resolves};

use crate::reading::{Reading, read_pieces};
use crate::resolve::{Missed, resolve_all};
use abc_base::{Source, Table};
use abc_file_types::{Code, Instr, Reason};
use abc_varint::{ReadError, Window, read_u30};
use std::alloc::Global;

/// The length of code is below it.
const LENGTH_END: u32 = 1 << 23;

/// The number of code's bytes, below 2^23. It is refused by `CodeLength` at its first byte where it is greater.
#[tactic(auto, unfolding(abc_file_types::specs::Instructions::code_length))]
pub fn read_length<S: Source>(w: &mut Window, source: &mut S) -> Result<u32, ReadError>
    ensures small { IfOk result (λ n. n < 2 ^ 23) }
    ensures value { ReadsPart S.left S.faults code_length w.old source.old w.new source.new result }
{
    let place = w.place();
    let length = read_u30(w, source)?;
    if length >= LENGTH_END {
        return Err(ReadError::Refused {
            place,
            reason: Reason::CodeLength,
        });
    }
    Ok(length)
}

/// Gives the instructions that were read their targets, and takes them out. The starts stay.
fn take_instrs(alloc: Global, reading: &mut Reading) -> Result<Table<Instr>, Missed>
    requires places { AreSmallStarts (length (reading.old).instrs) (reading.old).starts }
    requires aims { All (λ a. a < length (reading.old).instrs) (reading.old).aims.items }
    ensures value { Resolves (with_targets (reading.old).starts (reading.old).aims.items (reading.old).instrs)
        result }
    ensures starts { (reading.new).starts ≡ (reading.old).starts }
{
    reading.starts.prepare(reading.aims.len())?;
    resolve_all(alloc, &reading.starts, &reading.aims, &mut reading.instrs)?;
    let instrs = reading.instrs.move_out(alloc)?;
    Ok(instrs)
}

/// Reads code, as `read_code` does, in memory that serves one code after the other. Gives the instructions, and leaves
/// their starts in the reading.
#[tactic(auto, unfolding(abc_file_types::specs::Code::code, abc_file_types::specs::Code::code_body, abc_file_types::specs::Targets::resolve_targets))]
pub fn read_code_within<S: Source>(
    alloc: Global,
    w: &mut Window,
    source: &mut S,
    reading: &mut Reading,
) -> Result<Table<Instr>, ReadError>
    ensures value { ReadsPart S.left S.faults code_part w.old source.old w.new source.new
        (with_offsets result (reading.new).starts) }
    ensures rising { OnOk result (IsRising (reading.new).starts) }
    ensures count { IfOk result (λ is. length (reading.new).starts ≡ length is + 1) }
    ensures few { OnOk result (length (reading.new).starts < 2 ^ 32) }
    ensures ready { IfOk result IsReady }
{
    let length = read_length(w, source)?;
    let first = w.place();
    read_pieces(alloc, w, source, length, reading)?;
    match take_instrs(alloc, reading) {
        Ok(instrs) => Ok(instrs),
        Err(Missed::Target(at)) => Err(ReadError::Refused {
            place: first + at,
            reason: Reason::Target,
        }),
        Err(Missed::NoMemory) => Err(ReadError::NoMemory),
    }
}

/// Reads the number of code's bytes, below 2^23, and the instructions that fill them without a gap; their targets are
/// numbers of instructions, counted from 0, and the number of all of them is the end. It is refused by `CodeLength` at
/// the length; then by the first instruction that can't be read: by `Opcode` at its opcode, by `CodeEnds` there where it
/// needs a byte past the code, or as its numbers are; and then by `Target` at the first offset that leads to no start of
/// an instruction and not to the end. Whether the source tells its bytes or not, the instructions can be put.
pub fn read_code<S: Source>(
    alloc: Global,
    w: &mut Window,
    source: &mut S,
) -> Result<Code, ReadError>
    ensures value { ReadsPart S.left S.faults code_part w.old source.old w.new source.new result }
    ensures answers { AnswersPart code_part w.old (S.left source.old) w.new (S.left source.new) result }
    ensures rising { IfOk result (λ c. IsRising c.offsets) }
    ensures count { IfOk result (λ c. length c.offsets ≡ length c.instrs + 1) }
    ensures few { IfOk result (λ c. length c.offsets < 2 ^ 32) }
    ensures ready { IfOk result (λ c. IsReady c.instrs) }
{
    let _place = w.place();
    let mut reading = Reading::new(alloc);
    match read_code_within(alloc, w, source, &mut reading) {
        Ok(instrs) => Ok(Code {
            instrs,
            offsets: reading.starts.take(alloc),
        }),
        Err(e) => Err(e),
    }
}
