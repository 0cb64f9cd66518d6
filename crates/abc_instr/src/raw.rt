ghost use Rattle.std.specs.Prelude.{All, ◌≡◌, ◌≤◌, ◌<◌, ◌*◌, ◌^◌, None, Some, IfOk, OnOk, length};
ghost use Rattle.std.specs.Int.{w16, cast_unsigned};
ghost use Rattle.abc_file_types.specs.Canonical.{FitsS24};
ghost use Rattle.abc_file_types.specs.Ends.{blame_first};
ghost use Rattle.abc_file_types.specs.Lists.{times};
ghost use Rattle.abc_file_types.specs.Numbers.{s24};
ghost use Rattle.abc_file_types.specs.Instructions.{opcode_part, signed_byte, signed_short, instruction};
ghost use Rattle.abc_file_types.specs.CodeBytes.{number_len};
ghost use Rattle.abc_file_types.specs.Opcodes.{form_at};
ghost use Rattle.abc_varint.specs.Reads.{Blames, WindowKeeps, Reads, ReadsPart};
ghost use Rattle.abc_varint.specs.View.{GoesOver};
ghost use Rattle.abc_instr.specs.Offsets.{raw_len, raw_of, map_value, IsRaw};

use abc_base::{Source, Table};
use abc_file_types::{Form, Instr, Reason, opcode};
use abc_varint::{ReadError, Window, read_s24, read_u8, read_u30, read_u32};
use std::alloc::Global;

/// An instruction as it is spelled: one without targets is itself, and a branch and a switch have offsets in bytes.
#[derive(Debug, Drop)]
pub enum RawInstr {
    /// One without targets.
    Same(Instr),
    /// A branch, with its offset.
    Branch(u8, i32),
    /// `lookupswitch`, with the offsets of its default and of its cases.
    Switch { default: i32, cases: Table<i32> },
}

/// An opcode that some instruction has, and what follows it.
#[tactic(auto, unfolding(abc_file_types::specs::Instructions::opcode_part, abc_file_types::specs::Opcodes::form_at))]
fn read_opcode<S: Source>(w: &mut Window, source: &mut S) -> Result<(u8, Form), ReadError>
    ensures moves { OnOk result (w.old.place < w.new.place) }
    ensures value { ReadsPart S.left S.faults opcode_part w.old source.old w.new source.new result }
    ensures passes { OnOk result (GoesOver 1 w.old w.new) }
    ensures form { IfOk result (λ x. form_at x.0 ≡ Some x.1) }
{
    let place = w.place();
    let op = read_u8(w, source)?;
    match opcode(op) {
        Some(info) => Ok((op, info.form)),
        None => Err(ReadError::Refused {
            place,
            reason: Reason::Opcode,
        }),
    }
}

/// A byte, in two's complement.
#[tactic(auto, unfolding(abc_file_types::specs::Instructions::signed_byte))]
fn read_signed_byte<S: Source>(w: &mut Window, source: &mut S) -> Result<i8, ReadError>
    ensures value { ReadsPart S.left S.faults signed_byte w.old source.old w.new source.new result }
    ensures passes { OnOk result (GoesOver 1 w.old w.new) }
{
    let x = read_u8(w, source)?;
    Ok(x.cast_signed())
}

/// A u32, of which the low 16 bits count, in two's complement.
#[tactic(auto, unfolding(abc_file_types::specs::Instructions::signed_short))]
fn read_signed_short<S: Source>(w: &mut Window, source: &mut S) -> Result<i16, ReadError>
    ensures value { ReadsPart S.left S.faults signed_short w.old source.old w.new source.new result }
    ensures passes { IfOk result (λ z. GoesOver (number_len (cast_unsigned w16 z)) w.old w.new) }
{
    let x = read_u32(w, source)?;
    Ok(((x % 65536) as u16).cast_signed())
}

/// An offset in bytes.
fn read_offset<S: Source>(w: &mut Window, source: &mut S) -> Result<i32, ReadError>
    ensures value { ReadsPart S.left S.faults s24 w.old source.old w.new source.new result }
    ensures fits { IfOk result FitsS24 }
    ensures passes { OnOk result (GoesOver 3 w.old w.new) }
{
    let offset = read_s24(w, source)?;
    Ok(offset)
}

/// So many offsets.
fn read_offsets<S: Source>(
    alloc: Global,
    w: &mut Window,
    source: &mut S,
    count: u32,
) -> Result<Table<i32>, ReadError>
    requires { w.old.kept ≡ None }
    ensures value { ReadsPart S.left S.faults (times count s24) w.old source.old w.new source.new result }
    ensures count { IfOk result (λ xs. length xs ≡ count) }
    ensures fits { IfOk result (λ xs. All FitsS24 xs) }
    ensures passes { OnOk result (w.old.place ≤ w.old.end → GoesOver (3 * count) w.old w.new) }
{
    let mut offsets = Table::new(alloc);
    for _ in 0..count {
        let offset = read_offset(w, source)?;
        offsets.push(offset)?;
    }
    Ok(offsets)
}

/// An instruction; where it needs a byte past the end, that is told at that byte.
#[tactic(auto, unfolding(abc_file_types::specs::Instructions::instruction, abc_file_types::specs::Instructions::switch_offsets))]
fn read_instruction<S: Source>(
    alloc: Global,
    w: &mut Window,
    source: &mut S,
) -> Result<RawInstr, ReadError>
    ensures moves { OnOk result (w.old.place < w.new.place) }
    ensures value { ReadsPart S.left S.faults instruction w.old source.old w.new source.new
        (map_value raw_of result) }
    ensures raw { IfOk result IsRaw }
    ensures passes { IfOk result (λ i. GoesOver (raw_len i) w.old w.new) }
{
    let (op, form) = read_opcode(w, source)?;
    match form {
        Form::Plain => Ok(RawInstr::Same(Instr::Plain(op))),
        Form::One => {
            let n = read_u30(w, source)?;
            Ok(RawInstr::Same(Instr::One(op, n)))
        }
        Form::Two => {
            let n = read_u30(w, source)?;
            let m = read_u30(w, source)?;
            Ok(RawInstr::Same(Instr::Two(op, n, m)))
        }
        Form::Branch => {
            let offset = read_offset(w, source)?;
            Ok(RawInstr::Branch(op, offset))
        }
        Form::Switch => {
            let default = read_offset(w, source)?;
            let count = read_u30(w, source)?;
            let cases = read_offsets(alloc, w, source, count + 1)?;
            Ok(RawInstr::Switch { default, cases })
        }
        Form::Byte => {
            let x = read_signed_byte(w, source)?;
            Ok(RawInstr::Same(Instr::Byte(x)))
        }
        Form::Short => {
            let x = read_signed_short(w, source)?;
            Ok(RawInstr::Same(Instr::Short(x)))
        }
        Form::ScopeObject => {
            let x = read_u8(w, source)?;
            Ok(RawInstr::Same(Instr::ScopeObject(x)))
        }
        Form::Debug => {
            let kind = read_u8(w, source)?;
            let name = read_u30(w, source)?;
            let reg = read_u8(w, source)?;
            let extra = read_u30(w, source)?;
            Ok(RawInstr::Same(Instr::Debug {
                kind,
                name,
                reg,
                extra,
            }))
        }
    }
}

/// An instruction; where it needs a byte past the end, that is told at its opcode.
#[tactic(auto, using(abc_file_types::proofs::Within::blamed_ends))]
pub fn read_raw<S: Source>(
    alloc: Global,
    w: &mut Window,
    source: &mut S,
) -> Result<RawInstr, ReadError>
    requires { w.old.kept ≡ None }
    ensures moves { OnOk result (w.old.place < w.new.place) }
    ensures value { Reads (blame_first instruction).reads w.old (S.left source.old) w.new (S.left source.new)
        (map_value raw_of result) }
    ensures raw { IfOk result IsRaw }
    ensures passes { IfOk result (λ i. GoesOver (raw_len i) w.old w.new) }
    ensures later { S.faults source.old ≤ S.faults source.new }
    ensures cause { Blames w.old (S.faults source.old) (S.faults source.new) result }
    ensures keeps { WindowKeeps w.old w.new result }
{
    let place = w.place();
    match read_instruction(alloc, w, source) {
        Err(
            ReadError::Refused {
                reason: Reason::CodeEnds,
                ..
            },
        ) => Err(w.blame(place)),
        other => other,
    }
}
