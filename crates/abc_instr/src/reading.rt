ghost use Rattle.std.specs.Prelude.{◌≡◌, ◌≤◌, ◌<◌, ◌+◌, ◌^◌, ◌++◌, ◌∷◌, [], None, IfOk, OnOk, length, map};
ghost use Rattle.std.specs.Int.{w32, cast_signed};
ghost use Rattle.abc_file_types.specs.Ends.{blame_first};
ghost use Rattle.abc_file_types.specs.Instructions.{instruction, pieces as pieces_part};
ghost use Rattle.abc_varint.specs.Reads.{Blames, WindowKeeps, Reads, ReadsUntil};
ghost use Rattle.abc_instr.specs.Offsets.{IsRaw};
ghost use Rattle.abc_instr.specs.Reading.{IsReading, AreInstructionsRead, ReadsPieces, Takes, TakesInstrOn};

use crate::front::Front;
use crate::push::push_next;
use crate::raw::{RawInstr, read_raw};
use crate::starts::Starts;
use abc_base::{NoMemory, Source, Table};
use abc_file_types::{BoxedList, Instr};
use abc_varint::{ReadError, Window};
use std::alloc::Global;

/// Code between reading and resolving. Its memory serves one code after the other.
#[derive(Debug, Drop)]
pub struct Reading {
    /// Where each instruction starts, and where the last one ends.
    pub starts: Starts,
    /// The instructions. One with targets has its offsets in their place.
    pub instrs: Table<Instr>,
    /// The numbers of those with targets.
    pub aims: Vec<u32>,
}

/// The offsets, as numbers of as many bits.
fn as_numbers(alloc: Global, offsets: &Table<i32>) -> Result<Table<u32>, NoMemory>
    ensures { IfOk result (λ ns. map (cast_signed w32) ns ≡ offsets.now) }
{
    let mut numbers = Table::new(alloc);
    for offset in offsets.as_slice() {
        numbers.push(offset.cast_unsigned())?;
    }
    Ok(numbers)
}

impl Reading {
    /// A reading of nothing. It takes no memory.
    pub fn new(alloc: Global) -> Reading
        ensures starts { result.starts ≡ [] }
        ensures instrs { result.instrs ≡ [] }
        ensures aims { result.aims.items ≡ [] }
    {
        Reading {
            starts: Starts::new(alloc),
            instrs: Table::new(alloc),
            aims: Vec::new(alloc),
        }
    }

    /// Begins again.
    fn begin(&mut self)
        ensures starts { (self.new).starts ≡ [] }
        ensures instrs { (self.new).instrs ≡ [] }
        ensures aims { (self.new).aims.items ≡ [] }
    {
        self.starts.clear();
        self.instrs.truncate(0);
        self.aims.clear();
    }

    /// Adds an instruction that has offsets in the place of its targets.
    fn wait(&mut self, instr: Instr) -> Result<(), NoMemory>
        requires few { length (self.old).instrs < 2 ^ 32 }
        ensures instrs { OnOk result ((self.new).instrs ≡ (self.old).instrs ++ instr ∷ []) }
        ensures aims { OnOk result
            ((self.new).aims.items ≡ (self.old).aims.items ++ length (self.old).instrs ∷ []) }
        ensures starts { OnOk result ((self.new).starts ≡ (self.old).starts) }
    {
        let index = self.instrs.len() as u32;
        self.instrs.push(instr)?;
        self.aims.push(index)?;
        Ok(())
    }

    /// Adds an instruction.
    fn keep(&mut self, alloc: Global, instr: RawInstr) -> Result<(), NoMemory>
        requires raw { IsRaw instr }
        requires few { length (self.old).instrs < 2 ^ 32 }
        ensures { OnOk result (Takes instr self.old self.new) }
    {
        match instr {
            RawInstr::Same(same) => {
                self.instrs.push(same)?;
                Ok(())
            }
            RawInstr::Branch(op, offset) => self.wait(Instr::Branch(op, offset.cast_unsigned())),
            RawInstr::Switch { default, cases } => {
                let cases = BoxedList::new(alloc, as_numbers(alloc, &cases)?)?;
                let default = default.cast_unsigned();
                self.wait(Instr::Switch { default, cases })
            }
        }
    }

    /// Reads an instruction, by way of its value.
    #[inline(never)]
    fn take_any<S: Source>(
        &mut self,
        alloc: Global,
        w: &mut Window,
        source: &mut S,
    ) -> Result<(), ReadError>
        requires fresh { w.old.kept ≡ None }
        requires few { length (self.old).instrs < 2 ^ 32 }
        ensures value { TakesInstrOn
            (Reads (blame_first instruction).reads w.old (S.left source.old) w.new (S.left source.new)) w.old
            w.new self.old self.new result }
        ensures later { S.faults source.old ≤ S.faults source.new }
        ensures cause { Blames w.old (S.faults source.old) (S.faults source.new) result }
        ensures keeps { WindowKeeps w.old w.new result }
    {
        let instr = read_raw(alloc, w, source)?;
        let _next = w.place();
        self.keep(alloc, instr)?;
        Ok(())
    }

    /// Reads an instruction straight from the bytes at hand, where that can be done.
    #[inline(always)]
    #[tactic(auto, using(abc_varint::proofs::Inputs::known_is))]
    fn take_next<S: Source>(
        &mut self,
        alloc: Global,
        w: &mut Window,
        source: &mut S,
    ) -> Result<(), ReadError>
        requires fresh { w.old.kept ≡ None }
        requires few { length (self.old).instrs < 2 ^ 32 }
        ensures value { TakesInstrOn
            (Reads (blame_first instruction).reads w.old (S.left source.old) w.new (S.left source.new)) w.old
            w.new self.old self.new result }
        ensures later { S.faults source.old ≤ S.faults source.new }
        ensures cause { Blames w.old (S.faults source.old) (S.faults source.new) result }
        ensures keeps { WindowKeeps w.old w.new result }
    {
        match push_next(w, &mut self.instrs)? {
            Some(Front::Put(_)) => Ok(()),
            Some(Front::Branch(op, offset)) => {
                Ok(self.wait(Instr::Branch(op, offset.cast_unsigned()))?)
            }
            None => self.take_any(alloc, w, source),
        }
    }
}

/// Reads the instructions up to the window's end.
fn read_until<S: Source>(
    alloc: Global,
    w: &mut Window,
    source: &mut S,
    byte_count: u32,
    reading: &mut Reading,
) -> Result<(), ReadError>
    requires fresh { w.old.kept ≡ None }
    requires end { w.old.end ≤ w.old.place + byte_count }
    requires small { byte_count < 2 ^ 23 }
    ensures value { ReadsPieces (ReadsUntil byte_count (pieces_part byte_count).reads w.old
        (S.left source.old) w.new (S.left source.new)) IsReading byte_count w.old w.new reading.new
        result }
    ensures later { S.faults source.old ≤ S.faults source.new }
    ensures cause { Blames w.old (S.faults source.old) (S.faults source.new) result }
    ensures keeps { WindowKeeps w.old w.new result }
{
    reading.begin();
    let first = w.place();
    for _ in 0..byte_count {
        let here = w.place() - first;
        if here >= byte_count {
            break;
        }
        reading.starts.push(here)?;
        reading.take_next(alloc, w, source)?;
    }
    Ok(())
}

/// Reads the instructions of so many bytes, within an end that is set for them, and no further than the window's own.
fn read_within<S: Source>(
    alloc: Global,
    w: &mut Window,
    source: &mut S,
    byte_count: u32,
    reading: &mut Reading,
) -> Result<(), ReadError>
    requires fresh { w.old.kept ≡ None }
    requires small { byte_count < 2 ^ 23 }
    ensures value { ReadsPieces
        (Reads (pieces_part byte_count).reads w.old (S.left source.old) w.new (S.left source.new)) IsReading
        byte_count w.old w.new reading.new result }
    ensures later { S.faults source.old ≤ S.faults source.new }
    ensures cause { Blames w.old (S.faults source.old) (S.faults source.new) result }
    ensures keeps { WindowKeeps w.old w.new result }
{
    let outer = w.end();
    let end = outer.min(w.place() + byte_count);
    w.set_end(end);
    let done = read_until(alloc, w, source, byte_count, reading);
    w.set_end(outer);
    done
}

/// Reads the instructions of so many bytes.
pub fn read_pieces<S: Source>(
    alloc: Global,
    w: &mut Window,
    source: &mut S,
    byte_count: u32,
    reading: &mut Reading,
) -> Result<(), ReadError>
    requires fresh { w.old.kept ≡ None }
    requires small { byte_count < 2 ^ 23 }
    ensures value { ReadsPieces
        (Reads (pieces_part byte_count).reads w.old (S.left source.old) w.new (S.left source.new))
        AreInstructionsRead byte_count w.old w.new reading.new result }
    ensures later { S.faults source.old ≤ S.faults source.new }
    ensures cause { Blames w.old (S.faults source.old) (S.faults source.new) result }
    ensures keeps { WindowKeeps w.old w.new result }
{
    let first = w.place();
    read_within(alloc, w, source, byte_count, reading)?;
    reading.starts.push(w.place() - first)?;
    Ok(())
}
