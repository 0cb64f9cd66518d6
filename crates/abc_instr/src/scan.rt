ghost use Rattle.std.specs.Prelude.{◌≡◌, ◌≤◌, ◌<◌, ◌+◌, ◌-◌, ◌*◌, ◌^◌, ◌++◌, ◌∷◌, [], All, None, OnErr, OnOk, ℕ, length};
ghost use Rattle.std.specs.List.{flat_map};
ghost use Rattle.abc_file_types.specs.Canonical.{FitsS24, s24_bytes};
ghost use Rattle.abc_file_types.specs.Ends.{blame_first};
ghost use Rattle.abc_file_types.specs.Instructions.{instruction, pieces as pieces_part};
ghost use Rattle.abc_varint.specs.Puts.{PutsWhole};
ghost use Rattle.abc_varint.specs.Reads.{Blames, WindowKeeps, Reads, ReadsUntil, stored_value};
ghost use Rattle.abc_instr.specs.Marks.{mark_at};
ghost use Rattle.abc_instr.specs.Offsets.{raw_len, IsRaw};
ghost use Rattle.abc_instr.specs.Resolving.{Resolves, onto_found};
ghost use Rattle.abc_instr.specs.Runs.{ScansRun};
ghost use Rattle.abc_instr.specs.Scanning.{AddsInstruction, IsHole, Scans, ScansOn, ScansInstrOn, case_holes, raw_bytes, scan_bytes};

use crate::front::{Front, take_front};
use crate::holes::{Hole, mend};
use crate::marks::Marks;
use crate::put::{SWITCH, put_free};
use crate::raw::{RawInstr, read_raw};
use crate::resolve::Missed;
use crate::run::{AT_HAND, run};
use abc_base::{NoMemory, Source, Table};
use abc_varint::{ReadError, Window, put_count, put_s24, put_u8};
use std::alloc::Global;

/// Code between reading and putting. Its memory serves one code after the other.
#[derive(Debug, Drop)]
pub struct Scan {
    /// Where each instruction starts in the canonical code, and where the last one ends.
    pub marks: Marks,
    /// The canonical code, but for its offsets, which stand as they were read.
    pub code: Vec<u8>,
    /// Its offsets.
    pub holes: Vec<Hole>,
}

impl Scan {
    /// A scan of nothing. It takes no memory.
    pub fn new(alloc: Global) -> Scan
        ensures marks { (p : ℕ) → mark_at result.marks p ≡ None }
        ensures code { result.code.items ≡ [] }
        ensures holes { result.holes.items ≡ [] }
    {
        Scan {
            marks: Marks::new(alloc),
            code: Vec::new(alloc),
            holes: Vec::new(alloc),
        }
    }

    /// Begins again.
    fn begin(&mut self)
        ensures marks { (p : ℕ) → mark_at (self.new).marks p ≡ None }
        ensures code { (self.new).code.items ≡ [] }
        ensures holes { (self.new).holes.items ≡ [] }
    {
        self.marks.clear();
        self.code.clear();
        self.holes.clear();
    }

    /// How many canonical bytes there are.
    #[inline(always)]
    fn len(&self) -> u32
        requires { length (self.now).code.items < 2 ^ 32 }
        ensures { result ≡ length (self.now).code.items }
    {
        self.code.len() as u32
    }

    /// Passes by instructions straight from the bytes at hand, as far as they are in their shortest forms. `here` is where they
    /// start in the code.
    #[inline(always)]
    fn pass_run(&mut self, w: &mut Window, here: u32) -> Result<(), NoMemory>
        requires fresh { w.old.kept ≡ None }
        requires small { here + (w.old.end - w.old.place) < 2 ^ 23 }
        requires moved { length (self.old).code.items ≤ here }
        ensures run { OnOk result (ScansRun here w.old w.new self.old self.new) }
        ensures fresh { OnOk result (w.new.kept ≡ None) }
        ensures forth { OnOk result (w.old.place ≤ w.new.place) }
        ensures few { OnOk result
            (length (self.new).code.items + w.old.place ≡ length (self.old).code.items + w.new.place) }
        ensures same { OnErr result (w.new ≡ w.old) }
    {
        w.stays_small();
        let bytes = w.held();
        let left = w.end().saturating_sub(w.place()) as usize;
        let most = bytes.len().saturating_sub(AT_HAND).min(left);
        self.marks.reach(here as usize + most)?;
        let moved = self.len();
        let count = run(bytes, most, here, moved, &mut self.marks, &mut self.holes)?;
        self.code.extend_from_slice(&bytes[..count])?;
        if count > 0 {
            w.go_on(count);
        }
        Ok(())
    }

    /// Notes an offset, and appends it as it was read.
    fn put_hole(&mut self, place: u32, base: u32, moved: u32, offset: i32) -> Result<(), NoMemory>
        requires fits { FitsS24 offset }
        requires room { length (self.old).code.items < 2 ^ 32 }
        ensures code { OnOk result ((self.new).code.items ≡ (self.old).code.items ++ s24_bytes offset) }
        ensures holes { OnOk result ((self.new).holes.items
            ≡ (self.old).holes.items
            ++ record {
              place = place;
              at = length (self.old).code.items;
              base = base;
              moved = moved;
              offset = offset;
            } ∷ []) }
        ensures marks { OnOk result ((self.new).marks ≡ (self.old).marks) }
    {
        let at = self.len();
        self.holes.push(Hole {
            place,
            at,
            base,
            moved,
            offset,
        })?;
        put_s24(offset, &mut self.code)?;
        Ok(())
    }

    /// Appends a branch from `here` to `next`.
    fn put_branch(&mut self, op: u8, offset: i32, here: u32, next: u32) -> Result<(), NoMemory>
        requires raw { IsRaw (RawInstr.Branch op offset) }
        requires room { length (self.old).code.items + 4 < 2 ^ 32 }
        requires here { here < next }
        ensures { OnOk result
            (AddsInstruction (RawInstr.Branch op offset) (next - here) here self.old self.new) }
    {
        let moved = self.len() + 4;
        put_u8(op, &mut self.code)?;
        self.put_hole(here + 1, next, moved, offset)?;
        Ok(())
    }

    /// Appends the offsets of a switch's cases, the last of which ends at `next`.
    fn put_cases(
        &mut self,
        cases: &Table<i32>,
        next: u32,
        base: u32,
        moved: u32,
    ) -> Result<(), NoMemory>
        requires fits { All FitsS24 cases.now }
        requires room { length (self.old).code.items + 3 * length cases.now < 2 ^ 32 }
        ensures code { OnOk result
            ((self.new).code.items ≡ (self.old).code.items ++ flat_map s24_bytes cases.now) }
        ensures holes { OnOk result ((self.new).holes.items
            ≡ (self.old).holes.items
            ++ case_holes next (length (self.old).code.items) base moved cases.now) }
        ensures marks { OnOk result ((self.new).marks ≡ (self.old).marks) }
    {
        let slice = cases.as_slice();
        for (i, offset) in slice.iter().enumerate() {
            let after = slice.len() - i;
            let place = (next as usize).saturating_sub(after.saturating_mul(3)) as u32;
            self.put_hole(place, base, moved, *offset)?;
        }
        Ok(())
    }

    /// Appends a switch from `here` to `next`.
    fn put_switch(
        &mut self,
        default: i32,
        cases: &Table<i32>,
        here: u32,
        next: u32,
    ) -> Result<(), NoMemory>
        requires raw { IsRaw (RawInstr.Switch default cases.now) }
        requires room { length (self.old).code.items + raw_len (RawInstr.Switch default cases.now) < 2 ^ 32 }
        requires here { here < next }
        ensures { OnOk result
            (AddsInstruction (RawInstr.Switch default cases.now) (next - here) here self.old self.new) }
    {
        let moved = self.len();
        put_u8(SWITCH, &mut self.code)?;
        self.put_hole(here + 1, here, moved, default)?;
        put_count(cases.len().saturating_sub(1), &mut self.code)?;
        self.put_cases(cases, next, here, moved)?;
        Ok(())
    }

    /// Appends an instruction from `here` to `next`.
    #[tactic(auto, using(crate::proofs::Filling::free_is))]
    fn put(&mut self, instr: RawInstr, here: u32, next: u32) -> Result<(), NoMemory>
        requires raw { IsRaw instr }
        requires room { length (self.old).code.items + raw_len instr < 2 ^ 32 }
        requires here { here < next }
        ensures { OnOk result (AddsInstruction instr (next - here) here self.old self.new) }
    {
        match instr {
            RawInstr::Same(same) => {
                put_free(&same, &mut self.code)?;
                Ok(())
            }
            RawInstr::Branch(op, offset) => self.put_branch(op, offset, here, next),
            RawInstr::Switch { default, cases } => self.put_switch(default, &cases, here, next),
        }
    }

    /// Passes by an instruction, by way of its value.
    #[inline(never)]
    fn pass_any<S: Source>(
        &mut self,
        alloc: Global,
        w: &mut Window,
        source: &mut S,
        first: u32,
    ) -> Result<(), ReadError>
        requires fresh { w.old.kept ≡ None }
        requires first { first ≤ w.old.place }
        requires moved { length (self.old).code.items ≤ w.old.place }
        ensures value { ScansInstrOn
            (Reads (blame_first instruction).reads w.old (S.left source.old) w.new (S.left source.new)) first
            w.old w.new self.old self.new result }
        ensures later { S.faults source.old ≤ S.faults source.new }
        ensures cause { Blames w.old (S.faults source.old) (S.faults source.new) result }
        ensures keeps { WindowKeeps w.old w.new result }
    {
        let here = w.place() - first;
        let instr = read_raw(alloc, w, source)?;
        let next = w.place() - first;
        self.put(instr, here, next)?;
        Ok(())
    }

    /// Passes by an instruction straight from the bytes at hand, where that can be done.
    #[inline(always)]
    #[tactic(auto, using(abc_varint::proofs::Inputs::known_is))]
    fn pass_next<S: Source>(
        &mut self,
        alloc: Global,
        w: &mut Window,
        source: &mut S,
        first: u32,
    ) -> Result<(), ReadError>
        requires fresh { w.old.kept ≡ None }
        requires first { first ≤ w.old.place }
        requires moved { length (self.old).code.items ≤ w.old.place }
        ensures value { ScansInstrOn
            (Reads (blame_first instruction).reads w.old (S.left source.old) w.new (S.left source.new)) first
            w.old w.new self.old self.new result }
        ensures later { S.faults source.old ≤ S.faults source.new }
        ensures cause { Blames w.old (S.faults source.old) (S.faults source.new) result }
        ensures keeps { WindowKeeps w.old w.new result }
    {
        let here = w.place() - first;
        match take_front(w, &mut self.code)? {
            Some(Front::Put(_)) => Ok(()),
            Some(Front::Branch(op, offset)) => {
                let next = w.place() - first;
                self.put_branch(op, offset, here, next)?;
                Ok(())
            }
            None => self.pass_any(alloc, w, source, first),
        }
    }
}

/// Scans the instructions up to the window's end.
fn scan_until<S: Source>(
    alloc: Global,
    w: &mut Window,
    source: &mut S,
    byte_count: u32,
    scan: &mut Scan,
) -> Result<(), ReadError>
    requires fresh { w.old.kept ≡ None }
    requires end { w.old.end ≤ w.old.place + byte_count }
    requires small { byte_count < 2 ^ 23 }
    ensures value { ScansOn (ReadsUntil byte_count (pieces_part byte_count).reads w.old (S.left source.old)
        w.new (S.left source.new)) byte_count w.old w.new scan.new result }
    ensures later { S.faults source.old ≤ S.faults source.new }
    ensures cause { Blames w.old (S.faults source.old) (S.faults source.new) result }
    ensures keeps { WindowKeeps w.old w.new result }
{
    scan.begin();
    let first = w.place();
    for _ in 0..byte_count {
        let start = w.place() - first;
        scan.pass_run(w, start)?;
        let here = w.place() - first;
        if here >= byte_count {
            break;
        }
        let moved = scan.len();
        scan.marks.set(here, moved)?;
        scan.pass_next(alloc, w, source, first)?;
    }
    Ok(())
}

/// Scans the instructions of so many bytes, within an end that is set for them.
fn scan_within<S: Source>(
    alloc: Global,
    w: &mut Window,
    source: &mut S,
    byte_count: u32,
    scan: &mut Scan,
) -> Result<(), ReadError>
    requires fresh { w.old.kept ≡ None }
    requires small { byte_count < 2 ^ 23 }
    ensures value { ScansOn
        (Reads (pieces_part byte_count).reads w.old (S.left source.old) w.new (S.left source.new)) byte_count
        w.old w.new scan.new result }
    ensures later { S.faults source.old ≤ S.faults source.new }
    ensures cause { Blames w.old (S.faults source.old) (S.faults source.new) result }
    ensures keeps { WindowKeeps w.old w.new result }
{
    let outer = w.end();
    let end = outer.min(w.place() + byte_count);
    w.set_end(end);
    let done = scan_until(alloc, w, source, byte_count, scan);
    w.set_end(outer);
    done
}

/// Scans the instructions of so many bytes.
pub fn scan_code<S: Source>(
    alloc: Global,
    w: &mut Window,
    source: &mut S,
    byte_count: u32,
    scan: &mut Scan,
) -> Result<(), ReadError>
    requires fresh { w.old.kept ≡ None }
    requires small { byte_count < 2 ^ 23 }
    ensures value { Scans
        (Reads (pieces_part byte_count).reads w.old (S.left source.old) w.new (S.left source.new)) byte_count
        scan.new result }
    ensures later { S.faults source.old ≤ S.faults source.new }
    ensures cause { Blames w.old (S.faults source.old) (S.faults source.new) result }
    ensures keeps { WindowKeeps w.old w.new result }
{
    let first = w.place();
    scan_within(alloc, w, source, byte_count, scan)?;
    let moved = scan.len();
    scan.marks.set(w.place() - first, moved)?;
    Ok(())
}

/// Appends some bytes.
fn put_bytes(bytes: &[u8], out: &mut Vec<u8>) -> Result<(), NoMemory>
    ensures { PutsWhole out.old.items out.new.items result bytes.now }
{
    out.extend_from_slice(bytes)?;
    Ok(())
}

/// Appends the canonical code that was scanned, or gives the place of the first target that leads nowhere.
pub fn put_scan(scan: &mut Scan, out: &mut Vec<u8>) -> Result<(), Missed>
    requires { All (IsHole (length (scan.old).code.items)) (scan.old).holes.items }
    ensures bytes { Resolves (onto_found out.old.items (scan_bytes scan.old))
        (stored_value result out.new.items) }
    ensures marks { (scan.new).marks ≡ (scan.old).marks }
{
    put_count(scan.code.len(), out)?;
    mend(&mut scan.code, &scan.holes, &scan.marks)?;
    put_bytes(&scan.code, out)?;
    Ok(())
}
