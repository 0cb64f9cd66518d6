//! Code on its way to its bytes: those of the instructions without targets, and where those with some stand among them.
ghost use Rattle.std.specs.Prelude.{◌≡◌, ◌<◌, ◌+◌, ◌^◌, ◌++◌, ◌∷◌, [], All, List, ℕ, length, take, drop, ◌-◌, IfOk, OnOk, OnErr};
ghost use Rattle.abc_instr.specs.Offsets.{has_targets as has_some};
ghost use Rattle.abc_instr.specs.Pieces.{ArePieces, with_gaps, free_bytes, gap_bytes, gaps_in};
ghost use Rattle.abc_file_types.specs.Code.{code_listing};
ghost use Rattle.abc_file_types.specs.CodeBytes.{canonical_starts, code_bytes, instr_len as len_of};
ghost use Rattle.abc_file_types.specs.Ready.{IsReady};
ghost use Rattle.abc_varint.specs.Puts.{Puts, PutsWhole};

use crate::put::{put_aimed, put_free, short_len};
use abc_base::{NoMemory, Table};
use abc_file_types::Instr;
use abc_varint::put_u30;
use std::alloc::Global;

/// The place of an instruction with targets.
#[derive(Clone, Copy, Debug)]
pub struct Gap {
    /// How many bytes of the instructions without targets stand before it.
    before: usize,
    /// Its number, counted from 0.
    index: usize,
}

/// Code in pieces. Its memory serves one code after the other.
#[derive(Debug, Drop)]
pub struct Pieces {
    /// The canonical bytes of the instructions without targets.
    plain: Vec<u8>,
    /// The instructions with targets, in order.
    gaps: Vec<Gap>,
    /// Where each instruction starts in the canonical code, and where the last one ends.
    pub starts: Table<u32>,
}

/// Whether an instruction has targets.
#[inline(always)]
fn has_targets(instr: &Instr) -> bool
    ensures { result ≡ has_some instr.now }
{
    match instr {
        Instr::Branch(_, _) => true,
        Instr::Switch { .. } => true,
        _ => false,
    }
}

impl Pieces {
    /// The pieces of no code. They take no memory.
    pub fn new(alloc: Global) -> Pieces {
        Pieces {
            plain: Vec::new(alloc),
            gaps: Vec::new(alloc),
            starts: Table::new(alloc),
        }
    }

    /// Notes an instruction with targets.
    fn note(&mut self, index: usize) -> Result<(), NoMemory>
        ensures plain { (self.new).plain.items ≡ (self.old).plain.items }
        ensures gaps { OnOk result ((self.new).gaps.items
            ≡ (self.old).gaps.items
            ++ record { before = length (self.old).plain.items; index = index } ∷ []) }
        ensures starts { (self.new).starts ≡ (self.old).starts }
    {
        let before = self.plain.len();
        self.gaps.push(Gap { before, index })?;
        Ok(())
    }

    /// Adds an instruction that starts here, and gives where it ends.
    #[inline(always)]
    #[tactic(auto, using(crate::proofs::Filling::aimed_plain, crate::proofs::Filling::aimed_gaps, crate::proofs::Filling::free_gaps, crate::proofs::Filling::free_len))]
    fn add(&mut self, instr: &Instr, index: usize, here: u32) -> Result<u32, NoMemory>
        requires { here + len_of instr.now < 2 ^ 32 }
        ensures end { IfOk result (λ n. n ≡ here + len_of instr.now) }
        ensures plain { OnOk result
            ((self.new).plain.items ≡ (self.old).plain.items ++ free_bytes instr.now) }
        ensures gaps { OnOk result ((self.new).gaps.items
            ≡ (self.old).gaps.items ++ gaps_in instr.now (length (self.old).plain.items) index) }
        ensures starts { OnOk result ((self.new).starts ≡ (self.old).starts ++ here ∷ []) }
    {
        self.starts.push(here)?;
        if has_targets(instr) {
            self.note(index)?;
            return Ok(here + short_len(instr));
        }
        let before = self.plain.len();
        put_free(instr, &mut self.plain)?;
        Ok(here + (self.plain.len() - before) as u32)
    }

    /// Takes code in pieces, in place of that which there was.
    #[tactic(auto, using(crate::proofs::Filling::none_taken))]
    pub fn take(&mut self, code: &Table<Instr>) -> Result<(), NoMemory>
        requires { IsReady code.now }
        ensures { OnOk result (ArePieces code.now self.new) }
    {
        self.plain.clear();
        self.gaps.clear();
        self.starts.truncate(0);
        let mut here = 0;
        for i in 0..code.len() {
            here = self.add(code.get(i), i, here)?;
        }
        self.starts.push(here)?;
        Ok(())
    }
}

/// Appends an instruction with targets.
fn put_gap(
    code: &Table<Instr>,
    starts: &[u32],
    gap: &Gap,
    out: &mut Vec<u8>,
) -> Result<(), NoMemory>
    requires ready { IsReady code.now }
    requires starts { starts.now ≡ canonical_starts code.now }
    requires within { (gap.now).index < length code.now }
    ensures { Puts out.old.items out.new.items result (gap_bytes starts.now code.now gap.now) }
{
    let instr = code.get(gap.index);
    put_aimed(instr, starts, starts[gap.index], starts[gap.index + 1], out)
}

/// Appends the bytes from one position to another, as far as there are some.
#[inline(always)]
fn put_range(bytes: &[u8], from: usize, to: usize, out: &mut Vec<u8>) -> Result<(), NoMemory>
    ensures { PutsWhole out.old.items out.new.items result (take (to - from) (drop from bytes.now)) }
{
    let to = to.min(bytes.len());
    let from = from.min(to);
    out.extend_from_slice(&bytes[from..to])?;
    Ok(())
}

/// Appends the bytes of the instructions without targets, with those of the gaps between them.
fn put_filled(
    code: &Table<Instr>,
    starts: &[u32],
    plain: &[u8],
    gaps: &[Gap],
    out: &mut Vec<u8>,
) -> Result<(), NoMemory>
    requires ready { IsReady code.now }
    requires starts { starts.now ≡ canonical_starts code.now }
    requires within { All (λ g. g.index < length code.now) gaps.now }
    ensures { Puts out.old.items out.new.items result (with_gaps starts.now code.now plain.now 0 gaps.now) }
{
    let mut from = 0;
    for gap in gaps {
        put_range(plain, from, gap.before, out)?;
        put_gap(code, starts, gap, out)?;
        from = gap.before;
    }
    put_range(plain, from, plain.len(), out)?;
    Ok(())
}

/// Appends the canonical code as `put_code` does, which was taken in pieces. Where memory runs out, the old bytes are still
/// the front.
#[tactic(auto, unfolding(abc_file_types::specs::CodeBytes::code_bytes), using(abc_varint::proofs::Putting::stays, std::proofs::Common::append_assoc))]
pub fn put_pieces(code: &Table<Instr>, pieces: &Pieces, out: &mut Vec<u8>) -> Result<(), NoMemory>
    requires ready { IsReady code.now }
    requires pieces { ArePieces code.now pieces.now }
    ensures { Puts out.old.items out.new.items result (code_bytes code.now) }
{
    put_u30(*pieces.starts.get(code.len()), out)?;
    put_filled(
        code,
        pieces.starts.as_slice(),
        &pieces.plain,
        &pieces.gaps,
        out,
    )?;
    Ok(())
}

/// Appends the canonical code: the number of its bytes, and the instructions, each number in as few bytes as it needs
/// and each target as an offset in those bytes. Where memory runs out, the bytes stay as they were.
pub fn put_code(alloc: Global, code: &Table<Instr>, out: &mut Vec<u8>) -> Result<(), NoMemory>
    // Some bytes spell the instructions.
    requires { (b : List ℕ) × code_listing.spells code.now b }
    ensures ok { OnOk result (out.new.items ≡ out.old.items ++ code_bytes code.now) }
    ensures err { OnErr result (out.new.items ≡ out.old.items) }
{
    let mut pieces = Pieces::new(alloc);
    pieces.take(code)?;
    let len = out.len();
    let done = put_pieces(code, &pieces, out);
    if done.is_err() {
        out.truncate(len);
    }
    done
}
