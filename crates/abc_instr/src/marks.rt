ghost use Rattle.std.specs.Prelude.{◌≡◌, ◌<◌, ◌^◌, ◌≤◌, ℕ, None, OnOk, IfSome, length};
ghost use Rattle.abc_instr.specs.Marks.{mark_at, with_mark};

use abc_base::NoMemory;
use std::alloc::Global;
use std::marker::Model;

/// No instruction starts there.
const UNMARKED: u32 = u32::MAX;

/// How many places the table gets at once, at least.
const MORE: usize = 64;

/// Places without marks, as the table gets them at once.
const BLANK: [u32; 64] = [UNMARKED; 64];

/// Where the instructions of some code start in its canonical bytes, by the places where they start in the bytes as they
/// were read.
#[derive(Debug, Drop)]
pub struct Marks {
    table: Vec<u32>,
}

impl Model for Marks {
    ghost use Rattle.std.specs.Prelude.{◌≡◌, ◌<◌, ◌^◌, ℕ, List, Some};
    ghost use Rattle.abc_instr.specs.Marks.{mark_at};

    ghost Value = { List ℕ };

    // By place, as `mark_at` reads it.
    ghost view = { λ m. m.table.items };

    // Code is shorter than 2^23 bytes.
    ghost invariant = { λ m. (p n : ℕ) → mark_at m.table.items p ≡ Some n → n < 2 ^ 23 };
}

/// Adds places without marks, so that the table has this one.
fn push_blank(table: &mut Vec<u32>, place: usize) -> Result<(), NoMemory>
    ensures same { OnOk result ((p : ℕ) → mark_at table.new.items p ≡ mark_at table.old.items p) }
    ensures long { OnOk result (place < length table.new.items) }
{
    while table.len() <= place {
        table.extend_from_slice(&BLANK)?;
    }
    Ok(())
}

impl Marks {
    /// Marks of no code. It takes no memory.
    pub(crate) fn new(alloc: Global) -> Marks
        ensures { (p : ℕ) → mark_at result p ≡ None }
    {
        Marks {
            table: Vec::new(alloc),
        }
    }

    /// Takes all marks away.
    pub(crate) fn clear(&mut self)
        ensures { (p : ℕ) → mark_at self.new p ≡ None }
    {
        self.table.clear();
    }

    /// Adds places without marks, so that the table has this one.
    #[cold]
    #[inline(never)]
    #[tactic(auto, using(crate::proofs::Marking::grown))]
    fn grow(&mut self, place: usize) -> Result<(), NoMemory>
        requires { length self.old ≤ place }
        ensures same { OnOk result ((p : ℕ) → mark_at self.new p ≡ mark_at self.old p) }
        ensures long { OnOk result (place < length self.new) }
    {
        self.table.resize(place.saturating_add(MORE), UNMARKED)?;
        Ok(())
    }

    /// Adds places without marks, so that the table has those below this one.
    #[inline(always)]
    pub(crate) fn reach(&mut self, end: usize) -> Result<(), NoMemory>
        ensures same { OnOk result ((p : ℕ) → mark_at self.new p ≡ mark_at self.old p) }
        ensures long { OnOk result (end ≤ length self.new) }
    {
        if end > self.table.len() {
            self.grow(end)?;
        }
        Ok(())
    }

    /// Marks a place.
    #[inline(always)]
    #[tactic(auto, using(crate::proofs::Marking::one_more, crate::proofs::Marking::stays_small))]
    pub(crate) fn set(&mut self, place: u32, moved: u32) -> Result<(), NoMemory>
        requires { moved < 2 ^ 23 }
        ensures { OnOk result ((p : ℕ) → mark_at self.new p ≡ with_mark place moved (mark_at self.old) p) }
    {
        let place = place as usize;
        if place >= self.table.len() {
            self.grow(place)?;
        }
        self.put(place, moved);
        Ok(())
    }

    /// Marks a place of the table.
    #[inline(always)]
    #[tactic(auto, using(crate::proofs::Marking::one_more, crate::proofs::Marking::stays_small))]
    pub(crate) fn put(&mut self, place: usize, moved: u32)
        requires place { place < length self.old }
        requires moved { moved < 2 ^ 23 }
        ensures marks { (p : ℕ) → mark_at self.new p ≡ with_mark place moved (mark_at self.old) p }
        ensures long { length self.new ≡ length self.old }
    {
        self.table[place] = moved;
    }

    /// What the table says of a place.
    #[inline(always)]
    fn find(&self, place: u32) -> Option<u32>
        ensures { result ≡ mark_at self.now place }
    {
        match self.table.get(place as usize) {
            Some(moved) if *moved != UNMARKED => Some(*moved),
            Some(_) => None,
            None => None,
        }
    }

    /// Where the instruction that starts at a place starts in the canonical bytes, or where they end, if it is marked.
    #[inline]
    #[tactic(auto, using(crate::proofs::Marking::bounded))]
    pub fn get(&self, place: u32) -> Option<u32>
        ensures is { result ≡ mark_at self.now place }
        ensures bound { IfSome result (λ n. n < 2 ^ 23) }
    {
        let _ = &self.table;
        self.find(place)
    }
}
