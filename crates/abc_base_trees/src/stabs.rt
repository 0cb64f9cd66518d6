ghost use Rattle.abc_base_trees.specs.Hanging.{AreLinksWhole};

use crate::bounds::piece_of;
use crate::hang::Hang;
use abc_base::{NoMemory, Table};
use std::alloc::Global;

/// Ranges in a tree. The places are parted by the bounds of the ranges, and its leaves are these parts, in order; the nodes
/// have the numbers from 1 on, and above the node n is the node n / 2.
#[derive(Debug, Drop)]
pub struct Stabs {
    /// Where ranges begin or end, in order.
    pub(crate) bounds: Vec<u32>,
    /// For each node the link to what hangs there first.
    pub(crate) firsts: Table<u32>,
    /// All that hangs anywhere. The link to it is one more than its place here, and 0 leads to nothing.
    pub(crate) hangs: Table<Hang>,
    ghost whole: { AreLinksWhole bounds.items firsts hangs },
}

/// How many things can hang.
const MOST: usize = u32::MAX as usize;

impl Stabs {
    ghost use Rattle.std.specs.Prelude.{◌≡◌, ◌+◌, ◌-◌, ◌*◌, ◌<◌, ◌≤◌, ◌^◌, [], true, false, length, IfSome, OnOk};
    ghost use Rattle.abc_base_trees.specs.Hanging.{first_link, at_link};
    ghost use Rattle.abc_base_trees.specs.Hung.{IsStabFree, IsStabTaken, leaf, leaves};
    ghost use Rattle.abc_base_trees.specs.Adding.{AddsAtNode, Spans};

    /// No ranges. It takes no memory.
    pub fn new(alloc: Global) -> Stabs
        ensures bounds { result.bounds.items ≡ [] }
        ensures firsts { result.firsts ≡ [] }
    {
        Stabs {
            bounds: Vec::new(alloc),
            firsts: Table::new(alloc),
            hangs: Table::new(alloc),
        }
    }

    /// One more than the highest number of a node.
    pub fn nodes(&self) -> usize
        ensures is { result ≡ 2 * leaves self.now }
        ensures few { result < 2 ^ 32 }
    {
        2 * (self.bounds.len() + 1)
    }

    /// The lowest node above a place.
    #[tactic(auto, using(crate::proofs::Pieces::piece_few))]
    pub fn leaf(&self, place: u32) -> u32
        ensures is { result ≡ leaf self.now place }
        ensures inside { result < 2 * leaves self.now }
    {
        let piece = piece_of(self.bounds.as_slice(), place);
        (piece + self.bounds.len() + 1) as u32
    }

    /// The link to what hangs first at a node.
    pub fn first(&self, node: u32) -> u32
        ensures { result ≡ first_link self.now.firsts node }
    {
        match self.firsts.fetch(node as usize) {
            Some(link) => link,
            None => 0,
        }
    }

    /// What a link leads to, or `None` where it leads to nothing.
    pub fn find(&self, link: u32) -> Option<Hang>
        ensures is { result ≡ at_link self.now.hangs link }
        ensures back { IfSome result (λ h. h.next < link) }
    {
        match link.checked_sub(1) {
            Some(index) => self.hangs.fetch(index as usize),
            None => None,
        }
    }

    /// Whether no range covers a place.
    pub fn is_free(&self, place: u32) -> bool
        ensures free { result ≡ true → IsStabFree self.now place }
        ensures taken { result ≡ false → IsStabTaken self.now place }
    {
        let mut node = self.leaf(place);
        while node > 0 {
            if self.first(node) != 0 {
                return false;
            }
            node /= 2;
        }
        true
    }

    /// A range hangs at a node.
    fn hang_at(&mut self, node: u32, number: u32) -> Result<(), NoMemory>
        requires low { 0 < node }
        requires inside { node < length self.old.firsts }
        ensures { OnOk result (AddsAtNode true node number self.old self.new) }
    {
        if self.hangs.len() >= MOST {
            return Err(NoMemory);
        }
        let next = self.first(node);
        self.hangs.push(Hang { number, next })?;
        self.firsts.set(node as usize, self.hangs.len() as u32);
        Ok(())
    }

    /// A range hangs at a node, if that is so.
    fn hang_if(&mut self, so: bool, node: u32, number: u32) -> Result<(), NoMemory>
        requires low { 0 < node }
        requires inside { node < length self.old.firsts }
        ensures { OnOk result (AddsAtNode so node number self.old self.new) }
    {
        if so {
            self.hang_at(node, number)?;
        }
        Ok(())
    }

    /// A range hangs at the fewest nodes that are above the leaves from one on and before another.
    pub(crate) fn hang(&mut self, number: u32, from: u32, to: u32) -> Result<(), NoMemory>
        requires long { length self.old.firsts ≡ 2 * leaves self.old }
        requires from { leaves self.old ≤ from }
        requires to { to ≤ 2 * leaves self.old }
        ensures { OnOk result (Spans number from to self.old self.new) }
    {
        let mut low = from;
        let mut high = to;
        while low < high {
            self.hang_if(low % 2 == 1, low, number)?;
            self.hang_if(high % 2 == 1, high - 1, number)?;
            low = (low + 1) / 2;
            high /= 2;
        }
        Ok(())
    }
}
