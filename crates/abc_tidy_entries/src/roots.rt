ghost use Rattle.std.specs.Prelude.{◌≡◌, ◌<◌, ◌^◌, ◌&&◌, [], length, true, IfOk, IsTrue, OnErr, OnOk, All};
ghost use Rattle.abc_tidy_refs.specs.Nodes.{counts_of, node_count};
ghost use Rattle.abc_tidy_refs.specs.Refs.{file_refs};
ghost use Rattle.abc_tidy_entries.specs.Once.{AreListMarks, is_in_list, once, with_one};
ghost use Rattle.abc_tidy_entries.specs.Roots.{is_root_there as is_there_in, with_ref};
ghost use Rattle.abc_tidy_entries.specs.Rules.{IsEntryThere};
ghost use Rattle.abc_tidy_entries.specs.Visited.{roots_of as roots_of_file};

use crate::checks::names_pool;
use crate::entries::node;
use crate::marks::no_marks;
use abc_base::{NoMemory, Table};
use abc_file_types::Abc;
use abc_tidy_refs::{Counts, Noting, Ref, note_file};
use std::alloc::Global;
use std::marker::Model;

/// Nodes, each once, with a mark for each that is there.
#[derive(Drop)]
struct Distinct {
    marks: Table<bool>,
    nodes: Table<u32>,
}

impl Distinct {
    /// Whether a node is there.
    #[tactic(auto, using(crate::proofs::Once::is_marked))]
    fn has(&self, node: u32) -> bool
        requires known { node < length self.now.marks }
        requires marked { AreListMarks self.now.marks self.now.nodes }
        ensures { result ≡ is_in_list node self.now.nodes }
    {
        *self.marks.get(node as usize)
    }

    /// Adds a node at the end, unless it is there.
    #[tactic(auto, using(crate::proofs::Once::kept, crate::proofs::Once::added, crate::proofs::Once::marked_one))]
    fn add(&mut self, node: u32) -> Result<(), NoMemory>
        requires known { node < length self.old.marks }
        requires marked { AreListMarks self.old.marks self.old.nodes }
        ensures nodes { OnOk result (self.new.nodes ≡ with_one self.old.nodes node) }
        ensures marked { OnOk result (AreListMarks self.new.marks self.new.nodes) }
        ensures many { OnOk result (length self.new.marks ≡ length self.old.marks) }
        ensures err { OnErr result (self.new ≡ self.old) }
    {
        if self.has(node) {
            return Ok(());
        }
        self.nodes.push(node)?;
        self.marks.set(node as usize, true);
        Ok(())
    }
}

/// Whether an index with this node names an entry, or nothing.
fn is_there(index: Ref, node: u32) -> bool
    ensures { result ≡ is_there_in node index }
{
    !names_pool(index.pool) || node != 0 || index.index == 0
}

fn both(first: bool, second: bool) -> bool
    ensures { result ≡ (first && second) }
{
    first && second
}

/// The nodes of the indices that were noted, each once, and whether each index names an entry, or nothing. Contracts see it
/// as these, with how many entries there are.
#[derive(Drop)]
struct Roots {
    counts: Counts,
    found: Distinct,
    are_there: bool,
}

impl Model for Roots {
    ghost use Rattle.std.specs.Prelude.{◌≡◌, ◌<◌, ◌^◌, length};
    ghost use Rattle.abc_tidy_refs.specs.Nodes.{node_count};
    ghost use Rattle.abc_tidy_entries.specs.Once.{AreListMarks};
    ghost use Rattle.abc_tidy_entries.specs.Roots.{RootsView};

    ghost Value = { RootsView };

    ghost view = { λ r. record { counts = r.counts; nodes = r.found.nodes; are_there = r.are_there } };

    ghost invariant = { λ r. (node_count r.counts < 2 ^ 32) × (length r.found.marks ≡ node_count r.counts)
        × AreListMarks r.found.marks r.found.nodes };
}

impl Roots {
    /// No roots as yet.
    fn new(alloc: Global, counts: Counts) -> Result<Roots, NoMemory>
        requires { node_count counts < 2 ^ 32 }
        ensures { IfOk result (λ r. r ≡ record { counts = counts; nodes = []; are_there = true }) }
    {
        let count = counts.nodes();
        let marks = no_marks(alloc, count)?;
        let none = Table::new(alloc);
        Ok(Roots {
            counts,
            found: Distinct { marks, nodes: none },
            are_there: true,
        })
    }

    /// The nodes, and whether each index names an entry, or nothing.
    fn finish(self) -> Named
        ensures nodes { result.nodes ≡ self.nodes }
        ensures there { result.are_there ≡ self.are_there }
    {
        let are_there = self.are_there;
        let found = self.found;
        Named {
            nodes: found.nodes,
            are_there,
        }
    }
}

impl Noting for Roots {
    ghost with_ref = { with_ref };

    #[inline]
    #[tactic(auto, using(crate::proofs::Nodes::node_within))]
    fn note(&mut self, index: Ref) -> Result<(), NoMemory> {
        let node = node(&self.counts, index.pool, index.index);
        let is_one_there = is_there(index, node);
        self.found.add(node)?;
        self.are_there = both(self.are_there, is_one_there);
        Ok(())
    }
}

/// What the indices of a file name.
#[derive(Drop)]
pub struct Named {
    /// The nodes that they name, each once, in the order in which they are first named.
    pub nodes: Table<u32>,
    /// Whether each names an entry, or nothing.
    pub are_there: bool,
}

/// What the definitions and bodies of a file name, whose pools have so many entries.
pub fn named_in(alloc: Global, abc: &Abc, counts: Counts) -> Result<Named, NoMemory>
    requires counts { counts ≡ counts_of abc.now }
    requires few { node_count counts < 2 ^ 32 }
    ensures nodes { IfOk result (λ n. n.nodes ≡ once (roots_of_file abc.now)) }
    ensures there { IfOk result (λ n. IsTrue n.are_there → All (IsEntryThere abc.now) (file_refs abc.now)) }
{
    let mut roots = Roots::new(alloc, counts)?;
    note_file(abc, &mut roots)?;
    Ok(roots.finish())
}
