ghost use Rattle.std.specs.Prelude.{◌≡◌, ◌<◌, ◌∷◌, ◌++◌, [], All, length, IfOk, MatchOption};
ghost use Rattle.abc_base_graphs.specs.Graph.{IsGraph, AreReachMarks, leads_to};
ghost use Rattle.abc_base_graphs.specs.Searching.{AddsNodes};

use abc_base::{NoMemory, Table};
use std::alloc::Global;

/// A search: which nodes were found, and those whose edges are still to be followed.
#[derive(Drop)]
struct Search {
    found: Vec<bool>,
    todo: Vec<u32>,
}

impl Search {
    /// Notes that a node was found.
    fn add(&mut self, node: u32) -> Result<(), NoMemory>
        requires { node < length self.old.found.items }
        ensures { IfOk result (λ _. AddsNodes self.old.found.items self.old.todo.items (node ∷ [])
            self.new.found.items self.new.todo.items) }
    {
        if !self.found[node as usize] {
            self.todo.push(node)?;
            self.found[node as usize] = true;
        }
        Ok(())
    }
}

impl Search {
    /// Notes that several nodes were found.
    #[tactic(auto, using(crate::proofs::Searched::adds_none, crate::proofs::Searched::adds_next, crate::proofs::Searched::in_range))]
    fn add_all(&mut self, nodes: &Table<u32>) -> Result<(), NoMemory>
        requires { All (λ y. y < length self.old.found.items) nodes.now }
        ensures { IfOk result (λ _. AddsNodes self.old.found.items self.old.todo.items nodes.now
            self.new.found.items self.new.todo.items) }
    {
        for node in nodes.as_slice() {
            self.add(*node)?;
        }
        Ok(())
    }
}

/// The nodes that a node leads to by one edge.
pub(crate) fn targets_of(graph: &Table<Table<u32>>, node: u32) -> &Table<u32>
    requires { node < length graph.now }
    ensures { result.now ≡ leads_to graph.now node }
{
    graph.get(node as usize)
}

impl Search {
    /// Notes all that a node leads to.
    #[tactic(auto, using(crate::proofs::Searched::targets_in_range))]
    fn follow(&mut self, graph: &Table<Table<u32>>, node: u32) -> Result<(), NoMemory>
        requires in_range { IsGraph graph.now }
        requires known { node < length graph.now }
        requires marks { length self.old.found.items ≡ length graph.now }
        ensures { IfOk result (λ _. AddsNodes self.old.found.items self.old.todo.items
            (leads_to graph.now node) self.new.found.items self.new.todo.items) }
    {
        self.add_all(targets_of(graph, node))
    }

    /// Takes a node whose edges are still to be followed.
    fn next(&mut self) -> Option<u32>
        ensures taken { MatchOption result ((self.old.todo.items ≡ []) × (self.new.todo.items ≡ []))
            (λ x. self.old.todo.items ≡ self.new.todo.items ++ x ∷ []) }
        ensures found { self.new.found.items ≡ self.old.found.items }
    {
        self.todo.pop()
    }
}

/// The nodes that a node leads to, as one mark for each node.
#[tactic(auto, using(crate::proofs::Searched::search_begun, crate::proofs::Searched::search_next, crate::proofs::Searched::search_done))]
pub fn reached(alloc: Global, graph: &Table<Table<u32>>, from: u32) -> Result<Vec<bool>, NoMemory>
    requires in_range { IsGraph graph.now }
    requires known { from < length graph.now }
    ensures { IfOk result (λ marks. AreReachMarks graph.now from marks.items) }
{
    let found = vec![in alloc; false; graph.len()]?;
    let mut search = Search {
        found,
        todo: Vec::new(alloc),
    };
    search.follow(graph, from)?;
    while let Some(node) = search.next() {
        search.follow(graph, node)?;
    }
    Ok(search.found)
}
