ghost use Rattle.std.specs.Prelude.{◌≡◌, ◌<◌, ◌≤◌, ◌^◌, ◌↔◌, All, length, IfOk, IsTrue};
ghost use Rattle.abc_base_graphs.specs.Graph.{IsGraph, IsFirstReturn, Returns, leads_to};
ghost use Rattle.abc_base_graphs.specs.Ranks.{NeverRises, Falls, rank_of_node};

use crate::ranks::ranks_of;
use crate::search::{reached, targets_of};
use abc_base::{NoMemory, Table};
use std::alloc::Global;

/// Whether the ranks of some nodes are all at most a limit.
fn are_at_most(nodes: &Table<u32>, ranks: &[u32], limit: u32) -> bool
    requires { All (λ y. y < length ranks.now) nodes.now }
    ensures { IsTrue result → All (λ y. rank_of_node ranks.now y ≤ limit) nodes.now }
{
    for y in nodes.as_slice() {
        if ranks[*y as usize] > limit {
            return false;
        }
    }
    true
}

/// Whether the ranks of some nodes are all below a limit.
fn are_below(nodes: &Table<u32>, ranks: &[u32], limit: u32) -> bool
    requires { All (λ y. y < length ranks.now) nodes.now }
    ensures { IsTrue result → All (λ y. rank_of_node ranks.now y < limit) nodes.now }
{
    for y in nodes.as_slice() {
        if ranks[*y as usize] >= limit {
            return false;
        }
    }
    true
}

/// Whether no edge rises.
#[tactic(auto, using(crate::proofs::Searched::targets_in_range))]
fn never_rises(graph: &Table<Table<u32>>, ranks: &[u32]) -> bool
    requires in_range { IsGraph graph.now }
    requires few { length graph.now < 2 ^ 32 }
    requires ranks { length ranks.now ≡ length graph.now }
    ensures { IsTrue result → NeverRises graph.now ranks.now }
{
    for x in 0..graph.len() as u32 {
        if !are_at_most(targets_of(graph, x), ranks, ranks[x as usize]) {
            return false;
        }
    }
    true
}

/// Whether each edge of a node falls.
#[tactic(auto, using(crate::proofs::Searched::targets_in_range))]
fn falls(graph: &Table<Table<u32>>, ranks: &[u32], node: u32) -> bool
    requires in_range { IsGraph graph.now }
    requires known { node < length graph.now }
    requires ranks { length ranks.now ≡ length graph.now }
    ensures { IsTrue result → Falls graph.now ranks.now node }
{
    are_below(targets_of(graph, node), ranks, ranks[node as usize])
}

/// Whether following edges from a node returns to it.
fn returns(alloc: Global, graph: &Table<Table<u32>>, node: u32) -> Result<bool, NoMemory>
    requires in_range { IsGraph graph.now }
    requires known { node < length graph.now }
    ensures { IfOk result (λ b. IsTrue b ↔ Returns graph.now node) }
{
    let marks = reached(alloc, graph, node)?;
    Ok(marks[node as usize])
}

/// The first node that returns to itself. Where the ranks are well chosen, at most one node is searched from.
#[tactic(auto, using(crate::proofs::Ranked::never_returns))]
pub fn first_return(alloc: Global, graph: &Table<Table<u32>>) -> Result<Option<u32>, NoMemory>
    requires in_range { IsGraph graph.now }
    requires few { length graph.now < 2 ^ 32 }
    ensures { IfOk result (λ r. IsFirstReturn graph.now r) }
{
    let ranks = ranks_of(alloc, graph)?;
    let trusted = never_rises(graph, &ranks);
    for x in 0..graph.len() as u32 {
        let is_free = trusted && falls(graph, &ranks, x);
        if !is_free && returns(alloc, graph, x)? {
            return Ok(Some(x));
        }
    }
    Ok(None)
}
