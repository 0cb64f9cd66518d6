ghost use Rattle.std.specs.Prelude.{◌≡◌, ◌<◌, ◌^◌, length, IfOk};
ghost use Rattle.abc_link_interfaces.specs.Sets.{ListsBelow};

use abc_base::{NoMemory, Table};
use std::alloc::Global;

/// A node whose edges are being followed, and how many of them were.
#[derive(Clone, Copy)]
struct Visit {
    node: u32,
    followed: usize,
}

/// A walk over a graph: the nodes that were met, those whose edges are being followed, and those that were left.
#[derive(Drop)]
struct Walk {
    met: Vec<bool>,
    way: Vec<Visit>,
    left: Vec<u32>,
}

/// Marks a node; whether it was not marked.
fn mark(met: &mut Vec<bool>, node: u32) -> bool {
    let at = node as usize;
    if at >= met.len() || met[at] {
        return false;
    }
    met[at] = true;
    true
}

/// The next edge of a node.
fn target_at(graph: &Table<Table<u32>>, visit: Visit) -> Option<u32> {
    match graph.find(visit.node as usize) {
        Some(targets) => targets.fetch(visit.followed),
        None => None,
    }
}

impl Walk {
    /// Begins to follow the edges of a node, unless it was met.
    fn meet(&mut self, node: u32) -> Result<(), NoMemory> {
        if mark(&mut self.met, node) {
            self.way.push(Visit { node, followed: 0 })?;
        }
        Ok(())
    }

    /// Follows the next edge of a node, or leaves it.
    fn visit(&mut self, graph: &Table<Table<u32>>, visit: Visit) -> Result<(), NoMemory> {
        match target_at(graph, visit) {
            Some(target) => {
                let followed = visit.followed.saturating_add(1);
                self.way.push(Visit {
                    node: visit.node,
                    followed,
                })?;
                self.meet(target)
            }
            None => {
                self.left.push(visit.node)?;
                Ok(())
            }
        }
    }

    /// Takes one step; whether there is one.
    fn step(&mut self, graph: &Table<Table<u32>>) -> Result<bool, NoMemory> {
        match self.way.pop() {
            None => Ok(false),
            Some(visit) => {
                self.visit(graph, visit)?;
                Ok(true)
            }
        }
    }

    /// Walks from a node.
    fn walk(&mut self, graph: &Table<Table<u32>>, node: u32) -> Result<(), NoMemory> {
        self.meet(node)?;
        for _step in 0..u64::MAX {
            if !self.step(graph)? {
                break;
            }
        }
        Ok(())
    }
}

/// The nodes of a graph, each behind what it leads to, unless it returns to itself. It is a hint: any list would do.
fn hint(alloc: Global, graph: &Table<Table<u32>>) -> Result<Vec<u32>, NoMemory>
    requires { length graph.now < 2 ^ 32 }
{
    let met = vec![in alloc; false; graph.len()]?;
    let mut walk = Walk {
        met,
        way: Vec::new(alloc),
        left: Vec::new(alloc),
    };
    for node in 0..graph.len() as u32 {
        walk.walk(graph, node)?;
    }
    Ok(walk.left)
}

/// The nodes in an order in which to go over them: first each behind what it leads to, and then all once more.
#[tactic(auto, using(crate::proofs::Visiting::none_listed, crate::proofs::Visiting::next_listed))]
pub(crate) fn visits(alloc: Global, graph: &Table<Table<u32>>) -> Result<Vec<u32>, NoMemory>
    requires { length graph.now < 2 ^ 32 }
    ensures { IfOk result (λ nodes. ListsBelow nodes.items (length graph.now)) }
{
    let mut nodes = hint(alloc, graph)?;
    for node in 0..graph.len() as u32 {
        nodes.push(node)?;
    }
    Ok(nodes)
}
