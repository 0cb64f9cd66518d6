ghost use Rattle.std.specs.Prelude.{◌≡◌, ◌<◌, ◌≤◌, ◌+◌, ◌∷◌, All, true, length, set, IfOk, OnOk};
ghost use Rattle.abc_base_graphs.specs.Graph.{IsGraph, leads_to};
ghost use Rattle.abc_base_trees.specs.Effort.{effort_unmarked};
ghost use Rattle.abc_base_trees.specs.Orders.{IsVisitOrder, NoneReturns};
ghost use Rattle.abc_base_trees.specs.Walks.{IsWalk, leave, with_entries};

use crate::classes::parts_of;
use crate::marks::has_mark;
use crate::rows::Rows;
use abc_base::{NoMemory, Table};
use abc_base_graphs::Stack;
use std::alloc::Global;

/// What is still to be done at a node.
#[derive(Clone, Copy, Debug)]
pub(crate) struct Task {
    pub(crate) node: u32,
    /// Whether the nodes that it leads to were entered.
    pub(crate) is_leaving: bool,
}

/// A walk, depth first: a node is left once those that it leads to are left, unless it returns to itself.
#[derive(Debug, Drop)]
struct Walk {
    entered: Vec<bool>,
    todo: Stack<Task>,
    order: Table<u32>,
}

impl Walk {
    /// Notes that some nodes are to be entered.
    #[tactic(auto, using(crate::proofs::Walked::pushed_next))]
    fn add_all(&mut self, nodes: &[u32]) -> Result<(), NoMemory>
        ensures todo { OnOk result (self.new.todo ≡ with_entries nodes.now self.old.todo) }
        ensures entered { OnOk result (self.new.entered.items ≡ self.old.entered.items) }
        ensures order { OnOk result (self.new.order ≡ self.old.order) }
    {
        for node in nodes {
            self.todo.push(Task {
                node: *node,
                is_leaving: false,
            })?;
        }
        Ok(())
    }
}

impl Walk {
    /// Enters a node for the first time.
    fn enter(&mut self, graph: &Rows<u32>, node: u32) -> Result<(), NoMemory>
        requires known { node < length graph.now }
        requires within { node < length self.old.entered.items }
        ensures marks { OnOk result (self.new.entered.items ≡ set self.old.entered.items node true) }
        ensures todo { OnOk result
            (self.new.todo ≡ with_entries (leads_to graph.now node) (leave node ∷ self.old.todo)) }
        ensures order { OnOk result (self.new.order ≡ self.old.order) }
    {
        self.entered[node as usize] = true;
        self.todo.push(Task {
            node,
            is_leaving: true,
        })?;
        self.add_all(parts_of(graph, node))
    }

    /// Does what is to be done at a node.
    #[tactic(auto, using(crate::proofs::Efforts::unmarked_within, crate::proofs::Efforts::marked_length))]
    fn step(&mut self, graph: &Rows<u32>, _roots: &Table<u32>, task: Task) -> Result<(), NoMemory>
        requires marks { length self.old.entered.items ≡ length graph.now }
        requires in_range { IsGraph graph.now }
        requires roots { All (λ y. y < length graph.now) _roots.now }
        ensures marks { OnOk result (length self.new.entered.items ≡ length graph.now) }
        ensures walk { OnOk result (NoneReturns graph.now _roots.now
            → IsWalk graph.now _roots.now self.old.entered.items self.old.order (task ∷ self.old.todo)
            → IsWalk graph.now _roots.now self.new.entered.items self.new.order self.new.todo) }
        ensures less { OnOk result (effort_unmarked graph.now self.new.entered.items + length self.new.todo
            ≤ effort_unmarked graph.now self.old.entered.items + length self.old.todo) }
    {
        if task.is_leaving {
            self.order.push(task.node)?;
            return Ok(());
        }
        if has_mark(&self.entered, task.node as usize) {
            return Ok(());
        }
        self.enter(graph, task.node)?;
        Ok(())
    }
}

/// The nodes that some nodes lead to, and these, in an order in which each stands behind those that it leads to, where none
/// of them returns to itself.
pub fn parts_first(
    alloc: Global,
    graph: &Rows<u32>,
    roots: &Table<u32>,
) -> Result<Table<u32>, NoMemory>
    requires in_range { IsGraph graph.now }
    requires roots { All (λ y. y < length graph.now) roots.now }
    ensures { IfOk result
        (λ order. NoneReturns graph.now roots.now → IsVisitOrder graph.now roots.now order) }
{
    let entered = vec![in alloc; false; graph.len()]?;
    let mut walk = Walk {
        entered,
        todo: Stack::new(alloc),
        order: Table::new(alloc),
    };
    walk.add_all(roots.as_slice())?;
    while let Some(task) = walk.todo.pop() {
        walk.step(graph, roots, task)?;
    }
    Ok(walk.order)
}
