ghost use Rattle.std.specs.Prelude.{◌≡◌, ◌<◌, ◌≤◌, ◌+◌, ◌∷◌, ◌++◌, [], List, false, true, get_or, length, set, IfOk, OnOk};
ghost use Rattle.abc_base_graphs.specs.Graph.{leads_to};
ghost use Rattle.abc_base_trees.specs.Classes.{AllClassed, HaveOwnClasses, AreTreeClasses, AreDistinct};
ghost use Rattle.abc_base_trees.specs.Effort.{effort_unmarked};
ghost use Rattle.abc_base_trees.specs.Trees.{Tree as TreeOf};
ghost use Rattle.abc_base_trees.specs.Visits.{IsVisit, IsVisited};

use crate::classes::{Classes, parts_of};
use crate::heads::Head;
use crate::marks::has_mark;
use crate::rows::Rows;
use abc_base::{NoMemory, Table};
use abc_base_graphs::Stack;
use std::alloc::Global;

/// A visit of nodes, of which only the first of each class is met.
#[derive(Debug, Drop)]
struct Visit {
    /// The classes of which a node was met.
    met: Vec<bool>,
    /// The nodes that were met, by their numbers.
    opened: Vec<bool>,
    /// The nodes that were met, in order.
    seen: Table<u32>,
    todo: Stack<u32>,
}

impl Visit {
    /// Puts some nodes on the stack, the first on top.
    #[tactic(auto, using(crate::proofs::Visited::pushed_before, crate::proofs::Visited::pushed_all))]
    fn add_all(&mut self, nodes: &[u32]) -> Result<(), NoMemory>
        ensures todo { OnOk result (self.new.todo ≡ nodes.now ++ self.old.todo) }
        ensures met { OnOk result (self.new.met.items ≡ self.old.met.items) }
        ensures opened { OnOk result (self.new.opened.items ≡ self.old.opened.items) }
        ensures seen { OnOk result (self.new.seen ≡ self.old.seen) }
    {
        for i in (0..nodes.len()).rev() {
            self.todo.push(nodes[i])?;
        }
        Ok(())
    }
}

impl Visit {
    /// Meets a node, and puts those that it leads to on the stack.
    fn meet(&mut self, graph: &Rows<u32>, node: u32, class: usize) -> Result<(), NoMemory>
        requires unmet { get_or self.old.met.items class true ≡ false }
        requires unopened { get_or self.old.opened.items node true ≡ false }
        requires known { node < length graph.now }
        ensures met { OnOk result (self.new.met.items ≡ set self.old.met.items class true) }
        ensures opened { OnOk result (self.new.opened.items ≡ set self.old.opened.items node true) }
        ensures seen { OnOk result (self.new.seen ≡ self.old.seen ++ node ∷ []) }
        ensures todo { OnOk result (self.new.todo ≡ leads_to graph.now node ++ self.old.todo) }
    {
        self.met[class] = true;
        self.opened[node as usize] = true;
        self.seen.push(node)?;
        self.add_all(parts_of(graph, node))
    }

    /// Visits a node that was on top of the stack.
    fn step(
        &mut self,
        _heads: &Table<Head>,
        graph: &Rows<u32>,
        classes: &Classes,
        node: u32,
    ) -> Result<(), NoMemory>
        requires valid { AreTreeClasses _heads.now graph.now classes.now.keys.keys classes.now.classes }
        requires distinct { AreDistinct classes.now.keys.keys }
        requires nodes { length self.old.opened.items ≡ length graph.now }
        ensures nodes { OnOk result (length self.new.opened.items ≡ length graph.now) }
        ensures visit { OnOk result ((final : List TreeOf)
            → IsVisit _heads.now graph.now classes.now.keys.keys classes.now.classes final
            self.old.met.items self.old.opened.items self.old.seen (node ∷ self.old.todo)
            → IsVisit _heads.now graph.now classes.now.keys.keys classes.now.classes final
            self.new.met.items self.new.opened.items self.new.seen self.new.todo) }
        ensures less { OnOk result (effort_unmarked graph.now self.new.opened.items + length self.new.todo
            ≤ effort_unmarked graph.now self.old.opened.items + length self.old.todo) }
    {
        match classes.class(node) {
            Some(class) => {
                if has_mark(&self.met, class) {
                    return Ok(());
                }
                if has_mark(&self.opened, node as usize) {
                    return Ok(());
                }
                self.meet(graph, node, class)?;
                Ok(())
            }
            None => Ok(()),
        }
    }
}

/// The nodes that are met when some nodes and all that they lead to are visited, depth first, each before those that it
/// leads to. Of each class only the first is met.
#[tactic(auto, using(crate::proofs::Visited::visit_ended, crate::proofs::Visited::visit_classed, crate::proofs::Visited::visit_apart))]
pub fn visit_order(
    alloc: Global,
    heads: &Table<Head>,
    graph: &Rows<u32>,
    classes: &Classes,
    roots: &Table<u32>,
) -> Result<Table<u32>, NoMemory>
    requires valid { AreTreeClasses heads.now graph.now classes.now.keys.keys classes.now.classes }
    requires distinct { AreDistinct classes.now.keys.keys }
    requires roots { AllClassed classes.now.classes roots.now }
    ensures visited { IfOk result (λ seen. IsVisited heads.now graph.now roots.now seen) }
    ensures classed { IfOk result (AllClassed classes.now.classes) }
    ensures apart { IfOk result (HaveOwnClasses classes.now.classes) }
{
    let met = vec![in alloc; false; classes.keys.len()]?;
    let opened = vec![in alloc; false; graph.len()]?;
    let mut visit = Visit {
        met,
        opened,
        seen: Table::new(alloc),
        todo: Stack::new(alloc),
    };
    visit.add_all(roots.as_slice())?;
    while let Some(node) = visit.todo.pop() {
        visit.step(heads, graph, classes, node)?;
    }
    Ok(visit.seen)
}
