ghost use Rattle.std.specs.Prelude.{◌≡◌, ◌<◌, ◌↔◌, All, ℕ, [], length, slice_get, Some, IfOk, OnOk, IsTrue, MatchOption};
ghost use Rattle.abc_base_trees.specs.Classes.{AllClassed, AreTreeClasses, AreDistinct, AreSettled, Extends, Gains, HasClass, HasUnclassed, IsClassOf, tree_class as class_in, tree_keys_eq};
ghost use Rattle.abc_base_graphs.specs.Graph.{leads_to};
ghost use Rattle.abc_base_trees.specs.Trees.{head_of_tree};
ghost use Rattle.abc_base_trees.specs.Orders.{StandsIn, IsBehindAll};
ghost use Rattle.indexmap.specs.IndexSet.{insert_key};

use crate::heads::Head;
use crate::keys::{Key, key_of_apply, key_of_leaf};
use crate::rows::Rows;
use abc_base::{NoMemory, Table};
use indexmap::IndexSet;
use std::alloc::Global;

/// Classes of nodes: those that have equal trees have equal numbers, the places of their keys.
#[derive(Drop)]
pub struct Classes {
    pub keys: IndexSet<Key>,
    /// The class of each node that has one.
    pub classes: Table<Option<usize>>,
}

impl Classes {
    /// The place of a key, which is added unless it is there.
    #[tactic(auto, using(crate::proofs::Keyed::stored_key))]
    fn add_key(&mut self, key: Key) -> Result<usize, NoMemory>
        ensures keys { OnOk result (self.new.keys.keys ≡ insert_key tree_keys_eq self.old.keys.keys key) }
        ensures place { IfOk result (λ c. slice_get self.new.keys.keys c ≡ Some key) }
        ensures classes { self.new.classes ≡ self.old.classes }
    {
        let (place, _is_new) = self.keys.insert_full(key)?;
        Ok(place)
    }

    /// The class of a node, if it has one.
    #[inline]
    #[tactic(auto, using(crate::proofs::Reading::no_entry, crate::proofs::Reading::an_entry))]
    pub fn class(&self, node: u32) -> Option<usize>
        ensures { result ≡ class_in self.now.classes node }
    {
        match self.classes.fetch(node as usize) {
            Some(class) => class,
            None => None,
        }
    }
}

impl Classes {
    /// Whether some nodes all have classes.
    #[tactic(auto, using(crate::proofs::Settled::classed_next, crate::proofs::Settled::unclassed_at, crate::proofs::Settled::classed_whole))]
    pub fn have(&self, nodes: &[u32]) -> bool
        ensures { IsTrue result ↔ AllClassed self.now.classes nodes.now }
    {
        for node in nodes {
            match self.class(*node) {
                Some(_class) => {}
                None => return false,
            }
        }
        true
    }
}

/// The nodes that a node leads to.
pub(crate) fn parts_of(graph: &Rows<u32>, node: u32) -> &[u32]
    requires { node < length graph.now }
    ensures { result.now ≡ leads_to graph.now node }
{
    graph.get(node as usize)
}

/// The head of a node.
fn head_of(heads: &Table<Head>, node: u32) -> Head
    requires { node < length heads.now }
    ensures { result ≡ head_of_tree heads.now node }
{
    *heads.get(node as usize)
}

impl Classes {
    /// The class of a node's tree, if the nodes that it leads to have classes.
    #[tactic(auto, using(crate::proofs::Meanings::built_leaf, crate::proofs::Meanings::built_all, crate::proofs::Settled::unclassed))]
    fn class_of(
        &mut self,
        heads: &Table<Head>,
        graph: &Rows<u32>,
        node: u32,
    ) -> Result<Option<usize>, NoMemory>
        requires valid { AreTreeClasses heads.now graph.now self.old.keys.keys self.old.classes }
        requires distinct { AreDistinct self.old.keys.keys }
        requires headed { node < length heads.now }
        requires known { node < length graph.now }
        ensures classes { OnOk result (self.new.classes ≡ self.old.classes) }
        ensures distinct { OnOk result (AreDistinct self.new.keys.keys) }
        ensures extends { OnOk result (Extends self.old.keys.keys self.new.keys.keys) }
        ensures class { IfOk result (λ r. MatchOption r (HasUnclassed graph.now node self.new.classes)
            (IsClassOf heads.now graph.now node self.new.keys.keys self.new.classes)) }
    {
        let mut class = self.add_key(key_of_leaf(head_of(heads, node)))?;
        for part in parts_of(graph, node) {
            match self.class(*part) {
                Some(part_class) => class = self.add_key(key_of_apply(class, part_class))?,
                None => return Ok(None),
            }
        }
        Ok(Some(class))
    }
}

impl Classes {
    /// Gives a node the class of its tree, if the nodes that it leads to have classes.
    #[tactic(auto, using(crate::proofs::Meanings::settled, crate::proofs::Meanings::extended, crate::proofs::Settled::gains_nothing, crate::proofs::Settled::gains_none, crate::proofs::Settled::gains_one))]
    fn settle(&mut self, heads: &Table<Head>, graph: &Rows<u32>, node: u32) -> Result<(), NoMemory>
        requires valid { AreTreeClasses heads.now graph.now self.old.keys.keys self.old.classes }
        requires distinct { AreDistinct self.old.keys.keys }
        requires heads { length heads.now ≡ length graph.now }
        ensures valid { OnOk result (AreTreeClasses heads.now graph.now self.new.keys.keys self.new.classes) }
        ensures distinct { OnOk result (AreDistinct self.new.keys.keys) }
        ensures gains { OnOk result (Gains graph.now node self.old.classes self.new.classes) }
    {
        if node as usize >= graph.len() {
            return Ok(());
        }
        if let Some(class) = self.class_of(heads, graph, node)? {
            self.classes.set(node as usize, Some(class));
        }
        Ok(())
    }
}

/// No classes as yet, with room for so many.
#[tactic(auto, using(crate::proofs::Meanings::none_classed, crate::proofs::Settled::none_has))]
fn no_classes(
    alloc: Global,
    heads: &Table<Head>,
    graph: &Rows<u32>,
    room: usize,
) -> Result<Classes, NoMemory>
    ensures valid { IfOk result (λ c. AreTreeClasses heads.now graph.now c.keys.keys c.classes) }
    ensures distinct { IfOk result (λ c. AreDistinct c.keys.keys) }
    ensures none { IfOk result (λ c. (y : ℕ) → HasClass c.classes y → ⊥) }
{
    let _heads = heads;
    let mut classes = Table::new(alloc);
    for _node in 0..graph.len() {
        classes.push(None)?;
    }
    let keys = IndexSet::with_capacity(alloc, room)?;
    Ok(Classes { keys, classes })
}

/// The classes of the nodes of a list in which each stands behind those that it leads to. One that stands before any of
/// these has no class.
#[tactic(auto, using(crate::proofs::Settled::none_settled, crate::proofs::Settled::all_settled, crate::proofs::Settled::only_all))]
pub fn classes_of(
    alloc: Global,
    heads: &Table<Head>,
    graph: &Rows<u32>,
    order: &Table<u32>,
) -> Result<Classes, NoMemory>
    requires { length heads.now ≡ length graph.now }
    ensures valid { IfOk result (λ c. AreTreeClasses heads.now graph.now c.keys.keys c.classes) }
    ensures distinct { IfOk result (λ c. AreDistinct c.keys.keys) }
    ensures only { IfOk result (λ c. (y : ℕ) → HasClass c.classes y → StandsIn y order.now) }
    ensures all { IfOk result (λ c. IsBehindAll graph.now [] order.now
        → All (λ y. y < length graph.now) order.now → (y : ℕ) → StandsIn y order.now
        → HasClass c.classes y) }
{
    let mut classes = no_classes(alloc, heads, graph, order.len())?;
    for node in order.as_slice() {
        classes.settle(heads, graph, *node)?;
    }
    Ok(classes)
}
