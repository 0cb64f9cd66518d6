ghost use Rattle.std.specs.Prelude.{◌≡◌, ◌<◌, ◌∷◌, ◌++◌, ◌^◌, [], length, set, replicate, IfOk, OnOk, MatchOption};
ghost use Rattle.abc_base_graphs.specs.Orders.{IsForest, IsOrder, AreNodesPlaced, IsNextFree, IsDescent, HasOrderPlace, KeepsPlaces, place_in_order, base_in, order_with};

use crate::stack::Stack;
use abc_base::{NoMemory, Table};
use std::alloc::Global;

/// The nodes of a forest in an order in which each stands behind its base, and the place of each.
#[derive(Debug, Drop)]
pub struct Order {
    pub nodes: Table<u32>,
    pub places: Table<Option<usize>>,
}

impl Order {
    /// The place of a node, if it has one yet.
    #[tactic(auto, using(crate::proofs::Placing::no_entry))]
    fn place(&self, node: u32) -> Option<usize>
        ensures { result ≡ place_in_order self.now.places node }
    {
        match self.places.fetch(node as usize) {
            Some(place) => place,
            None => None,
        }
    }
}

/// The base of a node.
#[tactic(auto, using(crate::proofs::Placing::no_entry))]
fn base_of(bases: &Table<Option<u32>>, node: u32) -> Option<u32>
    ensures { result ≡ base_in bases.now node }
{
    match bases.fetch(node as usize) {
        Some(base) => base,
        None => None,
    }
}

impl Order {
    /// The node that comes next on a way up, unless it has a place.
    #[tactic(auto, using(crate::proofs::Placing::free_none, crate::proofs::Placing::free_some))]
    fn waiting(&self, next: Option<u32>) -> Option<u32>
        ensures { MatchOption result (IsNextFree self.now.places next)
            (λ x. (next ≡ Some x) × (place_in_order self.now.places x ≡ None)) }
    {
        let node = next?;
        match self.place(node) {
            Some(_) => None,
            None => Some(node),
        }
    }

    /// Goes up from a node to the first that has a place, or to one without a base.
    #[tactic(auto, using(crate::proofs::Placing::climb_begins, crate::proofs::Placing::climb_ends))]
    fn climb(
        &self,
        bases: &Table<Option<u32>>,
        way: &mut Stack<u32>,
        from: u32,
    ) -> Result<(), NoMemory>
        requires forest { IsForest bases.now }
        requires known { from < length bases.now }
        requires empty { way.old ≡ [] }
        requires placed { AreNodesPlaced bases.now self.now.nodes self.now.places }
        ensures descent { IfOk result (λ _. IsDescent bases.now self.now.places from way.new) }
        ensures settles { IfOk result
            (λ _. order_with (length bases.now) bases.now self.now.nodes from ≡ self.now.nodes ++ way.new) }
    {
        let mut next = Some(from);
        while let Some(node) = self.waiting(next) {
            way.push(node)?;
            next = base_of(bases, node);
        }
        Ok(())
    }

    /// Gives a node the next place.
    #[tactic(auto, using(crate::proofs::Placing::placed_next))]
    fn settle(&mut self, bases: &Table<Option<u32>>, node: u32) -> Result<(), NoMemory>
        requires placed { AreNodesPlaced bases.now self.old.nodes self.old.places }
        requires known { node < length bases.now }
        requires unplaced { place_in_order self.old.places node ≡ None }
        requires free { IsNextFree self.old.places (base_in bases.now node) }
        ensures placed { OnOk result (AreNodesPlaced bases.now self.new.nodes self.new.places) }
        ensures set { OnOk result
            (self.new.places ≡ set self.old.places node (Some (length self.old.nodes))) }
        ensures pushed { OnOk result (self.new.nodes ≡ self.old.nodes ++ node ∷ []) }
    {
        let place = self.nodes.len();
        self.nodes.push(node)?;
        self.places.set(node as usize, Some(place));
        Ok(())
    }
}

impl Order {
    /// Gives the nodes of a way their places, the topmost first.
    fn descend(
        &mut self,
        bases: &Table<Option<u32>>,
        way: &mut Stack<u32>,
        from: u32,
    ) -> Result<(), NoMemory>
        requires placed { AreNodesPlaced bases.now self.old.nodes self.old.places }
        requires descent { IsDescent bases.now self.old.places from way.old }
        ensures placed { OnOk result (AreNodesPlaced bases.now self.new.nodes self.new.places) }
        ensures pushed { OnOk result (self.new.nodes ≡ self.old.nodes ++ way.old) }
        ensures keeps { OnOk result (KeepsPlaces self.old.places self.new.places) }
        ensures here { OnOk result (HasOrderPlace self.new.places from) }
        ensures empty { OnOk result (way.new ≡ []) }
    {
        while let Some(node) = way.pop() {
            self.settle(bases, node)?;
        }
        Ok(())
    }
}

/// A place for each of so many nodes, as yet none.
fn no_places(alloc: Global, count: usize) -> Result<Table<Option<usize>>, NoMemory>
    ensures { IfOk result (λ places. places ≡ replicate count None) }
{
    let mut places = Table::new(alloc);
    for _i in 0..count {
        places.push(None)?;
    }
    Ok(places)
}

/// The nodes of a forest in turn, each behind its base. Each node is gone up from and settled once.
#[tactic(auto, using(crate::proofs::Placing::none_placed))]
pub fn order_of(alloc: Global, bases: &Table<Option<u32>>) -> Result<Order, NoMemory>
    requires forest { IsForest bases.now }
    requires few { length bases.now < 2 ^ 32 }
    ensures { IfOk result (λ order. IsOrder bases.now order.nodes order.places) }
{
    let places = no_places(alloc, bases.len())?;
    let mut order = Order {
        nodes: Table::new(alloc),
        places,
    };
    let mut way = Stack::new(alloc);
    for node in 0..bases.len() as u32 {
        order.climb(bases, &mut way, node)?;
        order.descend(bases, &mut way, node)?;
    }
    Ok(order)
}
