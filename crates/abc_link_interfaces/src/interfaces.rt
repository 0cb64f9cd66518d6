ghost use Rattle.std.specs.Prelude.{◌≡◌, ◌<◌, ◌↔◌, ◌^◌, length, IfOk, IsTrue};
ghost use Rattle.abc_link_interfaces.specs.Sets.{HasAllSets, IsAbove};

use crate::graph::class_graph;
use crate::set::NumberSet;
use crate::sets::{has, sets_of};
use crate::visits::visits;
use abc_base::{NoMemory, Table};
use abc_file_types::Abc;
use abc_link_names::Meanings;
use std::alloc::Global;

/// The interfaces of classes, as a set for each class.
#[derive(Drop)]
pub struct Interfaces {
    pub(crate) sets: Table<Option<NumberSet>>,
}

impl Interfaces {
    /// The interfaces of all classes of a file.
    #[tactic(auto, using(crate::proofs::Graphs::is_graph, crate::proofs::Graphs::as_many))]
    pub fn new(alloc: Global, meanings: &Meanings<'_>) -> Result<Interfaces, NoMemory>
        ensures { IfOk result (λ i. HasAllSets meanings.now.abc.now i.sets) }
    {
        if meanings.abc.instances.len() > u32::MAX as usize {
            return Err(NoMemory);
        }
        let graph = class_graph(alloc, meanings)?;
        let nodes = visits(alloc, &graph)?;
        let sets = sets_of(alloc, meanings.abc, &graph, nodes.as_slice())?;
        Ok(Interfaces { sets })
    }

    /// Whether a class names an interface, itself, through its bases or through the interfaces' interfaces.
    #[tactic(auto, using(crate::proofs::Settling::has_above))]
    pub fn implements(&self, abc: &Abc, class: u32, interface: u32) -> bool
        requires sets { HasAllSets abc.now self.now.sets }
        requires known { class < length abc.now.instances }
        ensures { IsTrue result ↔ IsAbove abc.now class interface }
    {
        let _file = abc;
        has(&self.sets, class, interface)
    }
}
