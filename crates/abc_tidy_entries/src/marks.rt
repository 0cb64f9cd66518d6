ghost use Rattle.std.specs.Prelude.{◌≡◌, ℕ, ◌<◌, false, length, replicate, set, true, IfOk};
ghost use Rattle.abc_base_graphs.specs.Graph.{Has};
ghost use Rattle.abc_base_trees.specs.Orders.{StandsIn};

use abc_base::{NoMemory, Table};
use std::alloc::Global;

/// So many marks, none of which is set.
pub(crate) fn no_marks(alloc: Global, count: usize) -> Result<Table<bool>, NoMemory>
    ensures { IfOk result (λ t. t ≡ replicate count false) }
{
    let mut marks = Table::new(alloc);
    for _i in 0..count {
        marks.push(false)?;
    }
    Ok(marks)
}

/// Sets the mark at a place, if there is one.
#[tactic(auto, using(crate::proofs::Marked::unset))]
fn mark(marks: &mut Table<bool>, place: usize)
    ensures { marks.new ≡ set marks.old place true }
{
    if place >= marks.len() {
        return;
    }
    marks.set(place, true);
}

/// A mark for each of so many nodes, which is set for those of a list.
pub fn marks_of(alloc: Global, count: usize, nodes: &Table<u32>) -> Result<Table<bool>, NoMemory>
    ensures many { IfOk result (λ m. length m ≡ count) }
    ensures marked { IfOk result (λ m. (y : ℕ) → StandsIn y nodes.now → y < count → Has m y) }
{
    let mut marks = no_marks(alloc, count)?;
    for node in nodes.as_slice() {
        mark(&mut marks, *node as usize);
    }
    Ok(marks)
}
