ghost use Rattle.std.specs.Prelude.{◌≡◌, ◌*◌, ◌+◌, ◌<◌, ◌^◌, length, replicate, slice_get, IfOk, OnOk};
ghost use Rattle.abc_base_trees.specs.Hung.{AreHung};
ghost use Rattle.abc_base_trees.specs.Adding.{HangFrom};

use crate::bounds::bounds_of;
use crate::hang::Range;
use crate::stabs::Stabs;
use abc_base::{NoMemory, Table};
use std::alloc::Global;

/// Of so many ranges there is never room for a tree.
const MOST: usize = 1 << 28;

/// So many links to nothing.
fn no_links(alloc: Global, count: usize) -> Result<Table<u32>, NoMemory>
    ensures { IfOk result (λ t. t ≡ replicate count 0) }
{
    let mut links = Table::new(alloc);
    for _node in 0..count {
        links.push(0)?;
    }
    Ok(links)
}

/// A tree for ranges, none of which hangs yet.
#[tactic(auto, using(crate::proofs::Adding::none_hangs, crate::proofs::Hanging::whole_first))]
fn tree_for(alloc: Global, ranges: &[Range]) -> Result<Stabs, NoMemory>
    requires { length ranges.now < 2 ^ 29 }
    ensures { IfOk result (HangFrom ranges.now (length ranges.now)) }
{
    let bounds = bounds_of(alloc, ranges)?;
    let firsts = no_links(alloc, 2 * (bounds.len() + 1))?;
    Ok(Stabs {
        bounds,
        firsts,
        hangs: Table::new(alloc),
    })
}

/// The range of a number, or `None` where there is none.
fn range_at(ranges: &[Range], number: u32) -> Option<Range>
    ensures { result ≡ slice_get ranges.now number }
{
    ranges.get(number as usize).copied()
}

/// The range of a number hangs in the tree.
#[tactic(auto, using(crate::proofs::Adding::one_more, crate::proofs::Adding::no_more))]
fn hang_one(stabs: &mut Stabs, ranges: &[Range], number: u32) -> Result<(), NoMemory>
    requires { HangFrom ranges.now (number + 1) stabs.old }
    ensures { OnOk result (HangFrom ranges.now number stabs.new) }
{
    match range_at(ranges, number) {
        Some(range) => {
            let from = stabs.leaf(range.from);
            let to = stabs.leaf(range.to);
            stabs.hang(number, from, to)?;
            Ok(())
        }
        None => Ok(()),
    }
}

/// The tree of some ranges. At each node the first of them hangs first.
#[tactic(auto, using(crate::proofs::Adding::all_hang, crate::proofs::Adding::no_tree))]
pub fn stabs_of(alloc: Global, ranges: &[Range]) -> Result<Stabs, NoMemory>
    ensures { IfOk result (AreHung ranges.now) }
{
    if ranges.len() >= MOST {
        return Err(NoMemory);
    }
    if ranges.is_empty() {
        return Ok(Stabs::new(alloc));
    }
    let mut stabs = tree_for(alloc, ranges)?;
    let mut number = ranges.len() as u32;
    while number > 0 {
        number -= 1;
        hang_one(&mut stabs, ranges, number)?;
    }
    Ok(stabs)
}
