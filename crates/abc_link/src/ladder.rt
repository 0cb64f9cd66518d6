ghost use Rattle.std.specs.Prelude.{◌≡◌, length, IfOk};
ghost use Rattle.abc_link_names.specs.Linked.{above as above_of};
ghost use Rattle.abc_link_names.specs.Tree.{IsBelow};
ghost use Rattle.abc_link.specs.Ladders.{AreRungs};
ghost use Rattle.abc_link_layouts.specs.Files.{linked_file};
ghost use Rattle.abc_link_layouts.specs.Laid.{AreLayouts};

use abc_base::{NoMemory, Table};
use abc_file_types::Abc;
use abc_link_layouts::Layouts;
use std::alloc::Global;

/// What is known of the way up from a layout.
#[derive(Clone, Copy, Debug)]
pub(crate) struct Rung {
    /// A layout far above.
    pub far: u32,
    /// How many layouts stand above.
    pub depth: u32,
}

/// The layout that stands above a layout: what it stands under, or that of Object's instances where it stands under none or
/// is no layout.
#[tactic(auto, using(crate::proofs::Laws::none_above))]
pub(crate) fn above(abc: &Abc, layouts: &Layouts, layout: u32) -> u32
    requires { AreLayouts abc.now layouts.now }
    ensures { result ≡ above_of (linked_file abc.now layouts.now) layout }
{
    if layout as usize >= layouts.len() {
        return 0;
    }
    layouts.base_number(abc, layout).unwrap_or(0)
}

/// What is known of the way up from a layout; of one that has no rung that it is its own end.
#[tactic(auto, using(crate::proofs::Rungs::rung_there, crate::proofs::Rungs::at_itself))]
fn rung_at(abc: &Abc, layouts: &Layouts, rungs: &Table<Rung>, layout: u32) -> Rung
    requires { AreRungs (linked_file abc.now layouts.now) rungs.now }
    ensures { IsBelow (linked_file abc.now layouts.now) layout result.far }
{
    let _file = abc;
    let _layouts = layouts;
    match rungs.fetch(layout as usize) {
        Some(rung) => rung,
        None => Rung {
            far: layout,
            depth: 0,
        },
    }
}

/// A layout far above a layout, or the layout itself.
pub(crate) fn far_above(abc: &Abc, layouts: &Layouts, rungs: &Table<Rung>, layout: u32) -> u32
    requires { AreRungs (linked_file abc.now layouts.now) rungs.now }
    ensures { IsBelow (linked_file abc.now layouts.now) layout result }
{
    rung_at(abc, layouts, rungs, layout).far
}

/// The rung of a layout, where those of the layouts above it are known. Where two steps from the layout above it are of one
/// length they become one step.
#[tactic(auto, using(crate::proofs::Rungs::one_up, crate::proofs::Rungs::two_up))]
fn next_rung(abc: &Abc, layouts: &Layouts, rungs: &Table<Rung>, layout: u32) -> Rung
    requires layouts { AreLayouts abc.now layouts.now }
    requires rungs { AreRungs (linked_file abc.now layouts.now) rungs.now }
    ensures { IsBelow (linked_file abc.now layouts.now) layout result.far }
{
    let above = above(abc, layouts, layout);
    let near = rung_at(abc, layouts, rungs, above);
    let middle = rung_at(abc, layouts, rungs, near.far);
    let last = rung_at(abc, layouts, rungs, middle.far);
    let depth = near.depth.saturating_add(1);
    let length = near.depth.saturating_sub(middle.depth);
    if length == middle.depth.saturating_sub(last.depth) {
        return Rung {
            far: middle.far,
            depth,
        };
    }
    Rung { far: above, depth }
}

/// The rungs of so many layouts: a few steps by them lead to any layout that a layout stands under.
#[tactic(auto, using(crate::proofs::Rungs::no_rungs, crate::proofs::Rungs::more_rungs))]
pub(crate) fn rungs_of(
    alloc: Global,
    abc: &Abc,
    layouts: &Layouts,
    count: u32,
) -> Result<Table<Rung>, NoMemory>
    requires { AreLayouts abc.now layouts.now }
    ensures { IfOk result (AreRungs (linked_file abc.now layouts.now)) }
{
    let mut rungs = Table::new(alloc);
    for layout in 0..count {
        let rung = next_rung(abc, layouts, &rungs, layout);
        rungs.push(rung)?;
    }
    Ok(rungs)
}
