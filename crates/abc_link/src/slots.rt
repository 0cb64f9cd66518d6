ghost use Rattle.std.specs.Prelude.{◌≡◌, ◌<◌, Some, length, slice_get, IfOk};
ghost use Rattle.abc_link_names.specs.Numbering.{part_at};
ghost use Rattle.abc_link_names.specs.Slots.{traits_of as traits_in};
ghost use Rattle.abc_link.specs.OwnSlots.{HasOwnSlots, is_slot_trait as does_have_slot, own_slots_before, slots_before};

use abc_base::{NoMemory, Table};
use abc_file_types::{Abc, TraitBody, TraitInfo};
use abc_link_layouts::{Layouts, traits_of};
use abc_link_names::LayoutId;
use std::alloc::Global;

/// For each layout and each of its own traits, how many of its traits before that one have slots.
#[derive(Drop)]
pub struct OwnSlots {
    pub(crate) rows: Table<Table<u32>>,
}

/// Whether a trait has a slot.
fn has_slot(body: TraitBody) -> bool
    ensures { result ≡ does_have_slot body }
{
    matches!(body, TraitBody::Slot { .. } | TraitBody::Class { .. })
}

/// For each of some traits, how many before it have slots. Of 2^32 traits or more there is never room for that.
fn slots_of_table(alloc: Global, traits: &[TraitInfo]) -> Result<Table<u32>, NoMemory>
    ensures { IfOk result (λ t. t ≡ slots_before traits.now) }
{
    if traits.len() > u32::MAX as usize {
        return Err(NoMemory);
    }
    let mut before = Table::new(alloc);
    let mut count: u32 = 0;
    for info in traits {
        before.push(count)?;
        if has_slot(info.body) {
            count += 1;
        }
    }
    Ok(before)
}

/// The same for the own traits of each layout.
fn slots_of_layouts(
    alloc: Global,
    abc: &Abc,
    layouts: &Layouts,
    count: u32,
) -> Result<Table<Table<u32>>, NoMemory>
    requires { count ≡ length layouts.now.parts }
    ensures { IfOk result (λ t. t ≡ own_slots_before abc.now layouts.now.parts) }
{
    let mut rows = Table::new(alloc);
    for x in 0..count {
        let row = slots_of_table(alloc, traits_of(abc, layouts.part_of(LayoutId(x))))?;
        rows.push(row)?;
    }
    Ok(rows)
}

impl OwnSlots {
    /// Those of the layouts of a file, of which there are so many.
    pub fn new(
        alloc: Global,
        abc: &Abc,
        layouts: &Layouts,
        count: u32,
    ) -> Result<OwnSlots, NoMemory>
        requires { count ≡ length layouts.now.parts }
        ensures { IfOk result (λ s. HasOwnSlots abc.now layouts.now.parts s) }
    {
        let rows = slots_of_layouts(alloc, abc, layouts, count)?;
        Ok(OwnSlots { rows })
    }

    /// How many of the traits before the one at a place of a layout's table have slots.
    pub fn before(&self, abc: &Abc, layouts: &Layouts, layout: u32, place: u32) -> u32
        requires slots { HasOwnSlots abc.now layouts.now.parts self.now }
        requires layout { layout < length layouts.now.parts }
        requires place { place < length (traits_in abc.now (part_at layouts.now.parts layout)) }
        ensures { slice_get (slots_before (traits_in abc.now (part_at layouts.now.parts layout))) place
            ≡ Some result }
    {
        let _file = abc;
        let _layouts = layouts;
        *self.rows.get(layout as usize).get(place as usize)
    }
}
