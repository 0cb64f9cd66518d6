ghost use Rattle.std.specs.Prelude.{◌≡◌, ◌<◌, ◌+◌, ℕ, List, Some, length, slice_get, IfOk, OnOk};
ghost use Rattle.std.specs.Option.{option_copied};
ghost use Rattle.abc_base_graphs.specs.Texts.{HasTexts, number_in, numbers_in, texts_of};
ghost use Rattle.abc_link_layouts.specs.Grouped.{HasGroups};
ghost use Rattle.abc_link_names.specs.Traits.{own_traits as own_traits_of};
ghost use Rattle.abc_link_layouts.specs.Files.{linked_file};

use crate::layouts::Layouts;
use crate::numbers::group;
use crate::parts::traits_of;
use abc_base::{NoMemory, Table};
use abc_base_graphs::Texts;
use abc_file_types::Abc;
use abc_link_names::LayoutId;
use indexmap::IndexMap;
use std::alloc::Global;

/// The own traits of layouts, by the numbers of the texts of their names.
#[derive(Drop)]
pub struct Members {
    pub(crate) groups: Table<IndexMap<u32, Table<u32>>>,
}

/// Adds the own traits of the next layout.
fn push_group(
    alloc: Global,
    groups: &mut Table<IndexMap<u32, Table<u32>>>,
    abc: &Abc,
    layouts: &Layouts,
    texts: &Texts,
    numbers: &Table<u32>,
    x: u32,
) -> Result<(), NoMemory>
    requires texts { HasTexts texts.now (texts_of abc.now.strings) }
    requires numbers { numbers.now ≡ numbers_in texts.now abc.now.strings }
    requires known { x < length layouts.now.parts }
    requires before { HasGroups (linked_file abc.now layouts.now) texts.now groups.old x }
    ensures { OnOk result (HasGroups (linked_file abc.now layouts.now) texts.now groups.new (x + 1)) }
{
    let table = traits_of(abc, layouts.part_of(LayoutId(x)));
    let map = group(alloc, abc, texts, numbers, table)?;
    groups.push(map)?;
    Ok(())
}

/// The own traits of all layouts.
#[tactic(auto, using(crate::proofs::Grouping::groups_none))]
fn groups_of_layouts(
    alloc: Global,
    abc: &Abc,
    layouts: &Layouts,
    texts: &Texts,
    numbers: &Table<u32>,
    count: u32,
) -> Result<Table<IndexMap<u32, Table<u32>>>, NoMemory>
    requires texts { HasTexts texts.now (texts_of abc.now.strings) }
    requires numbers { numbers.now ≡ numbers_in texts.now abc.now.strings }
    requires count { count ≡ length layouts.now.parts }
    ensures { IfOk result
        (λ g. HasGroups (linked_file abc.now layouts.now) texts.now g (length layouts.now.parts)) }
{
    let mut groups = Table::new(alloc);
    for x in 0..count {
        push_group(alloc, &mut groups, abc, layouts, texts, numbers, x)?;
    }
    Ok(groups)
}

impl Members {
    /// The own traits of all layouts of a file, of which there are so many, by the numbers of the texts of its strings.
    pub fn new(
        alloc: Global,
        abc: &Abc,
        layouts: &Layouts,
        count: u32,
        texts: &Texts,
        numbers: &Table<u32>,
    ) -> Result<Members, NoMemory>
        requires texts { HasTexts texts.now (texts_of abc.now.strings) }
        requires numbers { numbers.now ≡ numbers_in texts.now abc.now.strings }
        requires count { count ≡ length layouts.now.parts }
        ensures { IfOk result
            (λ m. HasGroups (linked_file abc.now layouts.now) texts.now m.groups (length layouts.now.parts)) }
    {
        let groups = groups_of_layouts(alloc, abc, layouts, texts, numbers, count)?;
        Ok(Members { groups })
    }

    /// The groups of a layout.
    #[tactic(auto, using(crate::proofs::Reading::there))]
    fn group_of(&self, layout: u32) -> &IndexMap<u32, Table<u32>>
        requires { layout < length self.now.groups }
        ensures { slice_get self.now.groups layout ≡ Some result.now }
    {
        self.groups.get(layout as usize)
    }

    /// The places of the own traits of a layout that have the text of a number.
    pub fn own_numbered(
        &self,
        abc: &Abc,
        layouts: &Layouts,
        texts: &Texts,
        layout: u32,
        number: Option<u32>,
    ) -> Option<&Table<u32>>
        requires groups { HasGroups (linked_file abc.now layouts.now) texts.now self.now.groups
            (length layouts.now.parts) }
        requires known { layout < length layouts.now.parts }
        ensures { (t : List ℕ) → number_in texts.now t ≡ number
            → option_copied result ≡ own_traits_of (linked_file abc.now layouts.now) layout t }
    {
        let _file = abc;
        let _layouts = layouts;
        let _texts = texts;
        let groups = self.group_of(layout);
        match number {
            Some(number) => groups.get(&number),
            None => None,
        }
    }

    /// The places of the own traits of a layout that have a text, in file order.
    pub fn own_traits(
        &self,
        abc: &Abc,
        layouts: &Layouts,
        texts: &Texts,
        layout: u32,
        text: &[u8],
    ) -> Option<&Table<u32>>
        requires groups { HasGroups (linked_file abc.now layouts.now) texts.now self.now.groups
            (length layouts.now.parts) }
        requires known { layout < length layouts.now.parts }
        ensures { option_copied result ≡ own_traits_of (linked_file abc.now layouts.now) layout text.now }
    {
        self.own_numbered(abc, layouts, texts, layout, texts.number_of(text))
    }
}
