ghost use Rattle.std.specs.Prelude.{◌≡◌, ◌<◌, ◌^◌, length, IfOk};
ghost use Rattle.abc_base_graphs.specs.Texts.{HasTexts, numbers_in, texts_of};
ghost use Rattle.abc_link.specs.TablesMade.{AreSearchTables};

use crate::scripts::ScriptTraits;
use crate::sets::SetSpaces;
use crate::slots::OwnSlots;
use abc_base::{NoMemory, Table};
use abc_base_graphs::Texts;
use abc_link_layouts::Layouts;
use abc_link_names::Names;
use std::alloc::Global;

/// All tables of a file.
#[derive(Drop)]
pub struct SearchTables {
    pub slots: OwnSlots,
    pub scripts: ScriptTraits,
    pub sets: SetSpaces,
}

impl SearchTables {
    /// The tables of a file, of its layouts, of which there are so many, and of the numbers of its texts, those of its strings
    /// among them.
    pub fn new(
        alloc: Global,
        names: &Names<'_>,
        layouts: &Layouts,
        count: u32,
        texts: &Texts,
        numbers: &Table<u32>,
    ) -> Result<SearchTables, NoMemory>
        requires count { count ≡ length layouts.now.parts }
        requires texts { HasTexts texts.now (texts_of names.now.abc.now.strings) }
        requires numbers { numbers.now ≡ numbers_in texts.now names.now.abc.now.strings }
        requires few { length names.now.abc.now.scripts < 2 ^ 32 }
        ensures { IfOk result (λ t. AreSearchTables names.now.abc.now layouts.now.parts texts.now
            names.now.tables.now.numbers t) }
    {
        let slots = OwnSlots::new(alloc, names.abc, layouts, count)?;
        let scripts = ScriptTraits::new(alloc, names.abc, texts, numbers)?;
        let sets = SetSpaces::new(alloc, names)?;
        Ok(SearchTables {
            slots,
            scripts,
            sets,
        })
    }
}
