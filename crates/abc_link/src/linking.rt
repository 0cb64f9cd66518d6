ghost use Rattle.std.specs.Prelude.{◌≡◌, ◌<◌, ◌^◌, length, IfOk, MatchResult};
ghost use Rattle.abc_link_interfaces.specs.Sets.{HasAllSets};
ghost use Rattle.abc_link.specs.Ladders.{AreRungs};
ghost use Rattle.abc_link.specs.LinkedMade.{IsLinkedMade};
ghost use Rattle.abc_link_layouts.specs.Owning.{AreOwners};
ghost use Rattle.abc_link_layouts.specs.Files.{linked_file};
ghost use Rattle.abc_link_layouts.specs.Grouped.{HasGroups};
ghost use Rattle.abc_link_layouts.specs.Laid.{AreLayouts};
ghost use Rattle.abc_link.specs.TablesMade.{AreSearchTables};
ghost use Rattle.abc_link_layouts.specs.Tables.{HasSlots};
ghost use Rattle.abc_link_names.specs.Meanings.{AreMeanings};
ghost use Rattle.abc_link_names.specs.Numbers.{AreNames};
ghost use Rattle.abc_link_names.specs.Linked.{IsLinkedFile};
ghost use Rattle.abc_link_names.specs.Firsts.{IsFew, IsLinkRefusal};
ghost use Rattle.abc_link_names.specs.Rules.{AllHold};
ghost use Rattle.abc_file_types.specs.Files.{Fits};

use crate::ladder::{Rung, rungs_of};
use crate::linked::{Linked, Made};
use crate::tables::SearchTables;
use abc_base::{NoMemory, Table, release};
use abc_base_graphs::Heirs;
use abc_file_types::Abc;
use abc_link_interfaces::Interfaces;
use abc_link_known::known_of;
use abc_link_layouts::{Layouts, Members, Owners, slots_of};
use abc_link_names::{LinkError, Meanings, NameTables, Named, Names, SlotInfo, meanings_of};
use abc_link_rules::{are_few, check_rules};
use std::alloc::Global;

/// What the names of a file stand for.
fn meanings_in(
    alloc: Global,
    abc: &Abc,
    names: &NameTables,
) -> Result<Table<Option<Named>>, NoMemory>
    requires { AreNames abc.now names.now }
    ensures { IfOk result (λ t. AreMeanings abc.now t) }
{
    let names = Names::new(abc, names);
    let known = known_of(alloc, &names)?;
    meanings_of(alloc, names, &known)
}

/// The most handlers that all bodies have. Where there are more, memory is said to have run out: each has a layout of its own,
/// which takes hundreds of times the bytes of a handler in a file.
pub const MOST_HANDLERS: usize = 1 << 18;

/// How many handlers all bodies have.
fn handler_count(abc: &Abc) -> usize {
    let mut count = 0usize;
    for body in abc.bodies.as_slice() {
        count = count.saturating_add(body.handlers.len());
    }
    count
}

/// The layouts of a file that keeps the rules. Of 2^32 layouts or more, or more than [`MOST_HANDLERS`] handlers, there is never
/// room for all.
fn layouts_in(
    alloc: Global,
    abc: &Abc,
    meanings: &Table<Option<Named>>,
) -> Result<Layouts, NoMemory>
    requires meanings { AreMeanings abc.now meanings.now }
    requires rules { AllHold abc.now }
    ensures are { IfOk result (λ l. AreLayouts abc.now l) }
    ensures few { IfOk result (λ l. length l.parts < 2 ^ 32) }
{
    if handler_count(abc) > MOST_HANDLERS {
        return Err(NoMemory);
    }
    let meanings = Meanings::new(abc, meanings);
    let layouts = Layouts::new(alloc, &meanings)?;
    if layouts.len() > u32::MAX as usize {
        return Err(NoMemory);
    }
    Ok(layouts)
}

/// The layouts of a file, one far above each, and their slots.
#[derive(Drop)]
struct Laid {
    layouts: Layouts,
    rungs: Table<Rung>,
    slots: Heirs<SlotInfo>,
}

/// The layouts of a file that keeps the rules, with their slots.
fn lay(alloc: Global, abc: &Abc, meanings: &Table<Option<Named>>) -> Result<Laid, NoMemory>
    requires meanings { AreMeanings abc.now meanings.now }
    requires rules { AllHold abc.now }
    ensures layouts { IfOk result (λ l. AreLayouts abc.now l.layouts) }
    ensures few { IfOk result (λ l. length l.layouts.parts < 2 ^ 32) }
    ensures rungs { IfOk result (λ l. AreRungs (linked_file abc.now l.layouts) l.rungs) }
    ensures slots { IfOk result
        (λ l. HasSlots (linked_file abc.now l.layouts) l.slots (length l.layouts.parts)) }
{
    let layouts = layouts_in(alloc, abc, meanings)?;
    let count = layouts.len() as u32;
    let rungs = rungs_of(alloc, abc, &layouts, count)?;
    let meanings = Meanings::new(abc, meanings);
    let slots = slots_of(alloc, &meanings, &layouts, count)?;
    Ok(Laid {
        layouts,
        rungs,
        slots,
    })
}

/// Whose methods a file's methods are, the interfaces of its classes, and what a search asks.
#[derive(Drop)]
struct Asked {
    owners: Owners,
    interfaces: Interfaces,
    members: Members,
    search: SearchTables,
}

/// The tables over the layouts of a file.
fn tables_over(
    alloc: Global,
    abc: &Abc,
    names: &NameTables,
    meanings: &Table<Option<Named>>,
    layouts: &Layouts,
) -> Result<Asked, NoMemory>
    requires names { AreNames abc.now names.now }
    requires meanings { AreMeanings abc.now meanings.now }
    requires rules { AllHold abc.now }
    requires tables { IsFew abc.now }
    requires layouts { AreLayouts abc.now layouts.now }
    requires few { length layouts.now.parts < 2 ^ 32 }
    ensures owners { IfOk result (λ t. AreOwners abc.now t.owners) }
    ensures interfaces { IfOk result (λ t. HasAllSets abc.now t.interfaces.sets) }
    ensures members { IfOk result (λ t. HasGroups (linked_file abc.now layouts.now) names.now.texts
        t.members.groups (length layouts.now.parts)) }
    ensures search { IfOk result
        (λ t. AreSearchTables abc.now layouts.now.parts names.now.texts names.now.numbers t.search) }
{
    let owners = Owners::new(alloc, abc)?;
    let meanings = Meanings::new(abc, meanings);
    let interfaces = Interfaces::new(alloc, &meanings)?;
    let count = layouts.len() as u32;
    let members = Members::new(alloc, abc, layouts, count, &names.texts, &names.numbers)?;
    let named = Names { abc, tables: names };
    let search = SearchTables::new(alloc, &named, layouts, count, &names.texts, &names.numbers)?;
    Ok(Asked {
        owners,
        interfaces,
        members,
        search,
    })
}

/// What is made of a file that keeps the rules.
fn make(
    alloc: Global,
    abc: &Abc,
    names: &NameTables,
    meanings: &Table<Option<Named>>,
) -> Result<Made, NoMemory>
    requires names { AreNames abc.now names.now }
    requires meanings { AreMeanings abc.now meanings.now }
    requires rules { AllHold abc.now }
    requires few { IsFew abc.now }
    ensures { IfOk result (λ m. IsLinkedMade abc.now names.now m) }
{
    let laid = lay(alloc, abc, meanings)?;
    match tables_over(alloc, abc, names, meanings, &laid.layouts) {
        Ok(asked) => Ok(Made {
            owners: asked.owners,
            layouts: laid.layouts,
            rungs: laid.rungs,
            slots: laid.slots,
            members: asked.members,
            interfaces: asked.interfaces,
            search: asked.search,
        }),
        Err(error) => {
            release(laid);
            Err(error)
        }
    }
}

/// Tries the rules.
fn check(
    alloc: Global,
    abc: &Abc,
    names: &NameTables,
    meanings: &Table<Option<Named>>,
) -> Result<(), LinkError>
    requires names { AreNames abc.now names.now }
    requires meanings { AreMeanings abc.now meanings.now }
    ensures { MatchResult result (λ _. AllHold abc.now × IsFew abc.now) (IsLinkRefusal abc.now) }
{
    if !are_few(abc) {
        return Err(LinkError::NoMemory);
    }
    check_rules(alloc, abc, names, meanings)
}

/// What a linked file has beside the file.
#[derive(Drop)]
struct Tables {
    names: NameTables,
    meanings: Table<Option<Named>>,
    made: Made,
}

/// The tables of a file that keeps the rules.
fn tables_of(alloc: Global, abc: &Abc) -> Result<Tables, LinkError>
    ensures { MatchResult result (λ t. AllHold abc.now × IsFew abc.now × AreNames abc.now t.names
        × AreMeanings abc.now t.meanings × IsLinkedMade abc.now t.names t.made) (IsLinkRefusal abc.now) }
{
    let names = NameTables::new(alloc, abc)?;
    let meanings = meanings_in(alloc, abc, &names)?;
    check(alloc, abc, &names, &meanings)?;
    let made = make(alloc, abc, &names, &meanings)?;
    Ok(Tables {
        names,
        meanings,
        made,
    })
}

/// Links a file that some bytes spell. It is refused where it breaks a rule of linking: by the first rule that is broken, in the order of
/// `LinkRule`, and the first item that breaks it, in file order. Linking consumes the file.
pub fn link(alloc: Global, abc: Abc) -> Result<Linked, LinkError>
    requires { Fits abc }
    ensures { MatchResult result (λ l. (l.file ≡ abc) × IsLinkedFile l) (IsLinkRefusal abc) }
{
    match tables_of(alloc, &abc) {
        Ok(tables) => {
            let linked = Linked {
                abc,
                names: tables.names,
                meanings: tables.meanings,
                made: tables.made,
            };
            linked.linked_law();
            Ok(linked)
        }
        Err(error) => {
            release(abc);
            Err(error)
        }
    }
}
