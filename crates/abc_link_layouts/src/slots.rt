ghost use Rattle.std.specs.Prelude.{◌≡◌, ◌++◌, ◌∷◌, ◌+◌, ◌<◌, ◌^◌, [], false, true, length, unwrap_or, IfOk, OnOk};
ghost use Rattle.std.specs.List.{flat_map};
ghost use Rattle.abc_base_graphs.specs.Heirs.{AreHeirs};
ghost use Rattle.abc_link_layouts.specs.Laid.{AreLayouts, HasPartPlaces};
ghost use Rattle.abc_link_names.specs.Meaning.{type_named};
ghost use Rattle.abc_link_names.specs.Numbering.{part_at};
ghost use Rattle.abc_link_names.specs.Slots.{slot_numbers_in, own_numbers as own_numbers_of, own_slots as own_slots_of, slots_in};
ghost use Rattle.abc_link_names.specs.Types.{type_in as type_of_named};
ghost use Rattle.abc_link_names.specs.Starts.{default_of, start_of as starts_at};
ghost use Rattle.abc_link_names.specs.ItemTypes.{type_or_any};
ghost use Rattle.abc_link_layouts.specs.Files.{linked_file};
ghost use Rattle.abc_link_layouts.specs.Tables.{HasSlots};

use crate::layouts::Layouts;
use crate::parts::{exception_type, traits_of};
use crate::types::type_in;
use abc_base::{HostClass, NoMemory, Table};
use abc_base_graphs::Heirs;
use abc_file_types::{Abc, OptionValue, TraitBody, TraitInfo};
use abc_link_names::{LayoutId, Meanings, Named, Part, SlotInfo, Start, Ty, start_of};
use std::alloc::Global;

/// What a type's name stands for. A name that stands for nothing counts as any.
fn named_or_any(meanings: &Meanings<'_>, name: u32) -> Named
    ensures { result ≡ type_or_any (type_named meanings.now.abc.now name) }
{
    match meanings.type_named(name) {
        Some(named) => named,
        None => Named::Any,
    }
}

/// The value at which a slot starts. One that would fault counts as undefined.
fn start_or_undefined(abc: &Abc, named: Named, value: Option<OptionValue>) -> Start
    ensures { result ≡ unwrap_or (starts_at abc.now named value) Start.Undefined }
{
    match start_of(abc, named, value) {
        Some(start) => start,
        None => Start::Undefined,
    }
}

/// Adds the slot of a trait, if it has one.
fn push_slot(
    list: &mut Table<SlotInfo>,
    meanings: &Meanings<'_>,
    layouts: &Layouts,
    body: TraitBody,
) -> Result<(), NoMemory>
    requires { HasPartPlaces layouts.now }
    ensures { OnOk result
        (list.new ≡ list.old ++ slots_in (linked_file meanings.now.abc.now layouts.now) body) }
{
    match body {
        TraitBody::Slot {
            ty,
            value,
            constant,
            ..
        } => {
            let named = named_or_any(meanings, ty);
            let start = start_or_undefined(meanings.abc, named, value);
            let ty = type_in(meanings.abc, layouts, named);
            list.push(SlotInfo {
                ty,
                constant,
                start,
            })?;
            Ok(())
        }
        TraitBody::Class { class, .. } => {
            list.push(SlotInfo {
                ty: Ty::Of(layouts.layout_of(Part::ClassObject(class))),
                constant: true,
                start: Start::Null,
            })?;
            Ok(())
        }
        _ => Ok(()),
    }
}

/// The slots of a table of traits.
fn slots_among(
    alloc: Global,
    meanings: &Meanings<'_>,
    layouts: &Layouts,
    table: &[TraitInfo],
) -> Result<Table<SlotInfo>, NoMemory>
    requires { HasPartPlaces layouts.now }
    ensures { IfOk result
        (λ t. t ≡ flat_map (λ i. slots_in (linked_file meanings.now.abc.now layouts.now) i.body) table.now) }
{
    let mut list = Table::new(alloc);
    for info in table {
        push_slot(&mut list, meanings, layouts, info.body)?;
    }
    Ok(list)
}

/// Adds the number of the slot of a trait, if it has one; 0 is none.
fn push_number(list: &mut Table<u32>, body: TraitBody) -> Result<(), NoMemory>
    ensures { OnOk result (list.new ≡ list.old ++ slot_numbers_in body) }
{
    match body {
        TraitBody::Slot { id, .. } | TraitBody::Class { id, .. } => {
            list.push(id)?;
            Ok(())
        }
        _ => Ok(()),
    }
}

/// The numbers of the slots of a table of traits.
fn numbers_among(alloc: Global, table: &[TraitInfo]) -> Result<Table<u32>, NoMemory>
    ensures { IfOk result (λ t. t ≡ flat_map (λ i. slot_numbers_in i.body) table.now) }
{
    let mut list = Table::new(alloc);
    for info in table {
        push_number(&mut list, info.body)?;
    }
    Ok(list)
}

/// The slot of a catch object, of the type of its exception.
fn catch_slot(meanings: &Meanings<'_>, layouts: &Layouts, name: u32) -> SlotInfo
    requires { HasPartPlaces layouts.now }
    ensures ty { result.ty
        ≡ type_of_named (linked_file meanings.now.abc.now layouts.now)
        (type_or_any (type_named meanings.now.abc.now name)) }
    ensures constant { result.constant ≡ false }
    ensures start { result.start ≡ default_of (type_or_any (type_named meanings.now.abc.now name)) }
{
    let named = named_or_any(meanings, name);
    SlotInfo {
        ty: type_in(meanings.abc, layouts, named),
        constant: false,
        start: start_or_undefined(meanings.abc, named, None),
    }
}

/// The slot `prototype` of class objects.
fn prototype_slot() -> SlotInfo
    ensures { result ≡ record { ty = Ty.Object; constant = true; start = Start.Null } }
{
    SlotInfo {
        ty: Ty::Object,
        constant: true,
        start: Start::Null,
    }
}

/// One value as a table.
fn one<T: Drop>(alloc: Global, value: T) -> Result<Table<T>, NoMemory>
    ensures { IfOk result (λ t. t ≡ value ∷ []) }
{
    let mut list = Table::new(alloc);
    list.push(value)?;
    Ok(list)
}

/// The own slots of a part.
fn own_slots(
    alloc: Global,
    meanings: &Meanings<'_>,
    layouts: &Layouts,
    part: Part,
) -> Result<Table<SlotInfo>, NoMemory>
    requires { HasPartPlaces layouts.now }
    ensures { IfOk result (λ t. t ≡ own_slots_of (linked_file meanings.now.abc.now layouts.now) part) }
{
    match part {
        Part::Host(HostClass::Class) => one(alloc, prototype_slot()),
        Part::Catch(body, exception) => {
            let name = exception_type(meanings.abc, body, exception);
            one(alloc, catch_slot(meanings, layouts, name))
        }
        _ => slots_among(alloc, meanings, layouts, traits_of(meanings.abc, part)),
    }
}

/// The numbers of the own slots of a part; 0 is none.
fn own_numbers(
    alloc: Global,
    meanings: &Meanings<'_>,
    layouts: &Layouts,
    part: Part,
) -> Result<Table<u32>, NoMemory>
    ensures { IfOk result (λ t. t ≡ own_numbers_of (linked_file meanings.now.abc.now layouts.now) part) }
{
    let _layouts = layouts;
    match part {
        Part::Host(HostClass::Class) => one(alloc, 0),
        Part::Catch(_, _) => one(alloc, 1),
        _ => numbers_among(alloc, traits_of(meanings.abc, part)),
    }
}

/// Adds the slots of the next layout.
fn push_layout(
    alloc: Global,
    heirs: &mut Heirs<SlotInfo>,
    meanings: &Meanings<'_>,
    layouts: &Layouts,
    x: u32,
) -> Result<(), NoMemory>
    requires layouts { AreLayouts meanings.now.abc.now layouts.now }
    requires known { x < length layouts.now.parts }
    requires before { HasSlots (linked_file meanings.now.abc.now layouts.now) heirs.old x }
    ensures { OnOk result (HasSlots (linked_file meanings.now.abc.now layouts.now) heirs.new (x + 1)) }
{
    let part = layouts.part_of(LayoutId(x));
    let own = own_slots(alloc, meanings, layouts, part)?;
    let numbers = own_numbers(alloc, meanings, layouts, part)?;
    let base = layouts.base_number(meanings.abc, x);
    heirs.add(alloc, base, own.as_slice(), numbers.as_slice())?;
    Ok(())
}

/// The slots of all layouts, and their numbers.
#[tactic(auto, using(crate::proofs::Slotted::slots_none))]
pub fn slots_of(
    alloc: Global,
    meanings: &Meanings<'_>,
    layouts: &Layouts,
    count: u32,
) -> Result<Heirs<SlotInfo>, NoMemory>
    requires layouts { AreLayouts meanings.now.abc.now layouts.now }
    requires count { count ≡ length layouts.now.parts }
    ensures { IfOk result
        (λ h. HasSlots (linked_file meanings.now.abc.now layouts.now) h (length layouts.now.parts)) }
{
    let mut heirs = Heirs::new(alloc);
    for x in 0..count {
        push_layout(alloc, &mut heirs, meanings, layouts, x)?;
    }
    Ok(heirs)
}
