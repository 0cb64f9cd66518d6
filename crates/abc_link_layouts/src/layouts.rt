ghost use Rattle.std.specs.Prelude.{◌≡◌, ◌<◌, length, map, IfOk};
ghost use Rattle.std.specs.Option.{option_map};
ghost use Rattle.abc_base_graphs.specs.Ways.{IsFalling};
ghost use Rattle.abc_link_layouts.specs.Laid.{AreLayouts, HasPartPlaces, base_found, place_found};
ghost use Rattle.abc_link_names.specs.Numbering.{part_at};
ghost use Rattle.abc_link_names.specs.Parts.{HasLayout, base_part as base_part_of, host_parent as host_parent_of, parent as parent_of};
ghost use Rattle.abc_link_names.specs.Places.{base_of, place_of_part};
ghost use Rattle.abc_link_names.specs.declared.part.Part.{Part as AnyPart};
ghost use Rattle.abc_link_names.specs.Bases.{base_named};
ghost use Rattle.abc_link_names.specs.Rules.{AllHold};

use crate::key::places_of;
use crate::numbering::number_parts;
use abc_base::{HostClass, NoMemory, Table};
use abc_file_types::Abc;
use abc_link_names::{LayoutId, Meanings, Named, Part, PartKey, part_key, super_name};
use indexmap::IndexMap;
use std::alloc::Global;

/// The layouts of a file: the part of each, the layout of each part, and what each stands under.
#[derive(Drop)]
pub struct Layouts {
    pub(crate) parts: Table<Part>,
    pub(crate) places: IndexMap<PartKey, u32>,
    pub(crate) bases: Table<Option<u32>>,
}

/// What the instances of a class of the host stand under.
fn host_parent(host: HostClass) -> Option<Part>
    ensures { result ≡ host_parent_of host }
{
    match host {
        HostClass::Object => None,
        HostClass::TypeError | HostClass::ReferenceError | HostClass::ArgumentError => {
            Some(Part::Host(HostClass::Error))
        }
        _ => Some(Part::Host(HostClass::Object)),
    }
}

/// The instances of what a base's name stands for.
fn base_part(named: Option<Named>) -> Part
    ensures { result ≡ base_part_of named }
{
    match named {
        Some(Named::Class(class)) => Part::Instance(class),
        Some(Named::Host(host)) => Part::Host(host),
        _ => Part::Host(HostClass::Object),
    }
}

/// What the name of a class's base stands for.
fn base_of_class(meanings: &Meanings<'_>, class: u32) -> Option<Named>
    ensures { result ≡ base_named meanings.now.abc.now class }
{
    meanings.resolve(super_name(meanings.abc, class))
}

/// What a part stands under.
fn parent(meanings: &Meanings<'_>, part: Part) -> Option<Part>
    ensures { result ≡ parent_of meanings.now.abc.now part }
{
    match part {
        Part::Host(host) => host_parent(host),
        Part::HostClassObject(_) | Part::ClassObject(_) => Some(Part::Host(HostClass::Class)),
        Part::Instance(class) => Some(base_part(base_of_class(meanings, class))),
        Part::Global(_) | Part::Activation(_) | Part::Catch(_, _) => {
            Some(Part::Host(HostClass::Object))
        }
    }
}

/// The place of a part, by the places of all.
fn place(places: &IndexMap<PartKey, u32>, part: Part) -> u32
    ensures { result ≡ place_found places.now part }
{
    places.get(&part_key(part)).copied().unwrap_or(0)
}

/// The place of what a part stands under.
fn base(meanings: &Meanings<'_>, places: &IndexMap<PartKey, u32>, part: Part) -> Option<u32>
    ensures { result ≡ base_found meanings.now.abc.now places.now part }
{
    match parent(meanings, part) {
        Some(above) => Some(place(places, above)),
        None => None,
    }
}

/// The places of what all parts stand under.
fn bases_of(
    alloc: Global,
    meanings: &Meanings<'_>,
    parts: &[Part],
    places: &IndexMap<PartKey, u32>,
) -> Result<Table<Option<u32>>, NoMemory>
    ensures { IfOk result (λ t. t ≡ map (base_found meanings.now.abc.now places.now) parts.now) }
{
    let mut bases = Table::new(alloc);
    for part in parts {
        bases.push(base(meanings, places, *part))?;
    }
    Ok(bases)
}

impl Layouts {
    /// The layouts of a file that keeps the rules of linking.
    pub fn new(alloc: Global, meanings: &Meanings<'_>) -> Result<Layouts, NoMemory>
        requires { AllHold meanings.now.abc.now }
        ensures { IfOk result (λ l. AreLayouts meanings.now.abc.now l) }
    {
        let parts = number_parts(alloc, meanings)?;
        let places = places_of(alloc, parts.as_slice())?;
        let bases = bases_of(alloc, meanings, parts.as_slice(), &places)?;
        Ok(Layouts {
            parts,
            places,
            bases,
        })
    }

    /// How many layouts there are.
    pub fn len(&self) -> usize
        ensures { result ≡ length self.now.parts }
    {
        self.parts.len()
    }

    /// What a layout is of.
    pub fn part_of(&self, layout: LayoutId) -> Part
        requires { layout.0 < length self.now.parts }
        ensures { result ≡ part_at self.now.parts layout.0 }
    {
        *self.parts.get(layout.0 as usize)
    }
}

/// The place of a base as a layout.
fn as_layout(place: Option<u32>) -> Option<LayoutId>
    ensures { result ≡ option_map (λ n. record { 0 = n }) place }
{
    match place {
        Some(place) => Some(LayoutId(place)),
        None => None,
    }
}

impl Layouts {
    /// The layout of a part; of one without a layout, that of Object's instances.
    #[tactic(auto, using(crate::proofs::Finding::layout_is))]
    pub fn layout_of(&self, part: Part) -> LayoutId
        requires { HasPartPlaces self.now }
        ensures { result ≡ record { 0 = place_of_part self.now.parts part } }
    {
        LayoutId(place(&self.places, part))
    }

    /// The number of the layout that a layout stands under.
    #[tactic(auto, using(crate::proofs::Finding::base_at))]
    pub fn base_number(&self, abc: &Abc, layout: u32) -> Option<u32>
        requires layouts { AreLayouts abc.now self.now }
        requires layout { layout < length self.now.parts }
        ensures { result ≡ base_of abc.now self.now.parts layout }
    {
        let _file = abc;
        match self.bases.fetch(layout as usize) {
            Some(base) => base,
            None => None,
        }
    }

    /// The layout that a layout stands under; that of Object's instances stands under none.
    pub fn base(&self, abc: &Abc, layout: LayoutId) -> Option<LayoutId>
        requires layouts { AreLayouts abc.now self.now }
        requires layout { layout.0 < length self.now.parts }
        ensures { result ≡ option_map (λ n. record { 0 = n }) (base_of abc.now self.now.parts layout.0) }
    {
        as_layout(self.base_number(abc, layout.0))
    }

    /// A part that has a layout is found by it, and what a layout stands under has a lower number.
    pub fn layouts_law(&self, abc: &Abc)
        requires { AreLayouts abc.now self.now }
        ensures found { (p : AnyPart) → HasLayout abc.now p
            → part_at self.now.parts (place_of_part self.now.parts p) ≡ p }
        ensures falling { IsFalling (base_of abc.now self.now.parts) }
    {
        let _file = abc;
    }
}
