ghost use Rattle.std.specs.Prelude.{◌≡◌, ◌<◌, ◌↔◌, ℕ, IsTrue, List, [], Some, get_or, length, slice_get};
ghost use Rattle.std.specs.List.{list_any};
ghost use Rattle.std.specs.Option.{option_copied, option_map};
ghost use Rattle.std.specs.Str.{bytes_eq};
ghost use Rattle.abc_base_graphs.specs.Index.{first};
ghost use Rattle.abc_base_graphs.specs.Texts.{texts_of};
ghost use Rattle.abc_link_names.specs.Pool.{is_public as is_public_in, same_space, set as set_of};
ghost use Rattle.abc_link_names.specs.Interfaces.{Implements};
ghost use Rattle.abc_link_names.specs.Linked.{IsLayout, IsLinkedFile, above as above_of, base_layout as base_of, layout_of as layout_of_part, part_of as part_of_layout};
ghost use Rattle.abc_link_names.specs.Owners.{body_of as body_of_method, owner_of};
ghost use Rattle.abc_link_names.specs.Slots.{HasFewSlots, slot_numbered as slot_with, slots_of};
ghost use Rattle.abc_link_names.specs.Tree.{IsBelow};
ghost use Rattle.abc_link_names.specs.Traits.{own_table_of, own_traits as own_traits_of};
ghost use Rattle.abc_link_layouts.specs.Numbering.{HasLayoutNumbers};
ghost use Rattle.abc_link.specs.OwnSlots.{slots_before as slots_before_of};
ghost use Rattle.abc_link.specs.ScriptTraits.{owners_of, script_traits as script_traits_of};
ghost use Rattle.abc_link_names.specs.Types.{type_of as type_of_name};

use crate::ladder::{Rung, above, far_above};
use crate::tables::SearchTables;
use abc_base::Table;
use abc_base_graphs::Heirs;
use abc_file_types::Abc;
use abc_kinds::Tree;
use abc_link_interfaces::Interfaces;
use abc_link_layouts::{Layouts, Members, Owners, string_number, type_in};
use abc_link_names::{LayoutId, Meanings, NameTables, Named, Names, Owner, Part, SlotInfo, Ty};
use std::marker::Model;

/// What is made of a file that keeps the rules of linking.
#[derive(Drop)]
pub(crate) struct Made {
    pub owners: Owners,
    pub layouts: Layouts,
    /// For each layout one far above it.
    pub rungs: Table<Rung>,
    pub slots: Heirs<SlotInfo>,
    pub members: Members,
    pub interfaces: Interfaces,
    pub search: SearchTables,
}

/// A linked file: whose method each method is, the layouts of objects and their slots, the types of names.
#[derive(Drop)]
pub struct Linked {
    pub(crate) abc: Abc,
    pub(crate) names: NameTables,
    pub(crate) meanings: Table<Option<Named>>,
    pub(crate) made: Made,
}

impl Model for Linked {
    ghost use Rattle.abc_link_names.specs.Linked.{LinkedFile};

    ghost Value = { LinkedFile };

    ghost use Rattle.abc_link.specs.Tables.{AreTables, file_of_tables};

    ghost view = { file_of_tables };

    ghost invariant = { AreTables };
}

impl Linked {
    /// The file.
    pub fn abc(&self) -> &Abc
        ensures { result.now ≡ self.now.file }
    {
        &self.abc
    }

    /// What every linked file keeps: the rules of linking, and a numbering of its layouts.
    #[tactic(auto, using(crate::proofs::Laws::is_linked))]
    pub fn linked_law(&self)
        ensures { IsLinkedFile self.now }
    {
        let _file = &self.abc;
    }

    /// The layouts of every linked file have the one numbering of its file.
    pub fn numbering_law(&self)
        ensures { HasLayoutNumbers self.now }
    {
        let _file = &self.abc;
    }

    /// Every linked file has fewer than 2^32 slots in each layout.
    #[tactic(auto, using(crate::proofs::Laws::has_few_slots))]
    pub fn slots_law(&self)
        ensures { HasFewSlots self.now }
    {
        let _file = &self.abc;
    }

    /// Whose method a method is.
    #[inline(always)]
    pub fn owner(&self, method: u32) -> Owner
        ensures { result ≡ owner_of self.now.file method }
    {
        self.made.owners.owner(&self.abc, method)
    }

    /// The body of a method, if it has one.
    pub fn body_of(&self, method: u32) -> Option<u32>
        ensures { result ≡ body_of_method self.now.file method }
    {
        self.made.owners.body_of(&self.abc, method)
    }
}

impl Linked {
    /// How many layouts there are.
    pub fn layouts(&self) -> u32
        ensures { result ≡ length self.now.parts }
    {
        self.made.layouts.len() as u32
    }

    /// What a layout is of.
    pub fn part_of(&self, layout: LayoutId) -> Part
        requires { IsLayout self.now layout }
        ensures { result ≡ part_of_layout self.now layout }
    {
        self.made.layouts.part_of(layout)
    }

    /// The layout of a part; of a part without one, that of Object's instances.
    pub fn layout_of(&self, part: Part) -> LayoutId
        ensures { result ≡ layout_of_part self.now part }
    {
        self.made.layouts.layout_of(part)
    }

    /// The layout that a layout stands under. That of Object's instances, layout 0, stands under none.
    pub fn base(&self, layout: LayoutId) -> Option<LayoutId>
        requires { IsLayout self.now layout }
        ensures { result ≡ option_map (λ n. record { 0 = n }) (base_of self.now layout.0) }
    {
        self.made.layouts.base(&self.abc, layout)
    }

    /// The layout that stands above a layout: what it stands under, or that of Object's instances where it stands under
    /// none or is no layout.
    pub fn above(&self, layout: LayoutId) -> LayoutId
        ensures { result.0 ≡ above_of self.now layout.0 }
    {
        LayoutId(above(&self.abc, &self.made.layouts, layout.0))
    }

    /// A layout far above a layout, or the layout itself. A few such steps lead to any layout that it stands under.
    pub fn far_above(&self, layout: LayoutId) -> LayoutId
        ensures { IsBelow self.now layout.0 result.0 }
    {
        LayoutId(far_above(&self.abc, &self.made.layouts, &self.made.rungs, layout.0))
    }

    /// The slots of a layout: those that it inherits, and then its own in file order.
    #[tactic(auto, using(crate::proofs::Laws::slots_found, crate::proofs::Laws::slots_within))]
    pub fn slots(&self, layout: LayoutId) -> &Table<SlotInfo>
        requires { IsLayout self.now layout }
        ensures { result.now ≡ slots_of self.now layout.0 }
    {
        self.made.slots.values(layout.0)
    }

    /// The slot that a number above 0 names, as its place among the slots of the layout. An inherited slot of that number
    /// wins.
    #[tactic(auto, using(crate::proofs::Laws::numbered_found, crate::proofs::Laws::slots_within))]
    pub fn slot_numbered(&self, layout: LayoutId, number: u32) -> Option<u32>
        requires { IsLayout self.now layout }
        ensures { result ≡ slot_with self.now layout.0 number }
    {
        let place = self.made.slots.place(layout.0, number);
        if number == 0 { None } else { place }
    }

    /// The type of a name, where index 0 is the type any. A name that doesn't resolve has none.
    #[inline(always)]
    pub fn type_of(&self, name: u32) -> Option<Ty>
        ensures { result ≡ type_of_name self.now name }
    {
        let meanings = Meanings::new(&self.abc, &self.meanings);
        match meanings.type_named(name) {
            Some(named) => Some(type_in(&self.abc, &self.made.layouts, named)),
            None => None,
        }
    }

    /// The own traits of a layout that have a text, as their places in its table, in file order. It answers none where no
    /// own trait has the text.
    pub fn own_traits(&self, layout: LayoutId, text: &[u8]) -> Option<&Table<u32>>
        requires { IsLayout self.now layout }
        ensures { option_copied result ≡ own_traits_of self.now layout.0 text.now }
    {
        self.made.members.own_traits(
            &self.abc,
            &self.made.layouts,
            &self.names.texts,
            layout.0,
            text,
        )
    }
}

impl Linked {
    /// Whether a class names an interface: itself, through its bases, or through the interfaces' interfaces.
    pub fn implements(&self, class: u32, interface: u32) -> bool
        requires { class < length self.now.file.instances }
        ensures { IsTrue result ↔ Implements self.now class interface }
    {
        self.made.interfaces.implements(&self.abc, class, interface)
    }
}

impl Linked {
    /// Whether two namespaces of the pool are equal.
    pub fn is_same_space(&self, a: u32, b: u32) -> bool
        ensures { result ≡ same_space self.now.file a b }
    {
        let names = Names::new(&self.abc, &self.names);
        names.is_same_space(a, b)
    }

    /// Whether a namespace of the pool is public.
    #[inline(always)]
    pub fn is_public(&self, space: u32) -> bool
        ensures { result ≡ is_public_in self.now.file space }
    {
        let names = Names::new(&self.abc, &self.names);
        names.is_public(space)
    }
}

impl Linked {
    /// The number of a text, if it is the empty one or a string of the file. Equal texts have equal numbers.
    pub fn text_number(&self, text: &[u8]) -> Option<u32>
        ensures { result ≡ first (bytes_eq text.now) (texts_of self.now.file.strings) }
    {
        self.names.texts.number_of(text)
    }

    /// The number of the text of a string of the file, by its index: index 0 is the empty text, and so are those past the end.
    pub fn string_number(&self, string: u32) -> u32
        ensures { first (bytes_eq (get_or (texts_of self.now.file.strings) string []))
            (texts_of self.now.file.strings) ≡ Some result }
    {
        string_number(&self.abc, &self.names.texts, &self.names.numbers, string)
    }

    /// The own traits of a layout that have the text of a number, as their places in its table, in file order. It answers
    /// none where no own trait has the text.
    pub fn own_numbered(&self, layout: LayoutId, number: Option<u32>) -> Option<&Table<u32>>
        requires { IsLayout self.now layout }
        ensures { (t : List ℕ) → first (bytes_eq t) (texts_of self.now.file.strings) ≡ number
            → option_copied result ≡ own_traits_of self.now layout.0 t }
    {
        self.made.members.own_numbered(
            &self.abc,
            &self.made.layouts,
            &self.names.texts,
            layout.0,
            number,
        )
    }

    /// How many of a layout's own traits before the one at a place of its table have slots.
    pub fn slots_before(&self, layout: LayoutId, place: u32) -> u32
        requires layout { IsLayout self.now layout }
        requires place { place < length (own_table_of self.now layout.0) }
        ensures { slice_get (slots_before_of (own_table_of self.now layout.0)) place ≡ Some result }
    {
        self.made
            .search
            .slots
            .before(&self.abc, &self.made.layouts, layout.0, place)
    }

    /// The traits of all scripts that have the text of a number, as their places among these, in order. It answers none
    /// where no trait of a script has the text.
    pub fn script_traits(&self, number: Option<u32>) -> Option<&Table<u32>>
        ensures { (t : List ℕ) → first (bytes_eq t) (texts_of self.now.file.strings) ≡ number
            → option_copied result ≡ script_traits_of self.now.file t }
    {
        self.made
            .search
            .scripts
            .numbered(&self.abc, &self.names.texts, number)
    }

    /// The script of a trait by its place among those of all scripts.
    pub fn script_of(&self, place: u32) -> u32
        requires { place < length (owners_of self.now.file) }
        ensures { slice_get (owners_of self.now.file) place ≡ Some result }
    {
        self.made
            .search
            .scripts
            .script_of(&self.abc, &self.names.texts, place)
    }

    /// Whether a set of the pool has a namespace that is equal to one of the pool.
    pub fn set_holds(&self, set: u32, space: u32) -> bool
        ensures { result ≡ list_any (same_space self.now.file space) (set_of self.now.file set) }
    {
        let names = Names {
            abc: &self.abc,
            tables: &self.names,
        };
        self.made.search.sets.holds(&names, set, space)
    }

    /// Whether a set of the pool has the public namespace.
    pub fn set_holds_public(&self, set: u32) -> bool
        ensures { result ≡ list_any (is_public_in self.now.file) (set_of self.now.file set) }
    {
        let names = Names {
            abc: &self.abc,
            tables: &self.names,
        };
        self.made.search.sets.holds_public(&names, set)
    }
}

impl Tree for Linked {
    ghost file = { λ l. l };

    fn linked_law(&self) {
        Linked::linked_law(self)
    }

    fn above(&self, layout: LayoutId) -> LayoutId {
        Linked::above(self, layout)
    }

    fn far_above(&self, layout: LayoutId) -> LayoutId {
        Linked::far_above(self, layout)
    }

    fn layout_of(&self, part: Part) -> LayoutId {
        Linked::layout_of(self, part)
    }
}
