ghost use Rattle.std.specs.Prelude.{◌≡◌, ◌<◌, ◌^◌, ◌||◌, ◌∷◌, [], ℕ, Some, MatchOption, get_or, length};
ghost use Rattle.std.specs.List.{flat_map, list_any};
ghost use Rattle.abc_base.specs.declared.names.HostClass.TheVariants as hosts;
ghost use Rattle.abc_base_graphs.specs.Ways.{IsPlaceBelow, before, way};
ghost use Rattle.abc_lookup.specs.Slots.{own_at};
ghost use Rattle.abc_lookup.specs.Steps.{along, fits_held, layout_number, layout_result, gives_found, member_found, trait_result, with_text};
ghost use Rattle.abc_link_names.specs.Linked.{IsLayout, base_layout};
ghost use Rattle.abc_link_names.specs.Numbering.{part_at};
ghost use Rattle.abc_link_names.specs.Traits.{own_table_of};
ghost use Rattle.abc_link_names.specs.declared.part.Part.TheVariants as parts;
ghost use Rattle.abc_objects.specs.Candidates.{answer_of_search, found_as, traits};
ghost use Rattle.abc_objects.specs.Results.{or_next};
ghost use Rattle.abc_objects.specs.Spaces.{holds_protected as does_hold_protected};
ghost use Rattle.abc_objects.specs.Traits.{slots_under as slots_below, traits_from};

use crate::name_spaces::{holds, holds_pooled, is_protected, protected_of};
use crate::query::Query;
use crate::tables::{caught_name, member_at, own_table, slots_under};
use abc_base::HostClass;
use abc_link_names::{LayoutId, Part, qname_at, text_at};
use abc_objects::{Declared, Found, Member, TraitSpace};

/// The place of a list that has only that one.
#[inline(always)]
pub(crate) fn only_of(places: &[u32]) -> Option<u32>
    ensures { MatchOption result (Unit {0}) (λ p. places.now ≡ p ∷ []) }
{
    match places {
        [place] => Some(*place),
        _ => None,
    }
}

impl Query<'_> {
    /// Whether the name holds the protected namespace of a layout's class.
    #[inline(always)]
    fn holds_protected(&self, x: LayoutId) -> bool
        requires { IsLayout self.now.l.now x }
        ensures { result ≡ does_hold_protected self.now.l.now self.now.name.spaces x.0 }
    {
        match protected_of(self.l, x) {
            Some(space) => holds_pooled(self.l, self.name.spaces, space),
            None => false,
        }
    }

    /// Whether a trait's namespace fits, where `held` says that the name holds the protected namespace of a class on the
    /// way to it.
    #[inline(always)]
    fn fits(&self, x: LayoutId, held: bool, space: TraitSpace) -> bool
        requires { IsLayout self.now.l.now x }
        ensures { result ≡ fits_held self.now.l.now self.now.name x.0 held space }
    {
        holds(self.l, self.name.spaces, space) || is_protected(self.l, x, space) && held
    }

    /// What is found by a trait.
    #[inline(always)]
    fn found_as(&self, member: Member) -> Found
        ensures { result ≡ found_as self.now.l.now member }
    {
        match member {
            Member::Slot { slot, constant } => Found::Slot { slot, constant },
            Member::Method(method) => Found::Method {
                class: self.l.owner(method),
                method,
            },
            Member::Getter(method) => Found::Getter(method),
            Member::Setter(method) => Found::Setter(method),
        }
    }

    /// What a trait that fits gives.
    #[inline(always)]
    fn give(&self, member: Member) -> Found
        ensures { result ≡ member_found self.now.l.now self.now.skip member }
    {
        if self.skip.passes_over(member) {
            return Found::WrongSide;
        }
        self.found_as(member)
    }

    /// What a trait that has the text gives.
    fn try_declared(&self, x: LayoutId, held: bool, declared: Declared) -> Found
        requires { IsLayout self.now.l.now x }
        ensures { result ≡ trait_result self.now.l.now self.now.name self.now.skip x.0 held declared }
    {
        if !self.fits(x, held, declared.space) {
            return Found::Missing;
        }
        self.give(declared.member)
    }

    /// What a trait of a text gives.
    fn try_named(&self, x: LayoutId, held: bool, text: &[u8], declared: Declared) -> Found
        requires { IsLayout self.now.l.now x }
        ensures { result
            ≡ gives_found self.now.l.now self.now.name self.now.skip x.0 held
            (with_text self.now.text.now (record { text = text.now; declared = declared } ∷ [])) }
    {
        if self.text != text {
            return Found::Missing;
        }
        self.try_declared(x, held, declared)
    }

    /// What the slot `prototype` of a class object gives.
    fn find_prototype(&self, x: LayoutId, held: bool) -> Found
        requires layout { IsLayout self.now.l.now x }
        requires few { slots_below self.now.l.now (base_layout self.now.l.now x.0) < 2 ^ 32 }
        requires part { part_at self.now.l.now.parts x.0 ≡ parts.Host hosts.Class }
        ensures { result
            ≡ layout_result self.now.l.now self.now.text.now self.now.name self.now.skip x.0 held }
    {
        let slot = slots_under(self.l, x) as u32;
        let declared = Declared {
            space: TraitSpace::Public,
            member: Member::Slot {
                slot,
                constant: true,
            },
        };
        self.try_named(x, held, b"prototype", declared)
    }

    /// What the slot of a catch object gives.
    fn find_caught(&self, x: LayoutId, held: bool, body: u32, exception: u32) -> Found
        requires layout { IsLayout self.now.l.now x }
        requires few { slots_below self.now.l.now (base_layout self.now.l.now x.0) < 2 ^ 32 }
        requires part { part_at self.now.l.now.parts x.0 ≡ parts.Catch body exception }
        ensures { result
            ≡ layout_result self.now.l.now self.now.text.now self.now.name self.now.skip x.0 held }
    {
        let abc = self.l.abc();
        let index = caught_name(abc, body, exception);
        if index == 0 {
            return Found::Missing;
        }
        let slot = slots_under(self.l, x) as u32;
        let name = qname_at(abc, index);
        let declared = Declared {
            space: TraitSpace::Pool(name.ns),
            member: Member::Slot {
                slot,
                constant: false,
            },
        };
        self.try_named(x, held, text_at(abc, name.string), declared)
    }

    /// What the trait at a place of a layout's table gives, which has the text.
    #[inline(always)]
    fn try_place(&self, x: LayoutId, held: bool, place: u32) -> Found
        requires layout { IsLayout self.now.l.now x }
        requires place { place < length (own_table_of self.now.l.now x.0) }
        ensures { result
            ≡ gives_found self.now.l.now self.now.name self.now.skip x.0 held
            (own_at self.now.l.now x.0 place) }
    {
        let info = &own_table(self.l, x)[place as usize];
        let space = TraitSpace::Pool(qname_at(self.l.abc(), info.name).ns);
        if !self.fits(x, held, space) {
            return Found::Missing;
        }
        match member_at(self.l, x, place, info.body) {
            Some(member) => self.give(member),
            None => Found::Missing,
        }
    }

    /// What the traits at some places of a layout's table give.
    #[inline(never)]
    fn try_each(&self, x: LayoutId, held: bool, places: &[u32]) -> Found
        requires layout { IsLayout self.now.l.now x }
        requires places { (i : ℕ) → i < length places.now
            → get_or places.now i 0 < length (own_table_of self.now.l.now x.0) }
        ensures { result
            ≡ gives_found self.now.l.now self.now.name self.now.skip x.0 held
            (flat_map (own_at self.now.l.now x.0) places.now) }
    {
        let mut so_far = Found::Missing;
        for place in places {
            so_far = so_far.or(self.try_place(x, held, *place));
            if so_far.is_hit() {
                break;
            }
        }
        so_far
    }

    /// What the traits at some places of a layout's table give; most often there is one.
    #[inline(always)]
    fn try_places(&self, x: LayoutId, held: bool, places: &[u32]) -> Found
        requires layout { IsLayout self.now.l.now x }
        requires places { (i : ℕ) → i < length places.now
            → get_or places.now i 0 < length (own_table_of self.now.l.now x.0) }
        ensures { result
            ≡ gives_found self.now.l.now self.now.name self.now.skip x.0 held
            (flat_map (own_at self.now.l.now x.0) places.now) }
    {
        match only_of(places) {
            Some(place) => self.try_place(x, held, place),
            None => self.try_each(x, held, places),
        }
    }

    /// What the traits of a layout's table give.
    #[inline(always)]
    fn find_in_table(&self, x: LayoutId, held: bool) -> Found
        requires { IsLayout self.now.l.now x }
        ensures { result
            ≡ gives_found self.now.l.now self.now.name self.now.skip x.0 held
            (with_text self.now.text.now (traits_from self.now.l.now
            (slots_below self.now.l.now (base_layout self.now.l.now x.0))
            (own_table_of self.now.l.now x.0))) }
    {
        match self.l.own_numbered(x, self.number) {
            Some(places) => self.try_places(x, held, places.as_slice()),
            None => Found::Missing,
        }
    }

    /// What the traits of a host class's instances give: only class objects have one.
    #[inline(always)]
    fn find_in_host_class(&self, x: LayoutId, held: bool, class: HostClass) -> Found
        requires layout { IsLayout self.now.l.now x }
        requires few { slots_below self.now.l.now (base_layout self.now.l.now x.0) < 2 ^ 32 }
        requires part { part_at self.now.l.now.parts x.0 ≡ parts.Host class }
        ensures { result
            ≡ layout_result self.now.l.now self.now.text.now self.now.name self.now.skip x.0 held }
    {
        match class {
            HostClass::Class => self.find_prototype(x, held),
            _ => self.find_in_table(x, held),
        }
    }

    /// What the traits of a layout give.
    #[inline(always)]
    fn find_in_layout(&self, x: LayoutId, held: bool) -> Found
        requires { IsLayout self.now.l.now x }
        ensures { result
            ≡ layout_result self.now.l.now self.now.text.now self.now.name self.now.skip x.0 held }
    {
        self.l.linked_law();
        self.l.slots_law();
        match self.l.part_of(x) {
            Part::Host(class) => self.find_in_host_class(x, held, class),
            Part::Catch(body, exception) => self.find_caught(x, held, body, exception),
            _ => self.find_in_table(x, held),
        }
    }

    /// Whether the name holds a protected namespace on the way to a layout, the layout's own included.
    #[inline(always)]
    fn holds_up_to(&self, held: bool, x: LayoutId) -> bool
        requires { IsLayout self.now.l.now x }
        ensures { result ≡ (held || does_hold_protected self.now.l.now self.now.name.spaces x.0) }
    {
        held || self.holds_protected(x)
    }

    /// What was found first, or else what the traits of a layout and its bases give, where `below` says that the name holds the
    /// protected namespace of a class on the way to them.
    #[inline(never)]
    fn find_above(&self, first: Found, above: Option<LayoutId>, below: bool) -> Found
        requires { IsPlaceBelow (layout_number above) (length self.now.l.now.parts) }
        ensures { result
            ≡ or_next first (along self.now.l.now self.now.text.now self.now.name self.now.skip below
            (way (base_layout self.now.l.now) (layout_number above))) }
    {
        self.l.linked_law();
        let mut held = below;
        let mut so_far = first;
        let mut at = above;
        while let Some(x) = at {
            held = self.holds_up_to(held, x);
            so_far = so_far.or(self.find_in_layout(x, held));
            if so_far.is_hit() {
                break;
            }
            at = self.l.base(x);
        }
        so_far
    }

    /// What the traits of a layout and its bases give, where `below` says that the name holds the protected namespace of a
    /// class on the way to it.
    #[inline(always)]
    fn find_from(&self, from: LayoutId, below: bool) -> Found
        requires { IsLayout self.now.l.now from }
        ensures { result
            ≡ along self.now.l.now self.now.text.now self.now.name self.now.skip below
            (way (base_layout self.now.l.now) (Some from.0)) }
    {
        self.l.linked_law();
        let held = self.holds_up_to(below, from);
        let first = self.find_in_layout(from, held);
        if first.is_hit() {
            return first;
        }
        let above = self.l.base(from);
        self.find_above(first, above, held)
    }

    /// Whether the name holds the protected namespace of a class on the way from a layout to one above it.
    #[inline(always)]
    fn holds_below(&self, object: LayoutId, from: LayoutId) -> bool
        requires { IsLayout self.now.l.now object }
        ensures { result
            ≡ list_any (does_hold_protected self.now.l.now self.now.name.spaces)
            (before from.0 (way (base_layout self.now.l.now) (Some object.0))) }
    {
        self.l.linked_law();
        let mut at = Some(object);
        while let Some(x) = at {
            if x.0 == from.0 {
                return false;
            }
            if self.holds_protected(x) {
                return true;
            }
            at = self.l.base(x);
        }
        false
    }

    /// What the traits of a layout and its bases give, for an object whose layout is that one or stands under it.
    #[inline(always)]
    pub(crate) fn find_declared(&self, object: LayoutId, from: LayoutId) -> Found
        requires object { IsLayout self.now.l.now object }
        requires from { IsLayout self.now.l.now from }
        ensures { result
            ≡ answer_of_search self.now.l.now self.now.a.now self.now.name self.now.skip
            (traits self.now.l.now object.0 from.0) }
    {
        let held = self.holds_below(object, from);
        self.find_from(from, held)
    }
}
