ghost use Rattle.std.specs.Prelude.{◌≡◌, ◌<◌, length};
ghost use Rattle.abc_lookup.specs.Slots.{members_of, slot_of};
ghost use Rattle.abc_link_names.specs.Linked.{IsLayout, base_layout};
ghost use Rattle.abc_link_names.specs.Slots.{handler_at};
ghost use Rattle.abc_link_names.specs.Traits.{own_table_of};
ghost use Rattle.abc_objects.specs.Traits.{members_in, slots_under as slots_below};

use abc_file_types::{Abc, TraitBody, TraitInfo};
use abc_link::Linked;
use abc_link_layouts::traits_of;
use abc_link_names::{LayoutId, handlers};
use abc_objects::Member;

/// The name of a caught value, by its index; 0 is none.
#[tactic(auto, using(abc_base::proofs::Past::past_end))]
pub(crate) fn caught_name(abc: &Abc, body: u32, exception: u32) -> u32
    ensures { result ≡ (handler_at abc.now body exception).var_name }
{
    match handlers(abc, body).get(exception as usize) {
        Some(handler) => handler.var_name,
        None => 0,
    }
}

/// The own traits of a layout.
#[inline(always)]
pub(crate) fn own_table(l: &Linked, x: LayoutId) -> &[TraitInfo]
    requires { IsLayout l.now x }
    ensures { result.now ≡ own_table_of l.now x.0 }
{
    traits_of(l.abc(), l.part_of(x))
}

/// How many slots of a layout stand before its own.
pub(crate) fn slots_under(l: &Linked, x: LayoutId) -> usize
    requires { IsLayout l.now x }
    ensures { result ≡ slots_below l.now (base_layout l.now x.0) }
{
    l.linked_law();
    match l.base(x) {
        Some(base) => l.slots(base).len(),
        None => 0,
    }
}

/// Where the slot of a trait of a layout stands.
pub(crate) fn slot_at(l: &Linked, x: LayoutId, place: u32) -> u32
    requires layout { IsLayout l.now x }
    requires place { place < length (own_table_of l.now x.0) }
    ensures { result ≡ slot_of l.now x.0 place }
{
    l.linked_law();
    l.slots_law();
    (slots_under(l, x) + l.slots_before(x, place) as usize) as u32
}

/// What a trait of a layout is. The traits of functions are not run.
#[inline(always)]
pub(crate) fn member_at(l: &Linked, x: LayoutId, place: u32, body: TraitBody) -> Option<Member>
    requires layout { IsLayout l.now x }
    requires place { place < length (own_table_of l.now x.0) }
    ensures { members_of result ≡ members_in (slot_of l.now x.0 place) body }
{
    match body {
        TraitBody::Slot { constant, .. } => Some(Member::Slot {
            slot: slot_at(l, x, place),
            constant,
        }),
        TraitBody::Class { .. } => Some(Member::Slot {
            slot: slot_at(l, x, place),
            constant: true,
        }),
        TraitBody::Method { method, .. } => Some(Member::Method(method)),
        TraitBody::Getter { method, .. } => Some(Member::Getter(method)),
        TraitBody::Setter { method, .. } => Some(Member::Setter(method)),
        TraitBody::Function { .. } => None,
    }
}
