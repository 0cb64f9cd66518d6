ghost use Rattle.std.specs.Prelude.{◌≡◌};
ghost use Rattle.abc_base.specs.declared.names.HostClass.TheVariants as hosts;
ghost use Rattle.abc_link_names.specs.Linked.{IsLayout};
ghost use Rattle.abc_link_names.specs.Slots.{slots_of};
ghost use Rattle.abc_link_names.specs.declared.part.Part.TheVariants as parts;
ghost use Rattle.abc_verify_typing.specs.Effects.{kind_of_row, slot_kind_at, slot_kind_in};
ghost use Rattle.abc_verify_typing.specs.Routines.{kind_of_part, or_any, type_at};
ghost use Rattle.abc_verify_typing.specs.Rules.{is_free_owner, is_function, reaches};

use abc_base::HostClass;
use abc_kinds::{is_below, kind_of_type};
use abc_link::Linked;
use abc_link_names::{Kind, LayoutId, Owner, Part};
use abc_verify_typing::RowKind;

/// The kind of the instances of a class of the host.
fn host_kind(linked: &Linked, host: HostClass) -> Kind
    ensures { result ≡ kind_of_part linked.now (parts.Host host) }
{
    Kind::Obj(linked.layout_of(Part::Host(host)))
}

/// The kind of the instances of Object, whose layout is the first.
#[tactic(auto, using(crate::proofs::Slots::object_first))]
fn object_kind(linked: &Linked) -> Kind
    ensures { result ≡ kind_of_part linked.now (parts.Host hosts.Object) }
{
    linked.linked_law();
    Kind::Obj(LayoutId(0))
}

/// The kind that a row names.
pub fn fixed_kind(linked: &Linked, kind: RowKind) -> Kind
    ensures { result ≡ kind_of_row linked.now kind }
{
    match kind {
        RowKind::Any => Kind::Any,
        RowKind::Undef => Kind::Undef,
        RowKind::Null => Kind::Null,
        RowKind::Num => Kind::Num,
        RowKind::Bool => Kind::Bool,
        RowKind::Text => Kind::Text,
        RowKind::Space => Kind::Space,
        RowKind::Object => object_kind(linked),
        RowKind::Function => host_kind(linked, HostClass::Function),
        RowKind::Array => host_kind(linked, HostClass::Array),
    }
}

/// The kind of the type that a name is, or `None` where it is none.
pub fn type_kind(linked: &Linked, name: u32) -> Option<Kind>
    ensures { result ≡ type_at linked.now name }
{
    match linked.type_of(name) {
        Some(ty) => Some(kind_of_type(linked, ty)),
        None => None,
    }
}

/// The kind of the type that a name is; any kind where it is none.
pub fn type_or_any(linked: &Linked, name: u32) -> Kind
    ensures { result ≡ or_any (type_at linked.now name) }
{
    match type_kind(linked, name) {
        Some(kind) => kind,
        None => Kind::Any,
    }
}

/// The kind of the slot of a layout at a place among its slots.
fn slot_at(linked: &Linked, layout: LayoutId, place: Option<u32>) -> Option<Kind>
    requires { IsLayout linked.now layout }
    ensures { result ≡ slot_kind_in linked.now (slots_of linked.now layout.0) place }
{
    let place = place?;
    match linked.slots(layout).find(place as usize) {
        Some(slot) => Some(kind_of_type(linked, slot.ty)),
        None => None,
    }
}

/// The kind of the slot of a number, or `None` where the layout has none of that number.
#[tactic(auto, using(crate::proofs::Slots::no_slot_past))]
pub fn slot_kind(linked: &Linked, layout: LayoutId, number: u32) -> Option<Kind>
    ensures { result ≡ slot_kind_at linked.now layout.0 number }
{
    linked.linked_law();
    if layout.0 >= linked.layouts() {
        return None;
    }
    slot_at(linked, layout, linked.slot_numbered(layout, number))
}

/// Whether a method is one that no one owns.
fn is_free_method(owner: Owner) -> bool
    ensures { result ≡ is_free_owner owner }
{
    match owner {
        Owner::Free => true,
        _ => false,
    }
}

/// Whether a method is one that no one owns and that has a body.
pub fn is_function_method(linked: &Linked, method: u32) -> bool
    ensures { result ≡ is_function linked.now method }
{
    is_free_method(linked.owner(method)) && linked.body_of(method).is_some()
}

/// Whether a layout is another or stands under it.
#[tactic(auto, using(crate::proofs::Slots::reaches_below))]
pub fn is_under(linked: &Linked, layout: LayoutId, other: LayoutId) -> bool
    ensures { result ≡ reaches linked.now layout.0 layout.0 other.0 }
{
    linked.linked_law();
    is_below(linked, layout, other)
}
