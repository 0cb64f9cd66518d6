ghost use Rattle.std.specs.Prelude.{◌≡◌};
ghost use Rattle.abc_verify_typing.specs.Effects.{nullable, scope_kind, slot_kind, sum_kind};
ghost use Rattle.abc_verify_typing.specs.Rules.{has_slot, is_instance_of_layout, is_namespace, is_kind_number, is_object};

use crate::lookup::{fixed_kind, is_under, slot_kind};
use abc_link::Linked;
use abc_link_names::{Kind, LayoutId};
use abc_verify_typing::RowKind;

/// The kind of the slot of a number in a value of a kind.
pub fn kind_of_slot(linked: &Linked, number: u32, receiver: Kind) -> Kind
    ensures { result ≡ slot_kind linked.now number receiver }
{
    match receiver {
        Kind::Obj(layout) => slot_kind(linked, layout, number).unwrap_or(Kind::Any),
        _ => Kind::Any,
    }
}

/// The kind of a sum.
pub fn kind_of_sum(a: Kind, b: Kind) -> Kind
    ensures { result ≡ sum_kind a b }
{
    match (a, b) {
        (Kind::Num | Kind::Bool, Kind::Num | Kind::Bool) => Kind::Num,
        _ => Kind::Any,
    }
}

/// The kind, where it holds null.
pub fn nullable_kind(kind: Kind) -> Kind
    ensures { result ≡ nullable kind }
{
    match kind {
        Kind::Text => Kind::Text,
        Kind::Space => Kind::Space,
        Kind::Obj(layout) => Kind::Obj(layout),
        _ => Kind::Any,
    }
}

/// The kind of a scope that is pushed.
pub fn kind_of_scope(linked: &Linked, kind: Kind) -> Kind
    ensures { result ≡ scope_kind linked.now kind }
{
    match kind {
        Kind::Null => Kind::Null,
        Kind::Obj(layout) => Kind::Obj(layout),
        _ => fixed_kind(linked, RowKind::Object),
    }
}

/// Whether a kind is a number's.
pub fn is_number_kind(kind: Kind) -> bool
    ensures { result ≡ is_kind_number kind }
{
    match kind {
        Kind::Num => true,
        _ => false,
    }
}

/// Whether a kind is a namespace's, or null's.
pub fn is_namespace_kind(kind: Kind) -> bool
    ensures { result ≡ is_namespace kind }
{
    match kind {
        Kind::Null | Kind::Space => true,
        _ => false,
    }
}

/// Whether a kind is an object's, or null's.
pub fn is_object_kind(kind: Kind) -> bool
    ensures { result ≡ is_object kind }
{
    match kind {
        Kind::Null => true,
        Kind::Obj(_) => true,
        _ => false,
    }
}

/// Whether a kind is at most that of the instances of a layout.
pub fn is_instance_kind(linked: &Linked, layout: Option<LayoutId>, kind: Kind) -> bool
    ensures { result ≡ is_instance_of_layout linked.now layout kind }
{
    match (layout, kind) {
        (None, _) => true,
        (Some(_), Kind::Null) => true,
        (Some(above), Kind::Obj(layout)) => is_under(linked, layout, above),
        (Some(_), _) => false,
    }
}

/// Whether a receiver has the slot, as far as its kind says which layout it has.
pub fn kind_has_slot(linked: &Linked, number: u32, kind: Kind) -> bool
    ensures { result ≡ has_slot linked.now number kind }
{
    match kind {
        Kind::Obj(layout) => slot_kind(linked, layout, number).is_some(),
        _ => true,
    }
}
