ghost use Rattle.std.specs.Prelude.{◌≡◌, true, false};
ghost use Rattle.abc_heap_store.specs.Texts.{IsText};
ghost use Rattle.abc_heap_store.specs.What.{is_array as does_hold_elements};
ghost use Rattle.abc_heap_store.specs.Heap.{object_at};
ghost use Rattle.abc_lookup.specs.NoTraits.{HasNoTraits, IsFoundFirst, IsWithoutTraits, class_is_bare, part_is_bare};
ghost use Rattle.abc_objects.specs.Stands.{StandsOver};
ghost use Rattle.abc_objects.specs.Values.{IsObject};
ghost use Rattle.abc_link_names.specs.Linked.{IsLayout};

use crate::elements::element_number;
use crate::name_spaces::holds_public;
use abc_base::HostClass;
use abc_heap_values::ObjId;
use abc_link::Linked;
use abc_link_names::{LayoutId, Part};
use abc_objects::{Arena, Found, Name};

/// Whether instances of a class of the host have no traits: those of Object and arrays, of which there are most.
fn is_bare_class(class: HostClass) -> bool
    ensures { result ≡ class_is_bare class }
{
    matches!(class, HostClass::Object | HostClass::Array)
}

fn is_bare(part: Part) -> bool
    ensures { result ≡ part_is_bare part }
{
    match part {
        Part::Host(class) => is_bare_class(class),
        _ => false,
    }
}

/// Whether a layout and those above it are known to have no traits.
#[inline(always)]
pub(crate) fn has_no_traits(l: &Linked, x: LayoutId) -> bool
    requires { IsLayout l.now x }
    ensures { result ≡ true → HasNoTraits l.now x.0 }
{
    l.linked_law();
    is_bare(l.part_of(x))
}

/// Whether an object is known to have no traits, and a name holds the public namespace.
#[inline(always)]
pub fn is_plain(l: &Linked, a: &Arena, o: ObjId, name: &Name) -> bool
    requires over { StandsOver l.now a.now }
    requires holder { IsObject a.now o }
    ensures { result ≡ true → IsWithoutTraits l.now a.now o name.now }
{
    if !has_no_traits(l, a.layout(o)) {
        return false;
    }
    holds_public(l, name.spaces)
}

/// The element of an array that a name finds, if there is one.
#[inline(always)]
fn first_element(l: &Linked, a: &Arena, o: ObjId, name: &Name) -> Found
    requires over { StandsOver l.now a.now }
    requires holder { IsObject a.now o }
    requires name { IsText l.now.file.strings a.now name.now.text }
    requires plain { IsWithoutTraits l.now a.now o name.now }
    requires array { does_hold_elements (object_at a.now.objects o.0).what ≡ true }
    ensures { IsFoundFirst l.now a.now o name.now result }
{
    match element_number(a.text_bytes(l, name.text)) {
        Some(index) => {
            if index < a.length(o) {
                Found::Element { holder: o, index }
            } else {
                Found::Missing
            }
        }
        None => Found::Missing,
    }
}

/// The property of an object that a name finds, if there is one. The object is no array.
#[inline(always)]
fn first_property(l: &Linked, a: &Arena, o: ObjId, name: &Name) -> Found
    requires over { StandsOver l.now a.now }
    requires holder { IsObject a.now o }
    requires name { IsText l.now.file.strings a.now name.now.text }
    requires plain { IsWithoutTraits l.now a.now o name.now }
    requires no_array { does_hold_elements (object_at a.now.objects o.0).what ≡ false }
    ensures { IsFoundFirst l.now a.now o name.now result }
{
    match a.property(l, o, name.text) {
        Some(value) => Found::Property { holder: o, value },
        None => Found::Missing,
    }
}

/// What a name finds of an object's own, where it has no traits.
#[inline(always)]
fn first_of_plain(l: &Linked, a: &Arena, o: ObjId, name: &Name) -> Found
    requires over { StandsOver l.now a.now }
    requires holder { IsObject a.now o }
    requires name { IsText l.now.file.strings a.now name.now.text }
    requires plain { IsWithoutTraits l.now a.now o name.now }
    ensures { IsFoundFirst l.now a.now o name.now result }
{
    if a.is_array(o) {
        first_element(l, a, o, name)
    } else {
        first_property(l, a, o, name)
    }
}

/// What a name finds on an object, where that is told at once: a property or an element of one that has no traits, as plain
/// objects and arrays have none. It answers `Missing` where it has to be searched for.
#[inline(always)]
pub fn find_first(l: &Linked, a: &Arena, o: ObjId, name: &Name) -> Found
    requires over { StandsOver l.now a.now }
    requires holder { IsObject a.now o }
    requires name { IsText l.now.file.strings a.now name.now.text }
    ensures { IsFoundFirst l.now a.now o name.now result }
{
    if is_plain(l, a, o, name) {
        first_of_plain(l, a, o, name)
    } else {
        Found::Missing
    }
}
