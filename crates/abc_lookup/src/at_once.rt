ghost use Rattle.std.specs.Prelude.{◌≡◌, ◌<◌, true, Some, MatchOption, length};
ghost use Rattle.std.specs.Str.{bytes_eq};
ghost use Rattle.abc_heap_store.specs.Texts.{IsText};
ghost use Rattle.abc_base_graphs.specs.Index.{first};
ghost use Rattle.abc_base_graphs.specs.Texts.{texts_of};
ghost use Rattle.abc_lookup.specs.NoTraits.{IsFoundFirst};
ghost use Rattle.abc_lookup.specs.OwnTraits.{GivesMember, HasTable, own_named};
ghost use Rattle.abc_lookup.specs.Slots.{own_at};
ghost use Rattle.abc_objects.specs.Stands.{StandsOver};
ghost use Rattle.abc_objects.specs.Values.{IsObject};
ghost use Rattle.abc_link_names.specs.Linked.{IsLayout};
ghost use Rattle.abc_link_names.specs.Numbering.{part_at};
ghost use Rattle.abc_objects.specs.Candidates.{layout_at, text_of_span};
ghost use Rattle.abc_link_names.specs.Traits.{own_table_of, own_traits};
ghost use Rattle.abc_link_names.specs.declared.types.Owner.{Owner};
ghost use Rattle.abc_objects.specs.declared.found.Found.TheVariants.{Method};
ghost use Rattle.abc_objects.specs.declared.name.Spaces.TheVariants.{One};

use crate::declared_search::only_of;
use crate::numbers::whole_number;
use crate::tables::{member_at, own_table};
use abc_heap_values::ObjId;
use abc_link::Linked;
use abc_link_names::{LayoutId, Part, qname_at};
use abc_objects::{Arena, Found, Member, Name, Spaces};

/// Whether a name has just one namespace, that of an index.
fn has_just(spaces: Spaces, space: u32) -> bool
    ensures { result ≡ true → spaces ≡ One space }
{
    match spaces {
        Spaces::One(one) => one == space,
        _ => false,
    }
}

/// The member at a place of a layout's table, where a name has just its namespace.
#[inline(always)]
fn member_here(l: &Linked, x: LayoutId, name: &Name, place: u32) -> Option<Member>
    requires layout { IsLayout l.now x }
    requires place { place < length (own_table_of l.now x.0) }
    ensures { MatchOption result (Unit {0}) (GivesMember l.now name.now x.0 (own_at l.now x.0 place)) }
{
    let info = &own_table(l, x)[place as usize];
    let space = qname_at(l.abc(), info.name).ns;
    if !has_just(name.spaces, space) {
        return None;
    }
    member_at(l, x, place, info.body)
}

/// The member at the only one of some places of a layout's table.
#[inline(always)]
fn only_member(l: &Linked, a: &Arena, x: LayoutId, name: &Name, places: &[u32]) -> Option<Member>
    requires layout { IsLayout l.now x }
    requires places { Some places.now ≡ own_traits l.now x.0 (text_of_span l.now a.now name.now.text) }
    ensures { MatchOption result (Unit {0})
        (GivesMember l.now name.now x.0 (own_named l.now a.now x.0 name.now)) }
{
    let _ = a;
    match only_of(places) {
        Some(place) => member_here(l, x, name, place),
        None => None,
    }
}

/// The own member of a layout that has the text of a number alone.
#[inline(always)]
fn numbered_member(l: &Linked, a: &Arena, x: LayoutId, name: &Name, number: u32) -> Option<Member>
    requires layout { IsLayout l.now x }
    requires number { first (bytes_eq (text_of_span l.now a.now name.now.text)) (texts_of l.now.file.strings)
        ≡ Some number }
    ensures { MatchOption result (Unit {0})
        (GivesMember l.now name.now x.0 (own_named l.now a.now x.0 name.now)) }
{
    match l.own_numbered(x, Some(number)) {
        Some(places) => only_member(l, a, x, name, places.as_slice()),
        None => None,
    }
}

/// The own member of a layout that has the text of a name alone, and just its namespace.
#[inline(always)]
fn own_member(l: &Linked, a: &Arena, x: LayoutId, name: &Name) -> Option<Member>
    requires { IsLayout l.now x }
    ensures { MatchOption result (Unit {0})
        (GivesMember l.now name.now x.0 (own_named l.now a.now x.0 name.now)) }
{
    match whole_number(l, name.text) {
        Some(number) => numbered_member(l, a, x, name, number),
        None => None,
    }
}

/// What an own member of an object's layout is found as: a slot or a method, which no search passes over.
#[inline(always)]
fn first_as(l: &Linked, a: &Arena, o: ObjId, x: LayoutId, name: &Name, member: Member) -> Found
    requires part { HasTable (part_at l.now.parts x.0) }
    requires layout { x.0 ≡ layout_at a.now o.0 }
    requires member { GivesMember l.now name.now x.0 (own_named l.now a.now x.0 name.now) member }
    ensures { IsFoundFirst l.now a.now o name.now result }
{
    l.linked_law();
    let _ = a;
    let _ = o;
    let _ = x;
    let _ = name;
    match member {
        Member::Slot { slot, constant } => Found::Slot { slot, constant },
        Member::Method(method) => Found::Method {
            class: l.owner(method),
            method,
        },
        Member::Getter(_) => Found::Missing,
        Member::Setter(_) => Found::Missing,
    }
}

/// Whether all traits of a layout of a part stand in its table: those of scripts and of classes' instances, of which there are
/// most.
fn has_table(part: Part) -> bool
    ensures { result ≡ true → HasTable part }
{
    match part {
        Part::Global(_) => true,
        Part::Instance(_) => true,
        _ => false,
    }
}

/// What a name finds at once among the own traits of an object's layout. It answers `Missing` where it has to be searched for.
#[inline(always)]
pub(crate) fn first_of_traits(l: &Linked, a: &Arena, o: ObjId, name: &Name) -> Found
    requires over { StandsOver l.now a.now }
    requires holder { IsObject a.now o }
    requires name { IsText l.now.file.strings a.now name.now.text }
    ensures { IsFoundFirst l.now a.now o name.now result }
{
    let x = a.layout(o);
    if !has_table(l.part_of(x)) {
        return Found::Missing;
    }
    match own_member(l, a, x, name) {
        Some(member) => first_as(l, a, o, x, name, member),
        None => Found::Missing,
    }
}

/// The method that a name finds at once among the own traits of an object's layout, if one is found so.
#[inline(always)]
pub fn first_method(l: &Linked, a: &Arena, o: ObjId, name: &Name) -> Option<u32>
    requires over { StandsOver l.now a.now }
    requires holder { IsObject a.now o }
    requires name { IsText l.now.file.strings a.now name.now.text }
    ensures { MatchOption result (Unit {0})
        (λ m. (owner : Owner) × IsFoundFirst l.now a.now o name.now (Method owner m)) }
{
    let found = first_of_traits(l, a, o, name);
    match found {
        Found::Method { method, .. } => Some(method),
        _ => None,
    }
}
