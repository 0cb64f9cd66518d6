ghost use Rattle.std.specs.Prelude.{◌≡◌, false, get_or};
ghost use Rattle.abc_lookup.specs.Steps.{IsScriptPlace, place_if_any};
ghost use Rattle.abc_heap_store.specs.Texts.{IsText};
ghost use Rattle.abc_objects.specs.Stands.{AreEntries, IsScope, StandsOver};
ghost use Rattle.abc_heap_values.specs.declared.values.Value.TheVariants.{Obj};
ghost use Rattle.abc_objects.specs.Values.{Exists, IsObject};
ghost use Rattle.abc_link_names.specs.Linked.{IsLayout};
ghost use Rattle.abc_objects.specs.Scopes.{scope_named};
ghost use Rattle.abc_objects.specs.Searches.{declared_found, found_in_scopes, found_on};

use crate::at_once::first_of_traits;
use crate::name_spaces::holds_public;
use crate::numbers::number_of;
use crate::place::Place;
use crate::plain::{find_first, has_no_traits};
use crate::query::Query;
use abc_base::Table;
use abc_heap_store::{ScopeEntry, ScopeId};
use abc_heap_values::{ObjId, Value};
use abc_link::Linked;
use abc_link_names::LayoutId;
use abc_objects::{Arena, Found, Name, ScopeFound, Skip, Want};

/// The same as `find_declared`, where the layout or one above it may have traits.
#[inline(never)]
fn find_among_traits(
    l: &Linked,
    a: &Arena,
    object: LayoutId,
    from: LayoutId,
    name: &Name,
    want: Want,
) -> Found
    requires object { IsLayout l.now object }
    requires from { IsLayout l.now from }
    requires name { IsText l.now.file.strings a.now name.now.text }
    ensures { result ≡ declared_found l.now a.now object.0 from.0 name.now want }
{
    let text = a.text_bytes(l, name.text);
    let query = Query {
        l,
        a,
        name: *name,
        skip: want.skip(),
        text,
        number: number_of(l, a, name.text, text),
        public: holds_public(l, name.spaces),
    };
    query.find_declared(object, from)
}

/// The search for a name among the declared traits of the layout `from` and of its bases, derived before base and in the
/// order of the file, for an object of the layout `object`, which is `from` or stands under it. It answers `WrongSide`
/// where nothing fits but traits that were passed over, and else `Missing` where nothing fits.
#[inline(always)]
pub fn find_declared(
    l: &Linked,
    a: &Arena,
    object: LayoutId,
    from: LayoutId,
    name: &Name,
    want: Want,
) -> Found
    requires object { IsLayout l.now object }
    requires from { IsLayout l.now from }
    requires name { IsText l.now.file.strings a.now name.now.text }
    ensures { result ≡ declared_found l.now a.now object.0 from.0 name.now want }
{
    if has_no_traits(l, from) {
        return Found::Missing;
    }
    find_among_traits(l, a, object, from, name, want)
}

/// The same as `find_on`, on any value.
#[inline(never)]
fn find_on_any(l: &Linked, a: &Arena, holder: Value, name: &Name, want: Want) -> Found
    requires over { StandsOver l.now a.now }
    requires holder { Exists l.now a.now holder }
    requires name { IsText l.now.file.strings a.now name.now.text }
    ensures { result ≡ found_on l.now a.now holder name.now want }
{
    let text = a.text_bytes(l, name.text);
    let query = Query {
        l,
        a,
        name: *name,
        skip: want.skip(),
        text,
        number: number_of(l, a, name.text, text),
        public: holds_public(l, name.spaces),
    };
    query.find_on(holder)
}

/// The same as `find_on`, on an object of whose own nothing is found at once: most often a trait of its layout is.
#[inline(never)]
fn find_by_traits(l: &Linked, a: &Arena, o: ObjId, name: &Name, want: Want) -> Found
    requires over { StandsOver l.now a.now }
    requires holder { IsObject a.now o }
    requires name { IsText l.now.file.strings a.now name.now.text }
    ensures { result ≡ found_on l.now a.now (Obj o) name.now want }
{
    let first = first_of_traits(l, a, o, name);
    if first.is_hit() {
        return first;
    }
    find_on_any(l, a, Value::Obj(o), name, want)
}

/// The same as `find_on`, on an object.
#[inline(always)]
fn find_on_object(l: &Linked, a: &Arena, o: ObjId, name: &Name, want: Want) -> Found
    requires over { StandsOver l.now a.now }
    requires holder { IsObject a.now o }
    requires name { IsText l.now.file.strings a.now name.now.text }
    ensures { result ≡ found_on l.now a.now (Obj o) name.now want }
{
    let first = find_first(l, a, o, name);
    if first.is_hit() {
        return first;
    }
    find_by_traits(l, a, o, name, want)
}

/// The search for a name on a value that is not null or undefined: among the declared traits, and then, where the name
/// holds the public namespace or any, among the elements and dynamic properties of the object and of its delegates in
/// turn. It answers `WrongSide` where nothing fits but traits that were passed over, and else `Missing` where nothing
/// fits.
#[inline(always)]
pub fn find_on(l: &Linked, a: &Arena, holder: Value, name: &Name, want: Want) -> Found
    requires over { StandsOver l.now a.now }
    requires holder { Exists l.now a.now holder }
    requires name { IsText l.now.file.strings a.now name.now.text }
    ensures { result ≡ found_on l.now a.now holder name.now want }
{
    match holder {
        Value::Obj(o) => find_on_object(l, a, o, name, want),
        _ => find_on_any(l, a, holder, name, want),
    }
}

/// Whether a script is told as started.
#[tactic(auto, using(abc_base::proofs::Past::past_end))]
fn is_started(started: &Table<bool>, script: u32) -> bool
    ensures { result ≡ get_or started.now script false }
{
    match started.fetch(script as usize) {
        Some(is_started) => is_started,
        None => false,
    }
}

/// What is found where a place has the name.
fn place_found(l: &Linked, a: &Arena, started: &Table<bool>, place: Option<Place>) -> ScopeFound
    requires over { StandsOver l.now a.now }
    requires place { IsScriptPlace l.now place }
    ensures { result ≡ scope_named a.now started.now (place_if_any place) }
{
    let _file = l;
    match place {
        Some(Place::InScope(entry)) => ScopeFound::Object(entry.object),
        Some(Place::InScript(script)) => {
            if is_started(started, script) {
                ScopeFound::Object(a.global(script))
            } else {
                ScopeFound::Start(script)
            }
        }
        Some(Place::InHost) => ScopeFound::Object(a.host_object()),
        None => ScopeFound::Missing,
    }
}

/// The search for a name in local scopes from the top down, in saved scopes down, on the global objects of the scripts in
/// order, and on the host object. It answers `Start` where a script has the name that `started` does not tell as started,
/// and `Missing` where no place has the name.
pub fn find_in_scopes(
    l: &Linked,
    a: &Arena,
    scopes: &[ScopeEntry],
    saved: Option<ScopeId>,
    started: &Table<bool>,
    name: &Name,
) -> ScopeFound
    requires over { StandsOver l.now a.now }
    requires scopes { AreEntries a.now scopes.now }
    requires saved { IsScope a.now saved }
    requires name { IsText l.now.file.strings a.now name.now.text }
    ensures { result ≡ found_in_scopes l.now a.now scopes.now saved started.now name.now }
{
    let text = a.text_bytes(l, name.text);
    let query = Query {
        l,
        a,
        name: *name,
        skip: Skip::Nothing,
        text,
        number: number_of(l, a, name.text, text),
        public: holds_public(l, name.spaces),
    };
    place_found(l, a, started, query.find_place(scopes, saved))
}
