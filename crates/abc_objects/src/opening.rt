ghost use Rattle.std.specs.Prelude.{◌≡◌, ◌<◌, ◌≤◌, ◌+◌, ◌^◌, ◌++◌, ◌∷◌, [], length, map, IfOk, MatchResult, Some};
ghost use Rattle.std.specs.List.{concat};
ghost use Rattle.std.specs.Option.{option_map};
ghost use Rattle.abc_heap_store.specs.Changes.{with_object};
ghost use Rattle.abc_heap_store.specs.Heap.{HasRoomFor};
ghost use Rattle.abc_link_names.specs.Linked.{layout_of};
ghost use Rattle.abc_link_names.specs.Parts.{HasLayout};
ghost use Rattle.abc_link_names.specs.Slots.{slots_of};
ghost use Rattle.abc_objects.specs.Opening.{IsHeapOpened, IsUnopened, IsOpeningWithin, above_host as above, host_class_object, entry_of, formula_names as names_of, formula_objects, function_object, function_objects, global_object, global_slots, host_object, host_properties, opening_object, opening, opening_counts, opening_objects, opening_scopes, property_names as names_with, prototype_id, prototype_object, slot_count, spans_from, with_globals, with_more_properties, with_objects};
ghost use Rattle.abc_objects.specs.Starts.{StartsExist};

use crate::counts::test_room;
use crate::error::OpenError;
use crate::hosts::class_number;
use crate::starts::starts_of;
use crate::texts::{formula_names, part_zero, property_names};
use abc_base::{Bytes, HOST_CLASSES, Host, HostClass, NoMemory, Table};
use abc_heap_store::{Limits, ScopeEntry, Store, What};
use abc_heap_values::{ObjId, Span, Value};
use abc_link::Linked;
use abc_link_names::Part;
use std::alloc::Global;

/// The class whose prototype is the delegate of a class's prototype.
fn above_host(class: HostClass) -> Option<HostClass>
    ensures { result ≡ above class }
{
    match class {
        HostClass::Object => None,
        HostClass::TypeError | HostClass::ReferenceError | HostClass::ArgumentError => {
            Some(HostClass::Error)
        }
        _ => Some(HostClass::Object),
    }
}

/// The prototype of a class of the host.
fn prototype_of(class: Option<HostClass>) -> Option<ObjId>
    ensures { result ≡ option_map prototype_id class }
{
    match class {
        Some(class) => Some(ObjId(class_number(class))),
        None => None,
    }
}

/// Makes the object of a part, last. Its delegate is the prototype of a class of the host.
fn make_part(
    store: &mut Store,
    l: &Linked,
    part: Part,
    parent: Option<HostClass>,
    what: What,
) -> ObjId
    requires starts { StartsExist l.now }
    requires part { HasLayout l.now.file part }
    requires room { HasRoomFor store.old 1 (length (slots_of l.now (layout_of l.now part).0)) }
    ensures number { result.0 ≡ length store.old.objects }
    ensures heap { store.new ≡ with_objects (opening_object l.now part parent what ∷ []) store.old }
{
    l.linked_law();
    let layout = l.layout_of(part);
    let starts = starts_of(l, layout);
    store.make_object(layout.0, prototype_of(parent), what, &starts)
}

/// Makes the prototype of a class of the host.
fn make_prototype(store: &mut Store, l: &Linked, class: HostClass)
    requires starts { StartsExist l.now }
    requires room { HasRoomFor store.old 1 0 }
    ensures { store.new ≡ with_objects (prototype_object l.now class ∷ []) store.old }
{
    l.linked_law();
    let parent = above_host(class);
    make_part(store, l, Part::Host(HostClass::Object), parent, What::Plain);
}

/// Makes the prototypes of some classes of the host.
fn make_prototypes(store: &mut Store, l: &Linked, classes: &[HostClass])
    requires starts { StartsExist l.now }
    requires room { HasRoomFor store.old (length classes.now) 0 }
    ensures { store.new ≡ with_objects (map (prototype_object l.now) classes.now) store.old }
{
    l.linked_law();
    for class in classes {
        make_prototype(store, l, *class);
    }
}

/// Makes the class object of a class of the host. Its first slot holds the prototype.
fn make_class_object(store: &mut Store, l: &Linked, class: HostClass)
    requires starts { StartsExist l.now }
    requires room { HasRoomFor store.old 1 1 }
    ensures { store.new ≡ with_objects (host_class_object l.now class ∷ []) store.old }
{
    l.linked_law();
    let o = make_part(
        store,
        l,
        Part::HostClassObject(class),
        Some(HostClass::Class),
        What::HostClass(class),
    );
    store.set_slot(o, 0, Value::Obj(ObjId(class_number(class))));
}

/// Makes the class objects of some classes of the host.
fn make_class_objects(store: &mut Store, l: &Linked, classes: &[HostClass])
    requires starts { StartsExist l.now }
    requires room { HasRoomFor store.old (length classes.now) (length classes.now) }
    ensures { store.new ≡ with_objects (map (host_class_object l.now) classes.now) store.old }
{
    l.linked_law();
    for class in classes {
        make_class_object(store, l, *class);
    }
}

/// Makes `trace` or a formula.
fn make_function(store: &mut Store, l: &Linked, what: What)
    requires starts { StartsExist l.now }
    requires room { HasRoomFor store.old 1 0 }
    ensures { store.new ≡ with_objects (function_object l.now what ∷ []) store.old }
{
    l.linked_law();
    let parent = Some(HostClass::Function);
    make_part(store, l, Part::Host(HostClass::Function), parent, what);
}

/// Makes the formulas.
fn make_formulas(store: &mut Store, l: &Linked, formulas: u32)
    requires starts { StartsExist l.now }
    requires room { HasRoomFor store.old formulas 0 }
    ensures { store.new ≡ with_objects (formula_objects l.now formulas) store.old }
{
    l.linked_law();
    for formula in 0..formulas {
        make_function(store, l, What::Formula(formula));
    }
}

/// Makes `trace` and the formulas.
fn make_functions(store: &mut Store, l: &Linked, formulas: u32)
    requires starts { StartsExist l.now }
    requires room { HasRoomFor store.old (formulas + 1) 0 }
    ensures { store.new ≡ with_objects (function_objects l.now formulas) store.old }
{
    l.linked_law();
    make_function(store, l, What::Trace);
    make_formulas(store, l, formulas);
}

/// Adds properties of some names, which stand in part 0 behind the fixed texts. They hold objects 14, 15, ..
fn add_properties(store: &mut Store, o: ObjId, names: &[Bytes])
    requires inside { o.0 < length store.old.objects }
    requires room { HasRoomFor store.old 0 (length names.now) }
    requires short { 62 + length (concat names.now) < 2 ^ 32 }
    requires few { 14 + length names.now < 2 ^ 32 }
    requires bytes { 62 + length (concat names.now) ≤ length store.old.fixed }
    ensures { store.new
        ≡ with_object (with_more_properties (host_properties 14 (spans_from 62 names.now))) o.0 store.old }
{
    let mut start = 62;
    let mut object = 14;
    for name in names {
        let size = name.len();
        let len = size as u32;
        let span = Span {
            part: 0,
            start,
            len,
        };
        store.add_property(o, span, Value::Obj(ObjId(object)));
        start += len;
        object += 1;
    }
}

/// Makes the host object, with properties of some names.
fn make_host_object(store: &mut Store, l: &Linked, names: &[Bytes])
    requires starts { StartsExist l.now }
    requires room { HasRoomFor store.old 1 (length names.now) }
    requires short { 62 + length (concat names.now) < 2 ^ 32 }
    requires few { 14 + length names.now < 2 ^ 32 }
    requires bytes { 62 + length (concat names.now) ≤ length store.old.fixed }
    ensures { store.new ≡ with_objects (host_object l.now names.now ∷ []) store.old }
{
    l.linked_law();
    let o = make_part(
        store,
        l,
        Part::Host(HostClass::Object),
        Some(HostClass::Object),
        What::HostObject,
    );
    add_properties(store, o, names);
}

/// Makes the global object of a script, and its scope entry.
fn make_global(store: &mut Store, l: &Linked, script: u32)
    requires starts { StartsExist l.now }
    requires script { script < length l.now.file.scripts }
    requires room { HasRoomFor store.old 1 (slot_count l.now script + 1) }
    ensures { store.new
        ≡ record store.old {
          objects = store.old.objects ++ global_object l.now script ∷ [];
          scopes = store.old.scopes ++ entry_of (length store.old.objects) ∷ [];
        } }
{
    let object = make_part(
        store,
        l,
        Part::Global(script),
        Some(HostClass::Object),
        What::Global(script),
    );
    let entry = ScopeEntry {
        object,
        with_flag: false,
    };
    store.keep_scopes(None, &[entry]);
}

/// Makes the global objects of all scripts, and their scope entries.
fn make_globals(store: &mut Store, l: &Linked, scripts: u32)
    requires starts { StartsExist l.now }
    requires scripts { scripts ≡ length l.now.file.scripts }
    requires room { HasRoomFor store.old scripts (scripts + global_slots l.now) }
    ensures { store.new ≡ with_globals l.now scripts store.old }
{
    for script in 0..scripts {
        make_global(store, l, script);
    }
}

/// Makes what every run begins with.
fn make_opening(store: &mut Store, l: &Linked, names: &[Bytes], formulas: u32, scripts: u32)
    requires starts { StartsExist l.now }
    requires objects { store.old.objects ≡ [] }
    requires scopes { store.old.scopes ≡ [] }
    requires formulas { formulas ≡ length store.old.formulas }
    requires scripts { scripts ≡ length l.now.file.scripts }
    requires few { formulas ≤ 64 }
    requires names { names.now ≡ names_with store.old.formulas }
    requires short { 62 + length (concat names.now) < 2 ^ 32 }
    requires bytes { 62 + length (concat names.now) ≤ length store.old.fixed }
    requires room { IsOpeningWithin (opening_counts l.now formulas) store.old.limits }
    ensures { store.new
        ≡ record store.old
        { objects = opening_objects l.now store.old.formulas; scopes = opening_scopes l.now formulas } }
{
    l.linked_law();
    let classes = HOST_CLASSES.as_slice();
    make_prototypes(store, l, classes);
    make_class_objects(store, l, classes);
    make_functions(store, l, formulas);
    make_host_object(store, l, names);
    make_globals(store, l, scripts);
}

/// A heap with what every run begins with, for which there is room.
fn opened_store(
    alloc: Global,
    l: &Linked,
    limits: Limits,
    formulas: Table<Bytes>,
    count: u32,
) -> Result<Store, NoMemory>
    requires starts { StartsExist l.now }
    requires count { count ≡ length formulas }
    requires few { count ≤ 64 }
    requires short { 62 + length (concat (names_with formulas)) < 2 ^ 32 }
    requires room { IsOpeningWithin (opening_counts l.now count) limits }
    ensures { IfOk result (λ h. h ≡ opening l.now formulas limits) }
{
    l.linked_law();
    let names = property_names(alloc, &formulas)?;
    let fixed = part_zero(alloc, names.as_slice())?;
    let classes = l.abc().instances.len() as u32;
    let scripts = l.abc().scripts.len() as u32;
    let pool = &l.abc().strings;
    let mut store = Store::empty(alloc, limits, fixed, formulas, pool, classes)?;
    make_opening(&mut store, l, names.as_slice(), count, scripts);
    Ok(store)
}

/// Opens a heap with what every run begins with.
pub(crate) fn open_store<H: Host>(
    alloc: Global,
    l: &Linked,
    limits: &Limits,
    host: &H,
) -> Result<Store, OpenError>
    requires { StartsExist l.now }
    ensures { MatchResult result (IsHeapOpened l.now (names_of (H.formulas host.now)) limits.now)
        (IsUnopened (opening_counts l.now (length (H.formulas host.now))) limits.now) }
{
    let count = host.count();
    test_room(l, limits, count)?;
    let formulas = formula_names(alloc, host)?;
    let store = opened_store(alloc, l, *limits, formulas, count)?;
    Ok(store)
}
