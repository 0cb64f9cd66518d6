//! What names find, as tables over a small file: each rule of the search, beside a case that differs where it is left out.
ghost use Rattle.std.specs.Prelude.{IfOk};
ghost use Rattle.abc_objects.specs.Stands.{IsScope, StandsOver};

use crate::opened::{exists, is_method, is_object, is_script, is_text, linked, make, opened, put};
use crate::searches::Scope::{Plain, With};
use abc_base::{HostClass, NoMemory, Table, release};
use abc_heap_store::{Full, Limit, Limits, ScopeEntry, ScopeId, What};
use abc_heap_values::{ObjId, Span, Value};
use abc_link::Linked;
use abc_link_names::{Owner, Part};
use abc_lookup::{find_declared, find_in_scopes, find_on};
use abc_objects::ScopeFound::{Missing, Object, Start};
use abc_objects::{Arena, Found, Name, ScopeFound, Spaces, Want};
use std::alloc::Global;
use std::test::*;

/// Namespaces: 1 public, 2, 3 and 4 the protected ones of the classes A, B and C, 5 of kind 08, 6 of kind 16 and 7 of kind 17
/// all of the name `n`, 8 and 9 private ones of it, 10 of kind 08 without a name. Sets: 1 has 1 and 5, 2 has 7 and 9, 3 has 4
/// and 3.
///
/// Class 0, A, has the slots `x`, `t`, `w` in the protected namespace of C, `v` in 8 and `q` in 5, the constant `c`, the method
/// `p` in its protected namespace, the getter `g`, the setter `s`, and the methods `f` in 5 and then the public `f`; its class
/// object has the slot `k`. Class 1, B, extends A, and has the slots `x` and, in its protected namespace, `y`, and the setter
/// `t`. Class 2, C, has nothing. The methods are numbered in the order of this text.
///
/// Script 0 has the slot `m`, script 1 `m` and `k`, script 2 `trace`. Body 0 has an activation with the slot `x`, and an
/// exception that is caught as `e`.
const FILE: [u8; 507] = [
    0x10, 0, 0x2e, 0, 0, 0, 0, 0x1d, 1, 0x78, 1, 0x79, 1, 0x41, 1, 0x42, 1, 0x43, 1, 0x6e, 1, 0x70,
    1, 0x71, 1, 0x76, 1, 0x67, 1, 0x73, 1, 0x74, 1, 0x66, 1, 0x63, 1, 0x6d, 1, 0x6b, 5, 0x74, 0x72,
    0x61, 0x63, 0x65, 1, 0x64, 6, 0x6c, 0x65, 0x6e, 0x67, 0x74, 0x68, 1, 0x30, 1, 0x31, 2, 0x30,
    0x31, 1, 0x32, 9, 0x70, 0x72, 0x6f, 0x74, 0x6f, 0x74, 0x79, 0x70, 0x65, 5, 0x74, 0x77, 0x69,
    0x63, 0x65, 1, 0x65, 1, 0x77, 1, 0x7a, 11, 0x16, 0, 0x18, 3, 0x18, 4, 0x18, 5, 8, 6, 0x16, 6,
    0x17, 6, 5, 6, 5, 6, 8, 0, 4, 2, 1, 5, 2, 7, 9, 2, 4, 3, 0x14, 7, 2, 7, 7, 1, 10, 7, 1, 11, 7,
    5, 13, 7, 1, 13, 7, 1, 12, 7, 1, 1, 7, 1, 14, 7, 4, 0x1b, 7, 8, 9, 7, 5, 8, 7, 3, 2, 7, 1,
    0x10, 7, 1, 3, 7, 1, 4, 7, 1, 5, 7, 1, 15, 7, 1, 0x11, 7, 1, 0x1a, 15, 0, 0, 0, 2, 0, 0, 0, 0,
    0, 0, 0, 0, 0, 0, 0, 0, 0, 0, 0, 0, 0, 0, 0, 0, 0, 0, 0, 0, 0, 0, 0, 0, 0, 0, 0, 0, 0, 0, 0, 0,
    0, 0, 0, 0, 0, 0, 0, 0, 0, 0, 0, 0, 0, 0, 0, 0, 0, 0, 0, 0, 0, 3, 14, 0, 8, 2, 0, 6, 11, 7, 0,
    0, 0, 0, 8, 6, 0, 0, 0, 6, 0, 0, 0, 0, 9, 0, 0, 0, 0, 10, 0, 0, 0, 0, 11, 0, 0, 0, 0, 1, 1, 0,
    0, 2, 2, 0, 1, 3, 3, 0, 2, 4, 1, 0, 3, 5, 1, 0, 4, 15, 14, 8, 3, 0, 8, 3, 7, 0, 0, 0, 0, 6, 3,
    0, 5, 12, 0, 0, 0, 0, 0x10, 0, 8, 4, 0, 10, 0, 7, 1, 13, 0, 0, 0, 0, 9, 0, 11, 0, 3, 12, 1,
    0x11, 0, 0, 0, 0, 13, 2, 0x11, 0, 0, 0, 0, 13, 0, 0, 0, 0, 14, 1, 0x12, 0, 0, 0, 0, 15, 0, 1,
    1, 0, 1, 1, 0x47, 1, 0, 0, 0, 0, 0x13, 1, 7, 0, 0, 0, 0, 1, 1, 1, 0, 1, 1, 0x47, 0, 0, 2, 1, 1,
    0, 1, 1, 0x47, 0, 0, 3, 1, 1, 0, 1, 1, 0x47, 0, 0, 4, 1, 1, 0, 1, 1, 0x47, 0, 0, 5, 1, 1, 0, 1,
    1, 0x47, 0, 0, 6, 1, 1, 0, 1, 1, 0x47, 0, 0, 7, 1, 1, 0, 1, 1, 0x47, 0, 0, 8, 1, 1, 0, 1, 1,
    0x47, 0, 0, 9, 1, 1, 0, 1, 1, 0x47, 0, 0, 10, 1, 1, 0, 1, 1, 0x47, 0, 0, 11, 1, 1, 0, 1, 1,
    0x47, 0, 0, 12, 1, 1, 0, 1, 1, 0x47, 0, 0, 13, 1, 1, 0, 1, 1, 0x47, 0, 0, 14, 1, 1, 0, 1, 1,
    0x47, 0, 0,
];

/// The text `true`, which is always there.
const TRUE: Value = Value::Text(Span {
    part: 0,
    start: 13,
    len: 4,
});

const LIMITS: Limits = Limits {
    objects: 50,
    cells: 100,
    text: 0,
    frames: 0,
    stack: 0,
};

/// The host object, and the global objects of scripts.
const HOST: ObjId = ObjId(31);

const FIRST: ObjId = ObjId(32);

const GLOBAL: ObjId = ObjId(33);

/// An array of two elements.
const ARRAY: ObjId = ObjId(35);

/// Instances of A, B and C.
const BASE: ObjId = ObjId(36);

const DERIVED: ObjId = ObjId(37);

const OTHER: ObjId = ObjId(38);

/// A plain object whose delegate is the array, and one whose delegate is that.
const HEIR: ObjId = ObjId(39);

const NEXT_HEIR: ObjId = ObjId(40);

/// Of the layouts of the class object of A, of the exception, and of the activation.
const CLASS_OBJECT: ObjId = ObjId(41);

const CAUGHT: ObjId = ObjId(42);

const ACTIVATION: ObjId = ObjId(43);

/// A function that keeps the scopes DERIVED, with the flag, and above it BASE, above the global object of script 0.
const FUNCTION: ObjId = ObjId(44);

fn make_objects(l: &Linked, a: &mut Arena) -> Result<(), Full>
    requires { StandsOver l.now a.old }
    ensures { StandsOver l.now a.new }
{
    a.new_undefined(l, 2)?;
    for (part, delegate) in [
        (Part::Instance(0), None),
        (Part::Instance(1), None),
        (Part::Instance(2), None),
        (Part::Host(HostClass::Object), Some(ARRAY)),
        (Part::Host(HostClass::Object), Some(HEIR)),
        (Part::ClassObject(0), None),
        (Part::Catch(0, 0), None),
        (Part::Activation(0), None),
    ] {
        make(l, a, part, delegate)?;
    }
    make_function(l, a)
}

/// A scope, without or with the flag.
#[derive(Clone, Copy)]
enum Scope {
    Plain(ObjId),
    With(ObjId),
}

fn entry(scope: Scope) -> ScopeEntry {
    match scope {
        Scope::Plain(object) => ScopeEntry {
            object,
            with_flag: false,
        },
        Scope::With(object) => ScopeEntry {
            object,
            with_flag: true,
        },
    }
}

/// Makes the function: scopes that the global object of script 0 stands under.
fn make_function(l: &Linked, a: &mut Arena) -> Result<(), Full>
    requires { StandsOver l.now a.old }
    ensures { StandsOver l.now a.new }
{
    let (lower, upper) = (entry(With(DERIVED)), entry(Plain(BASE)));
    let under = a.global_scope(0);
    if !is_script(l, 0) || !is_method(l, 0) {
        return Err(Full(Limit::Stack));
    }
    if !is_object(a, lower.object) || !is_object(a, upper.object) {
        return Err(Full(Limit::Stack));
    }
    a.new_function(l, 0, 0, None, Some(under), &[lower, upper])?;
    Ok(())
}

/// The span of a string of the pool; of another text none that lies in a part.
fn span_of(l: &Linked, text: &str) -> Span {
    let strings = l.abc().strings.as_slice();
    let place = strings
        .iter()
        .position(|s| s.as_slice() == text.as_bytes())
        .unwrap_or(strings.len());
    Span {
        part: u32::try_from(place).unwrap_or(0).saturating_add(3),
        start: 0,
        len: u32::try_from(text.len()).unwrap_or(0),
    }
}

fn make_properties(l: &Linked, a: &mut Arena) -> Result<(), Full>
    requires { StandsOver l.now a.old }
    ensures { StandsOver l.now a.new }
{
    for (o, text, n) in [
        // prototypes of Object, Namespace, String, int, Number and Boolean
        (ObjId(0), "z", 0),
        (ObjId(3), "z", 3),
        (ObjId(4), "z", 4),
        (ObjId(5), "z", 5),
        (ObjId(7), "z", 7),
        (ObjId(8), "z", 8),
        (GLOBAL, "d", 33),
        (ARRAY, "0", 35),
        (ARRAY, "2", 35),
        (ARRAY, "d", 35),
        (BASE, "s", 36),
        (DERIVED, "x", 37),
        (DERIVED, "d", 37),
        (HEIR, "1", 39),
        (HEIR, "d", 39),
    ] {
        put(l, a, o, span_of(l, text), Value::Num(n))?;
    }
    Ok(())
}

/// Makes these objects and properties.
fn fill(l: &Linked, a: &mut Arena) -> Result<(), Full>
    requires { StandsOver l.now a.old }
    ensures { StandsOver l.now a.new }
{
    make_objects(l, a)?;
    make_properties(l, a)
}

/// The file's arena with these objects and properties.
fn filled(alloc: Global, l: &Linked) -> Result<Arena, Fail>
    ensures { IfOk result (StandsOver l.now) }
{
    let mut a = opened(alloc, l, &LIMITS)?;
    match fill(l, &mut a) {
        Ok(()) => Ok(a),
        Err(full) => {
            release(a);
            Err(Fail::from(full))
        }
    }
}

/// What a name is to find.
#[derive(Clone, Copy)]
enum Wanted {
    Slot(u32),
    Constant(u32),
    /// A method of A.
    Method(u32),
    Getter(u32),
    Setter(u32),
    Property(ObjId, i64),
    Element(ObjId, u32),
    Length(ObjId),
    WrongSide,
    Missing,
}

fn as_found(wanted: Wanted) -> Found {
    match wanted {
        Wanted::Slot(slot) => Found::Slot {
            slot,
            constant: false,
        },
        Wanted::Constant(slot) => Found::Slot {
            slot,
            constant: true,
        },
        Wanted::Method(method) => Found::Method {
            class: Owner::Instance(0),
            method,
        },
        Wanted::Getter(method) => Found::Getter(method),
        Wanted::Setter(method) => Found::Setter(method),
        Wanted::Property(holder, n) => Found::Property {
            holder,
            value: Value::Num(n),
        },
        Wanted::Element(holder, index) => Found::Element { holder, index },
        Wanted::Length(holder) => Found::Length(holder),
        Wanted::WrongSide => Found::WrongSide,
        Wanted::Missing => Found::Missing,
    }
}

/// What a name finds on a value, where both are there.
fn find(
    l: &Linked,
    a: &Arena,
    holder: Value,
    spaces: Spaces,
    text: &str,
    want: Want,
) -> Option<Found>
    requires { StandsOver l.now a.now }
{
    let name = Name {
        spaces,
        text: span_of(l, text),
    };
    if !exists(l, a, holder) || !is_text(l, a, name.text) {
        return None;
    }
    Some(find_on(l, a, holder, &name, want))
}

/// Names on objects, and what they find.
const ON_OBJECTS: [(ObjId, Spaces, &str, Want, Wanted); 56] = [
    // declared traits first, derived before base
    (DERIVED, Spaces::Public, "x", Want::Read, Wanted::Slot(6)),
    (BASE, Spaces::Public, "x", Want::Read, Wanted::Slot(0)),
    (OTHER, Spaces::Public, "x", Want::Read, Wanted::Missing),
    // then in file order, whatever the order of the name's set
    (BASE, Spaces::Set(1), "f", Want::Read, Wanted::Method(3)),
    (BASE, Spaces::Public, "f", Want::Read, Wanted::Method(4)),
    (BASE, Spaces::Public, "c", Want::Read, Wanted::Constant(1)),
    // the namespace is equal: kinds 08 and 16 are one, private ones are equal at the same index alone
    (BASE, Spaces::One(5), "q", Want::Read, Wanted::Slot(5)),
    (BASE, Spaces::One(6), "q", Want::Read, Wanted::Slot(5)),
    (BASE, Spaces::One(7), "q", Want::Read, Wanted::Missing),
    (BASE, Spaces::Public, "q", Want::Read, Wanted::Missing),
    (BASE, Spaces::One(8), "v", Want::Read, Wanted::Slot(4)),
    (BASE, Spaces::One(9), "v", Want::Read, Wanted::Missing),
    (BASE, Spaces::One(10), "x", Want::Read, Wanted::Slot(0)),
    // one of the name's, or any
    (BASE, Spaces::Set(1), "q", Want::Read, Wanted::Slot(5)),
    (BASE, Spaces::Set(2), "q", Want::Read, Wanted::Missing),
    (BASE, Spaces::Any, "v", Want::Read, Wanted::Slot(4)),
    // protected: that of a class on the way from the object's class up to the trait's, for a trait in that of its own class
    (DERIVED, Spaces::One(2), "p", Want::Read, Wanted::Method(0)),
    (DERIVED, Spaces::One(3), "p", Want::Read, Wanted::Method(0)),
    (DERIVED, Spaces::Set(3), "p", Want::Read, Wanted::Method(0)),
    (DERIVED, Spaces::One(4), "p", Want::Read, Wanted::Missing),
    (DERIVED, Spaces::One(3), "y", Want::Read, Wanted::Slot(7)),
    (DERIVED, Spaces::One(2), "y", Want::Read, Wanted::Missing),
    (DERIVED, Spaces::One(4), "w", Want::Read, Wanted::Slot(3)),
    (DERIVED, Spaces::One(3), "w", Want::Read, Wanted::Missing),
    (BASE, Spaces::One(2), "p", Want::Read, Wanted::Method(0)),
    (BASE, Spaces::One(3), "p", Want::Read, Wanted::Missing),
    // a Want::Read skips setters, a Want::Write getters
    (BASE, Spaces::Public, "g", Want::Read, Wanted::Getter(1)),
    (BASE, Spaces::Public, "g", Want::Write, Wanted::WrongSide),
    (DERIVED, Spaces::Public, "s", Want::Write, Wanted::Setter(2)),
    (DERIVED, Spaces::Public, "s", Want::Read, Wanted::WrongSide),
    (
        BASE,
        Spaces::Public,
        "s",
        Want::Read,
        Wanted::Property(BASE, 36),
    ),
    (DERIVED, Spaces::Public, "t", Want::Write, Wanted::Setter(5)),
    (DERIVED, Spaces::Public, "t", Want::Read, Wanted::Slot(2)),
    // properties by names that hold the Spaces::Public namespace or any
    (
        DERIVED,
        Spaces::Public,
        "d",
        Want::Read,
        Wanted::Property(DERIVED, 37),
    ),
    (
        DERIVED,
        Spaces::Any,
        "d",
        Want::Read,
        Wanted::Property(DERIVED, 37),
    ),
    (
        DERIVED,
        Spaces::One(10),
        "d",
        Want::Read,
        Wanted::Property(DERIVED, 37),
    ),
    (
        DERIVED,
        Spaces::Set(1),
        "d",
        Want::Read,
        Wanted::Property(DERIVED, 37),
    ),
    (DERIVED, Spaces::One(5), "d", Want::Read, Wanted::Missing),
    (DERIVED, Spaces::Set(2), "d", Want::Read, Wanted::Missing),
    // elements before properties
    (
        ARRAY,
        Spaces::Public,
        "0",
        Want::Read,
        Wanted::Element(ARRAY, 0),
    ),
    (ARRAY, Spaces::One(5), "0", Want::Read, Wanted::Missing),
    (
        ARRAY,
        Spaces::Public,
        "2",
        Want::Read,
        Wanted::Property(ARRAY, 35),
    ),
    (ARRAY, Spaces::Public, "01", Want::Read, Wanted::Missing),
    (
        ARRAY,
        Spaces::Public,
        "length",
        Want::Read,
        Wanted::Length(ARRAY),
    ),
    (BASE, Spaces::Public, "length", Want::Read, Wanted::Missing),
    // then those of the delegates in turn
    (
        HEIR,
        Spaces::Public,
        "1",
        Want::Read,
        Wanted::Property(HEIR, 39),
    ),
    (
        HEIR,
        Spaces::Public,
        "0",
        Want::Read,
        Wanted::Element(ARRAY, 0),
    ),
    (
        HEIR,
        Spaces::Public,
        "length",
        Want::Read,
        Wanted::Length(ARRAY),
    ),
    (HEIR, Spaces::One(5), "0", Want::Read, Wanted::Missing),
    (
        NEXT_HEIR,
        Spaces::Public,
        "d",
        Want::Read,
        Wanted::Property(HEIR, 39),
    ),
    (
        NEXT_HEIR,
        Spaces::Public,
        "2",
        Want::Read,
        Wanted::Property(ARRAY, 35),
    ),
    (
        NEXT_HEIR,
        Spaces::Public,
        "z",
        Want::Read,
        Wanted::Property(ObjId(0), 0),
    ),
    // layouts of other parts
    (
        CLASS_OBJECT,
        Spaces::Public,
        "prototype",
        Want::Read,
        Wanted::Constant(0),
    ),
    (
        CLASS_OBJECT,
        Spaces::Public,
        "k",
        Want::Read,
        Wanted::Slot(1),
    ),
    (CAUGHT, Spaces::Public, "e", Want::Read, Wanted::Slot(0)),
    (ACTIVATION, Spaces::Public, "x", Want::Read, Wanted::Slot(0)),
];

/// The first of these that is wrong.
fn wrong_on_object(l: &Linked, a: &Arena) -> Option<usize>
    requires { StandsOver l.now a.now }
{
    for (row, (o, spaces, text, want, wanted)) in ON_OBJECTS.iter().enumerate() {
        let found = find(l, a, Value::Obj(*o), *spaces, text, *want);
        if found != Some(as_found(*wanted)) {
            return Some(row);
        }
    }
    None
}

/// Public names on other values, and what a read finds.
const ON_VALUES: [(Value, &str, Wanted); 5] = [
    (Value::Space(1), "z", Wanted::Property(ObjId(3), 3)),
    (TRUE, "z", Wanted::Property(ObjId(4), 4)),
    (TRUE, "length", Wanted::Missing),
    (Value::Num(1), "z", Wanted::Property(ObjId(7), 7)),
    (Value::Bool(true), "z", Wanted::Property(ObjId(8), 8)),
];

/// The first of these that is wrong.
fn wrong_on_value(l: &Linked, a: &Arena) -> Option<usize>
    requires { StandsOver l.now a.now }
{
    for (row, (holder, text, wanted)) in ON_VALUES.iter().enumerate() {
        let found = find(l, a, *holder, Spaces::Public, text, Want::Read);
        if found != Some(as_found(*wanted)) {
            return Some(row);
        }
    }
    None
}

/// What a name finds among the traits of a class and its bases, for an instance of a class.
fn declared(
    l: &Linked,
    a: &Arena,
    class: u32,
    from: u32,
    spaces: Spaces,
    text: &str,
    want: Want,
) -> Option<Found>
    requires { StandsOver l.now a.now }
{
    let object = l.layout_of(Part::Instance(class));
    let from = l.layout_of(Part::Instance(from));
    let name = Name {
        spaces,
        text: span_of(l, text),
    };
    if object.0 >= l.layouts() || from.0 >= l.layouts() || !is_text(l, a, name.text) {
        return None;
    }
    Some(find_declared(l, a, object, from, &name, want))
}

/// Names among the traits of a class and its bases, for an instance of a class, which is told first.
const DECLARED: [(u32, u32, Spaces, &str, Want, Wanted); 10] = [
    (1, 1, Spaces::Public, "x", Want::Read, Wanted::Slot(6)),
    (1, 0, Spaces::Public, "x", Want::Read, Wanted::Slot(0)),
    (1, 0, Spaces::One(3), "p", Want::Read, Wanted::Method(0)),
    (0, 0, Spaces::One(3), "p", Want::Read, Wanted::Missing),
    (1, 0, Spaces::One(3), "y", Want::Read, Wanted::Missing),
    (1, 1, Spaces::Public, "t", Want::Write, Wanted::Setter(5)),
    (1, 0, Spaces::Public, "t", Want::Write, Wanted::Slot(2)),
    (0, 0, Spaces::Public, "g", Want::Write, Wanted::WrongSide),
    (1, 0, Spaces::Public, "s", Want::Read, Wanted::WrongSide),
    // and nothing else, though the object has it
    (1, 1, Spaces::Public, "d", Want::Read, Wanted::Missing),
];

/// The first of these that is wrong.
fn wrong_declared(l: &Linked, a: &Arena) -> Option<usize>
    requires { StandsOver l.now a.now }
{
    for (row, (class, from, spaces, text, want, wanted)) in DECLARED.iter().enumerate() {
        let found = declared(l, a, *class, *from, *spaces, text, *want);
        if found != Some(as_found(*wanted)) {
            return Some(row);
        }
    }
    None
}

/// The scopes that a function keeps.
fn kept_by(l: &Linked, a: &Arena, o: ObjId) -> Option<ScopeId>
    requires { StandsOver l.now a.now }
    ensures { IsScope a.now result }
{
    let _ = l;
    if !is_object(a, o) {
        return None;
    }
    match a.what(o) {
        What::Closure { scope, .. } => scope,
        _ => None,
    }
}

/// Where a name is found in two scopes, the second above the first, and below them those that a function keeps.
fn found_in(
    l: &Linked,
    a: &Arena,
    lower: Scope,
    upper: Scope,
    function: ObjId,
    started: &Table<bool>,
    spaces: Spaces,
    text: &str,
) -> Option<ScopeFound>
    requires { StandsOver l.now a.now }
{
    let name = Name {
        spaces,
        text: span_of(l, text),
    };
    let first = entry(lower);
    let second = entry(upper);
    if !is_object(a, first.object) || !is_object(a, second.object) || !is_text(l, a, name.text) {
        return None;
    }
    let saved = kept_by(l, a, function);
    Some(find_in_scopes(l, a, &[first, second], saved, started, &name))
}

/// Three scripts that are started, or are not.
fn scripts(alloc: Global, started: bool) -> Result<Table<bool>, NoMemory> {
    let mut table = Table::new(alloc);
    table.push(started)?;
    table.push(started)?;
    table.push(started)?;
    Ok(table)
}

/// Names in two scopes, the second above the first, where all scripts are started, and the objects on which they are found.
const IN_SCOPES: [(Scope, Scope, Spaces, &str, Option<ObjId>); 21] = [
    // from the top down
    (
        Plain(BASE),
        Plain(DERIVED),
        Spaces::Public,
        "x",
        Some(DERIVED),
    ),
    (Plain(DERIVED), Plain(BASE), Spaces::Public, "x", Some(BASE)),
    (Plain(BASE), Plain(OTHER), Spaces::Public, "x", Some(BASE)),
    // a with scope: declared traits, own elements and properties
    (
        Plain(OTHER),
        With(DERIVED),
        Spaces::Public,
        "x",
        Some(DERIVED),
    ),
    (
        Plain(OTHER),
        With(DERIVED),
        Spaces::Public,
        "d",
        Some(DERIVED),
    ),
    (Plain(OTHER), With(ARRAY), Spaces::Public, "0", Some(ARRAY)),
    (Plain(OTHER), With(HEIR), Spaces::Public, "0", None),
    (Plain(OTHER), With(HEIR), Spaces::Public, "z", None),
    (
        Plain(OTHER),
        With(GLOBAL),
        Spaces::Public,
        "d",
        Some(GLOBAL),
    ),
    (Plain(OTHER), With(GLOBAL), Spaces::Public, "z", None),
    // a global object without the flag: declared traits, properties and those of delegates
    (
        Plain(OTHER),
        Plain(GLOBAL),
        Spaces::Public,
        "m",
        Some(GLOBAL),
    ),
    (
        Plain(OTHER),
        Plain(GLOBAL),
        Spaces::Public,
        "d",
        Some(GLOBAL),
    ),
    (
        Plain(OTHER),
        Plain(GLOBAL),
        Spaces::Public,
        "z",
        Some(GLOBAL),
    ),
    // any other: declared traits alone
    (Plain(OTHER), Plain(DERIVED), Spaces::Public, "d", None),
    (Plain(OTHER), Plain(ARRAY), Spaces::Public, "0", None),
    // properties by names that hold the Spaces::Public namespace or any
    (Plain(OTHER), With(DERIVED), Spaces::One(5), "d", None),
    (Plain(OTHER), With(ARRAY), Spaces::One(5), "0", None),
    (Plain(OTHER), Plain(GLOBAL), Spaces::One(5), "z", None),
    (Plain(OTHER), With(DERIVED), Spaces::Any, "d", Some(DERIVED)),
    // nothing is skipped
    (
        Plain(OTHER),
        Plain(DERIVED),
        Spaces::Public,
        "s",
        Some(DERIVED),
    ),
    (
        Plain(OTHER),
        Plain(DERIVED),
        Spaces::Public,
        "g",
        Some(DERIVED),
    ),
];

/// The first of these that is wrong.
fn wrong_in_scopes(l: &Linked, a: &Arena, started: &Table<bool>) -> Option<usize>
    requires { StandsOver l.now a.now }
{
    for (row, (lower, upper, spaces, text, wanted)) in IN_SCOPES.iter().enumerate() {
        let found = found_in(l, a, *lower, *upper, HOST, started, *spaces, text);
        let wanted = match wanted {
            Some(o) => Object(*o),
            None => Missing,
        };
        if found != Some(wanted) {
            return Some(row);
        }
    }
    None
}

/// Names in one scope, and below it in those that a function keeps, on scripts that are started or not, and on the host object.
const BELOW_SCOPES: [(ObjId, ObjId, bool, Spaces, &str, ScopeFound); 16] = [
    // saved scopes from the top down
    (
        FUNCTION,
        DERIVED,
        true,
        Spaces::Public,
        "x",
        Object(DERIVED),
    ),
    (FUNCTION, OTHER, true, Spaces::Public, "x", Object(BASE)),
    (FUNCTION, OTHER, true, Spaces::One(3), "y", Object(DERIVED)),
    (FUNCTION, OTHER, true, Spaces::Public, "d", Object(DERIVED)),
    (FUNCTION, OTHER, false, Spaces::Public, "m", Object(FIRST)),
    // then the scripts in order, for declared traits
    (HOST, OTHER, true, Spaces::Public, "m", Object(FIRST)),
    (HOST, OTHER, false, Spaces::Public, "m", Start(0)),
    (HOST, OTHER, true, Spaces::Public, "k", Object(GLOBAL)),
    (HOST, OTHER, false, Spaces::Public, "k", Start(1)),
    (HOST, OTHER, true, Spaces::One(5), "k", Missing),
    (HOST, OTHER, true, Spaces::Public, "d", Missing),
    // then the properties of the host object
    (HOST, OTHER, false, Spaces::Public, "trace", Start(2)),
    (HOST, OTHER, false, Spaces::Public, "twice", Object(HOST)),
    (HOST, OTHER, false, Spaces::Any, "twice", Object(HOST)),
    (HOST, OTHER, false, Spaces::One(5), "twice", Missing),
    (HOST, OTHER, true, Spaces::Public, "z", Missing),
];

/// The first of these that is wrong.
fn wrong_below_scopes(
    l: &Linked,
    a: &Arena,
    started: &Table<bool>,
    unstarted: &Table<bool>,
) -> Option<usize>
    requires { StandsOver l.now a.now }
{
    for (row, (function, lower, is_started, spaces, text, wanted)) in BELOW_SCOPES
        .iter()
        .enumerate()
    {
        let scripts = if *is_started { started } else { unstarted };
        let (lower, upper) = (Plain(*lower), Plain(OTHER));
        let found = found_in(l, a, lower, upper, *function, scripts, *spaces, text);
        if found != Some(*wanted) {
            return Some(row);
        }
    }
    None
}

/// The own traits of a part that have a text, as their places in its table.
fn own_places<'a>(l: &'a Linked, part: Part, text: &str) -> &'a [u32] {
    let layout = l.layout_of(part);
    if layout.0 >= l.layouts() {
        return &[];
    }
    match l.own_traits(layout, text.as_bytes()) {
        Some(places) => places.as_slice(),
        None => &[],
    }
}

/// Texts among the own traits of parts, and their places there.
const OWN: [(Part, &str, &[u32]); 6] = [
    (Part::Global(0), "m", &[0]),
    (Part::Global(0), "trace", &[]),
    (Part::Global(1), "k", &[1]),
    // in file order
    (Part::Instance(0), "f", &[9, 10]),
    // whatever a base has
    (Part::Instance(1), "x", &[0]),
    (Part::Instance(1), "p", &[]),
];

/// The first of these that is wrong.
fn wrong_own(l: &Linked) -> Option<usize> {
    for (row, (part, text, places)) in OWN.iter().enumerate() {
        if own_places(l, *part, text) != *places {
            return Some(row);
        }
    }
    None
}

/// The name of a table that is wrong, and a row of it.
fn wrong_names(
    l: &Linked,
    a: &Arena,
    started: &Table<bool>,
    unstarted: &Table<bool>,
) -> Option<(&'static str, usize)>
    requires { StandsOver l.now a.now }
{
    if let Some(row) = wrong_own(l) {
        return Some(("own traits", row));
    }
    if let Some(row) = wrong_on_object(l, a) {
        return Some(("objects", row));
    }
    if let Some(row) = wrong_on_value(l, a) {
        return Some(("other values", row));
    }
    if let Some(row) = wrong_declared(l, a) {
        return Some(("declared traits", row));
    }
    if let Some(row) = wrong_in_scopes(l, a, started) {
        return Some(("scopes", row));
    }
    if let Some(row) = wrong_below_scopes(l, a, started, unstarted) {
        return Some(("below scopes", row));
    }
    None
}

/// The same where all scripts were started, and where none was.
fn wrong_in_arena(
    alloc: Global,
    l: &Linked,
    a: &Arena,
) -> Result<Option<(&'static str, usize)>, NoMemory>
    requires { StandsOver l.now a.now }
{
    let started = scripts(alloc, true)?;
    let unstarted = scripts(alloc, false)?;
    Ok(wrong_names(l, a, &started, &unstarted))
}

fn wrong_in_file(alloc: Global, l: &Linked) -> Result<Option<(&'static str, usize)>, Fail> {
    let a = filled(alloc, l)?;
    let wrong = wrong_in_arena(alloc, l, &a);
    release(a);
    Ok(wrong?)
}

#[test]
fn names(rt: HostRuntime) -> Result<(), Fail> {
    let file = linked(rt.alloc(), &FILE)?;
    assert_eq!(rt; wrong_in_file(rt.alloc(), &file)?, None);
    Ok(())
}
