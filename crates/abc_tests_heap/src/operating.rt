//! The operations, as tables over an arena that was opened over a small file.
ghost use Rattle.std.specs.Prelude.{IfOk};
ghost use Rattle.abc_objects.specs.Stands.{StandsOver};
ghost use Rattle.abc_objects.specs.Values.{Exists};

use crate::opened::{exists, linked, make, opened};
use abc_base::{Bytes, Fault, HostClass, NoMemory, release};
use abc_heap_store::{Limit, Limits};
use abc_heap_values::{Conversion, ObjId, Span, Value};
use abc_link::Linked;
use abc_link_names::{LayoutId, Part, Ty};
use abc_objects::Arena;
use abc_ops::{OpEnd, binary, coerce, compare, convert, is_of, unary};
use std::alloc::Global;
use std::test::*;

/// Four classes, of which class 0 names interface 2, class 1 extends class 0, and nothing names interface 3. Namespace 1 is
/// public, 2 and 3 are public ones of the name `n`, and 4 and 5 private ones of it. String 6 is the byte E9.
pub const FILE: [u8; 196] = [
    0x10, 0, 0x2e, 0, 0, 0, 0, 7, 1, 0x41, 1, 0x42, 1, 0x49, 1, 0x4a, 1, 0x6e, 1, 0xe9, 6, 0x16, 0,
    8, 5, 0x16, 5, 5, 5, 5, 5, 0, 6, 7, 1, 1, 7, 1, 2, 7, 1, 3, 7, 1, 4, 7, 1, 5, 9, 0, 0, 0, 0, 0,
    0, 0, 0, 0, 0, 0, 0, 0, 0, 0, 0, 0, 0, 0, 0, 0, 0, 0, 0, 0, 0, 0, 0, 0, 0, 0, 0, 0, 0, 0, 0, 0,
    4, 1, 0, 0, 1, 3, 1, 1, 5, 0, 0, 0, 0, 2, 1, 0, 0, 3, 0, 3, 0, 4, 0, 5, 0, 4, 0, 4, 0, 7, 0, 2,
    0, 4, 0, 6, 0, 8, 0, 1, 0, 1, 1, 4, 0, 0, 7, 0, 1, 1, 0, 1, 1, 0x47, 0, 0, 1, 1, 1, 0, 1, 1,
    0x47, 0, 0, 2, 1, 1, 0, 1, 1, 0x47, 0, 0, 3, 1, 1, 0, 1, 1, 0x47, 0, 0, 4, 1, 1, 0, 1, 1, 0x47,
    0, 0, 6, 1, 1, 0, 1, 1, 0x47, 0, 0, 8, 1, 1, 0, 1, 1, 0x47, 0, 0,
];

/// Room for eight bytes of texts.
const LIMITS: Limits = Limits {
    objects: 40,
    cells: 40,
    text: 8,
    frames: 0,
    stack: 0,
};

/// The ends of the range of numbers.
const LEAST: i64 = -2147483648;

const GREATEST: i64 = 4294967295;

/// Objects of the opening: `trace` and the host object.
const TRACE: Value = Value::Obj(ObjId(28));

const HOST: Value = Value::Obj(ObjId(31));

/// Fixed texts: the empty one, `null` and `true`.
const EMPTY: Value = Value::Text(Span {
    part: 0,
    start: 0,
    len: 0,
});

const NULL: Value = Value::Text(Span {
    part: 0,
    start: 9,
    len: 4,
});

pub const TRUE: Value = Value::Text(Span {
    part: 0,
    start: 13,
    len: 4,
});

/// The string that is no ASCII.
const ACCENT: Value = Value::Text(Span {
    part: 8,
    start: 0,
    len: 1,
});

fn put(out: &mut Bytes, words: &str) -> Result<(), Fail> {
    out.extend_from_slice(words.as_bytes())?;
    Ok(())
}

fn put_text(out: &mut Bytes, text: &[u8]) -> Result<(), Fail> {
    out.push(b'"')?;
    out.extend_from_slice(text)?;
    out.push(b'"')?;
    Ok(())
}

fn put_value(alloc: Global, l: &Linked, a: &Arena, v: Value, out: &mut Bytes) -> Result<(), Fail>
    requires { Exists l.now a.now v }
{
    match v {
        Value::Undefined => put(out, "undefined"),
        Value::Null => put(out, "null"),
        Value::Num(n) => put(out, format!(in alloc; "{n}")?.as_str()),
        Value::Bool(true) => put(out, "true"),
        Value::Bool(false) => put(out, "false"),
        Value::Text(s) => put_text(out, a.text_bytes(l, s)),
        Value::Space(n) => put(out, format!(in alloc; "space {n}")?.as_str()),
        Value::Obj(_) => put(out, "object"),
    }
}

fn put_end(alloc: Global, end: OpEnd, out: &mut Bytes) -> Result<(), Fail> {
    match end {
        OpEnd::Profile(fault) => put(out, format!(in alloc; "{fault:?}")?.as_str()),
        OpEnd::Throw(class) => put(out, format!(in alloc; "{class:?}")?.as_str()),
        OpEnd::Full(limit) => put(out, format!(in alloc; "Full {limit:?}")?.as_str()),
    }
}

/// Adds what an operation gave in words, a text in quotes.
fn put_outcome(
    alloc: Global,
    l: &Linked,
    a: &Arena,
    outcome: Result<Value, OpEnd>,
    out: &mut Bytes,
) -> Result<(), Fail>
    requires { IfOk outcome (Exists l.now a.now) }
{
    match outcome {
        Ok(v) => put_value(alloc, l, a, v, out),
        Err(end) => put_end(alloc, end, out),
    }
}

/// An operation on a value.
#[derive(Clone, Copy)]
enum Op {
    To(Conversion),
    Into(Ty),
    One(u8),
    Two(u8, Value),
}

/// An operation on two values. It ends as no operation does where the second is not there.
fn apply_to_two(l: &Linked, a: &mut Arena, op: u8, x: Value, y: Value) -> Result<Value, OpEnd>
    requires over { StandsOver l.now a.old }
    requires value { Exists l.now a.old x }
    ensures { IfOk result (Exists l.now a.new) }
{
    if !exists(l, a, y) {
        return Err(OpEnd::Full(Limit::Stack));
    }
    binary(l, a, op, x, y)
}

fn apply(l: &Linked, a: &mut Arena, op: Op, x: Value) -> Result<Value, OpEnd>
    requires over { StandsOver l.now a.old }
    requires value { Exists l.now a.old x }
    ensures { IfOk result (Exists l.now a.new) }
{
    match op {
        Op::To(conversion) => convert(l, a, conversion, x),
        Op::Into(ty) => coerce(l, a, ty, x),
        Op::One(op) => unary(l, a, op, x),
        Op::Two(op, y) => apply_to_two(l, a, op, x, y),
    }
}

fn put_applied(
    alloc: Global,
    l: &Linked,
    a: &mut Arena,
    op: Op,
    x: Value,
    out: &mut Bytes,
) -> Result<(), Fail>
    requires { StandsOver l.now a.old }
{
    if !exists(l, a, x) {
        return Err(Fail::new("no such value"));
    }
    let outcome = apply(l, a, op, x);
    put_outcome(alloc, l, a, outcome, out)
}

/// Adds what an operation gives in an arena of its own.
fn put_result(alloc: Global, l: &Linked, op: Op, x: Value, out: &mut Bytes) -> Result<(), Fail> {
    let mut a = opened(alloc, l, &LIMITS)?;
    let put = put_applied(alloc, l, &mut a, op, x, out);
    release(a);
    put
}

/// What an operation gives.
fn told(alloc: Global, l: &Linked, op: Op, x: Value) -> Result<Bytes, Fail> {
    let mut out = Bytes::new(alloc);
    put_result(alloc, l, op, x, &mut out)?;
    Ok(out)
}

/// What the conversions give: convert_s, convert_i, convert_u, convert_d, convert_b, convert_o and coerce_s.
fn conversions(alloc: Global, l: &Linked, x: Value) -> Result<Bytes, Fail> {
    let mut out = Bytes::new(alloc);
    for conversion in [
        Conversion::ConvertS,
        Conversion::ConvertI,
        Conversion::ConvertU,
        Conversion::ConvertD,
        Conversion::ConvertB,
        Conversion::ConvertO,
        Conversion::CoerceS,
    ] {
        put_result(alloc, l, Op::To(conversion), x, &mut out)?;
        out.push(b' ')?;
    }
    Ok(out)
}

/// Values of each kind, and what the conversions give.
const CONVERSIONS: [(Value, &str); 11] = [
    (
        Value::Undefined,
        "\"undefined\" 0 0 NotANumber false TypeError null ",
    ),
    (Value::Null, "\"null\" 0 0 0 false TypeError null "),
    (Value::Num(0), "\"0\" 0 0 0 false 0 \"0\" "),
    (Value::Num(-1), "\"-1\" -1 4294967295 -1 true -1 \"-1\" "),
    (
        Value::Num(GREATEST),
        "Full Text -1 4294967295 4294967295 true 4294967295 Full Text ",
    ),
    (Value::Bool(false), "\"false\" 0 0 0 false false \"false\" "),
    (Value::Bool(true), "\"true\" 1 1 1 true true \"true\" "),
    (
        EMPTY,
        "\"\" TextToNumber TextToNumber TextToNumber false \"\" \"\" ",
    ),
    (
        NULL,
        "\"null\" TextToNumber TextToNumber TextToNumber true \"null\" \"null\" ",
    ),
    (
        Value::Space(2),
        "\"n\" ObjectToPrimitive ObjectToPrimitive ObjectToPrimitive true space 2 \"n\" ",
    ),
    (
        HOST,
        "ObjectToPrimitive ObjectToPrimitive ObjectToPrimitive ObjectToPrimitive true object ObjectToPrimitive ",
    ),
];

/// The first row of conversions that is wrong.
fn wrong_conversion(alloc: Global, l: &Linked) -> Result<Option<usize>, Fail> {
    for (row, (x, want)) in CONVERSIONS.iter().enumerate() {
        if conversions(alloc, l, *x)?.as_slice() != want.as_bytes() {
            return Ok(Some(row));
        }
    }
    Ok(None)
}

/// Operations at the ends of the range of numbers.
const ON_NUMBERS: [(u8, i64, i64, &str); 34] = [
    // add, subtract, multiply
    (0xA0, GREATEST, 0, "4294967295"),
    (0xA0, GREATEST, 1, "Range"),
    (0xA0, LEAST, -1, "Range"),
    (0xA1, LEAST, 0, "-2147483648"),
    (0xA1, LEAST, 1, "Range"),
    (0xA1, GREATEST, LEAST, "Range"),
    (0xA2, 65537, 65535, "4294967295"),
    (0xA2, 65536, 65536, "Range"),
    (0xA2, GREATEST, GREATEST, "Range"),
    (0xA2, LEAST, LEAST, "Range"),
    // divide
    (0xA3, GREATEST, 5, "858993459"),
    (0xA3, GREATEST, -2, "Range"),
    (0xA3, LEAST, -1, "2147483648"),
    (0xA3, GREATEST, -1, "Range"),
    (0xA3, 0, 0, "NotANumber"),
    // modulo
    (0xA4, LEAST, 3, "-2"),
    (0xA4, GREATEST, LEAST, "2147483647"),
    (0xA4, -7, 7, "0"),
    (0xA4, 7, 0, "NotANumber"),
    // lshift, rshift, urshift
    (0xA5, 1, 31, "-2147483648"),
    (0xA5, 1, 32, "1"),
    (0xA5, GREATEST, -1, "-2147483648"),
    (0xA6, LEAST, 31, "-1"),
    (0xA6, GREATEST, 33, "-1"),
    (0xA7, LEAST, 31, "1"),
    (0xA7, -1, 32, "4294967295"),
    // bitand, bitor, bitxor
    (0xA8, GREATEST, LEAST, "-2147483648"),
    (0xA9, 1, LEAST, "-2147483647"),
    (0xAA, GREATEST, -1, "0"),
    // add_i, subtract_i, multiply_i
    (0xC5, GREATEST, 1, "0"),
    (0xC5, 2147483647, 1, "-2147483648"),
    (0xC6, LEAST, 1, "2147483647"),
    (0xC7, 65536, 65536, "0"),
    (0xC7, 65536, 32768, "-2147483648"),
];

/// The first operation on numbers that is wrong.
fn wrong_on_numbers(alloc: Global, l: &Linked) -> Result<Option<usize>, Fail> {
    for (row, (op, x, y, want)) in ON_NUMBERS.iter().enumerate() {
        let op = Op::Two(*op, Value::Num(*y));
        if told(alloc, l, op, Value::Num(*x))?.as_slice() != want.as_bytes() {
            return Ok(Some(row));
        }
    }
    Ok(None)
}

/// Operations on values of each kind.
const ON_VALUES: [(Op, Value, &str); 33] = [
    // negate, increment, decrement
    (Op::One(0x90), Value::Num(LEAST), "2147483648"),
    (Op::One(0x90), Value::Num(GREATEST), "Range"),
    (Op::One(0x91), Value::Num(GREATEST), "Range"),
    (Op::One(0x91), Value::Null, "1"),
    (Op::One(0x93), Value::Num(LEAST), "Range"),
    (Op::One(0x93), Value::Undefined, "NotANumber"),
    // typeof
    (Op::One(0x95), Value::Undefined, "\"undefined\""),
    (Op::One(0x95), Value::Null, "\"object\""),
    (Op::One(0x95), Value::Num(1), "\"number\""),
    (Op::One(0x95), Value::Bool(true), "\"boolean\""),
    (Op::One(0x95), TRUE, "\"string\""),
    (Op::One(0x95), Value::Space(1), "\"object\""),
    (Op::One(0x95), HOST, "\"object\""),
    (Op::One(0x95), TRACE, "\"function\""),
    // not
    (Op::One(0x96), EMPTY, "true"),
    (Op::One(0x96), HOST, "false"),
    // bitnot, increment_i, decrement_i, negate_i
    (Op::One(0x97), Value::Num(0), "-1"),
    (Op::One(0x97), Value::Undefined, "-1"),
    (Op::One(0xC0), Value::Num(2147483647), "-2147483648"),
    (Op::One(0xC1), Value::Num(LEAST), "2147483647"),
    (Op::One(0xC4), Value::Num(LEAST), "-2147483648"),
    // joined texts, the left made before the right
    (Op::Two(0xA0, TRUE), Value::Bool(true), "\"truetrue\""),
    (Op::Two(0xA0, TRUE), Value::Null, "\"nulltrue\""),
    (Op::Two(0xA0, TRUE), Value::Space(3), "\"ntrue\""),
    (
        Op::Two(0xA0, Value::Num(12)),
        Value::Space(3),
        "ObjectToPrimitive",
    ),
    (Op::Two(0xA0, Value::Num(12)), TRUE, "\"true12\""),
    (Op::Two(0xA0, TRUE), Value::Num(123), "Full Text"),
    (Op::Two(0xA0, HOST), TRUE, "ObjectToPrimitive"),
    // the left operand is the one whose fault is told
    (Op::Two(0xA0, HOST), Value::Undefined, "NotANumber"),
    (Op::Two(0xA0, Value::Undefined), HOST, "ObjectToPrimitive"),
    (Op::Two(0xA1, HOST), TRUE, "TextToNumber"),
    (Op::Two(0xA8, TRUE), Value::Undefined, "TextToNumber"),
    (Op::Two(0xA8, Value::Bool(true)), Value::Undefined, "0"),
];

/// The first of some operations that is wrong.
fn wrong_operation(
    alloc: Global,
    l: &Linked,
    rows: &[(Op, Value, &str)],
) -> Result<Option<usize>, Fail> {
    for (row, (op, x, want)) in rows.iter().enumerate() {
        if told(alloc, l, *op, *x)?.as_slice() != want.as_bytes() {
            return Ok(Some(row));
        }
    }
    Ok(None)
}

/// Coercions to types.
const COERCIONS: [(Op, Value, &str); 19] = [
    (Op::Into(Ty::Any), Value::Undefined, "undefined"),
    (Op::Into(Ty::Void), HOST, "undefined"),
    (Op::Into(Ty::Object), Value::Undefined, "null"),
    (Op::Into(Ty::Object), Value::Num(1), "1"),
    (Op::Into(Ty::Int), Value::Num(GREATEST), "-1"),
    (Op::Into(Ty::UInt), Value::Num(-1), "4294967295"),
    (Op::Into(Ty::Number), Value::Undefined, "NotANumber"),
    (Op::Into(Ty::Boolean), Value::Undefined, "false"),
    (Op::Into(Ty::Text), Value::Undefined, "null"),
    (Op::Into(Ty::Text), Value::Bool(true), "\"true\""),
    (Op::Into(Ty::Text), HOST, "ObjectToPrimitive"),
    (Op::Into(Ty::Space), Value::Undefined, "null"),
    (Op::Into(Ty::Space), Value::Space(1), "space 1"),
    (Op::Into(Ty::Space), Value::Num(1), "TypeError"),
    (Op::Into(Ty::Of(LayoutId(0))), Value::Undefined, "null"),
    (Op::Into(Ty::Of(LayoutId(0))), HOST, "object"),
    (Op::Into(Ty::Of(LayoutId(0))), Value::Num(1), "TypeError"),
    (Op::Into(Ty::Interface(2)), Value::Null, "null"),
    (Op::Into(Ty::Interface(2)), HOST, "TypeError"),
];

/// How a comparison ends, in a letter.
fn letter(outcome: Result<bool, OpEnd>) -> u8 {
    match outcome {
        Ok(true) => b't',
        Ok(false) => b'f',
        Err(OpEnd::Profile(Fault::TextToNumber)) => b'N',
        Err(OpEnd::Profile(Fault::ObjectToPrimitive)) => b'P',
        Err(OpEnd::Profile(Fault::TextOrder)) => b'O',
        Err(_) => b'?',
    }
}

/// One value of each kind.
const KINDS: [Value; 7] = [
    Value::Undefined,
    Value::Null,
    Value::Num(1),
    Value::Bool(true),
    TRUE,
    Value::Space(2),
    HOST,
];

/// The letter of a comparison of two values.
fn letter_of(l: &Linked, a: &Arena, op: u8, x: Value, y: Value) -> u8
    requires { StandsOver l.now a.now }
{
    if !exists(l, a, x) || !exists(l, a, y) {
        return b'?';
    }
    letter(compare(l, a, op, x, y))
}

/// The letter of a comparison of the value of a kind with another.
fn letter_of_two(l: &Linked, a: &Arena, op: u8, kind: usize, y: Value) -> u8
    requires { StandsOver l.now a.now }
{
    match KINDS.get(kind) {
        Some(x) => letter_of(l, a, op, *x, y),
        None => b'?',
    }
}

/// The letters of a comparison of the value of a kind with that of each.
fn compared(alloc: Global, l: &Linked, a: &Arena, op: u8, kind: usize) -> Result<Bytes, NoMemory>
    requires { StandsOver l.now a.now }
{
    let mut letters = Bytes::new(alloc);
    for y in KINDS {
        letters.push(letter_of_two(l, a, op, kind, y))?;
    }
    Ok(letters)
}

/// Of a value of each kind, the letters of equals, strictequals, lessthan, lessequals, greaterthan and greaterequals.
const COMPARISONS: [(u8, [&str; 7]); 6] = [
    (
        0xAB,
        [
            "ttfffff", "ttfffff", "ffttNfP", "ffttNfP", "ffNNtfP", "ffffftf", "ffPPPft",
        ],
    ),
    (
        0xAC,
        [
            "tffffff", "ftfffff", "fftffff", "ffftfff", "fffftff", "ffffftf", "fffffft",
        ],
    ),
    (
        0xAD,
        [
            "ffffNPP", "ffttNPP", "ffffNPP", "ffffNPP", "NNNNfNN", "PPPPPPP", "PPPPPPP",
        ],
    ),
    (
        0xAE,
        [
            "ffffNPP", "ftttNPP", "ffttNPP", "ffttNPP", "NNNNtNN", "PPPPPPP", "PPPPPPP",
        ],
    ),
    (
        0xAF,
        [
            "ffffNPP", "ffffNPP", "ftffNPP", "ftffNPP", "NNNNfNN", "PPPPPPP", "PPPPPPP",
        ],
    ),
    (
        0xB0,
        [
            "ffffNPP", "ftffNPP", "ftttNPP", "ftttNPP", "NNNNtNN", "PPPPPPP", "PPPPPPP",
        ],
    ),
];

/// The first value whose comparisons with those of each kind are wrong.
fn wrong_comparison(
    alloc: Global,
    l: &Linked,
    a: &Arena,
    op: u8,
    rows: &[&str],
) -> Result<Option<usize>, NoMemory>
    requires { StandsOver l.now a.now }
{
    for (row, want) in rows.iter().enumerate() {
        if compared(alloc, l, a, op, row)?.as_slice() != want.as_bytes() {
            return Ok(Some(row));
        }
    }
    Ok(None)
}

/// The first opcode that compares wrongly.
fn wrong_comparing(alloc: Global, l: &Linked, a: &Arena) -> Result<Option<u8>, NoMemory>
    requires { StandsOver l.now a.now }
{
    for (op, rows) in &COMPARISONS {
        if wrong_comparison(alloc, l, a, *op, rows)?.is_some() {
            return Ok(Some(*op));
        }
    }
    Ok(None)
}

/// The six comparisons of two values of one kind.
const WITHIN: [(Value, Value, &str); 11] = [
    (Value::Num(LEAST), Value::Num(GREATEST), "ffttff"),
    (Value::Num(GREATEST), Value::Num(LEAST), "fffftt"),
    (Value::Bool(false), Value::Bool(true), "ffttff"),
    (TRUE, NULL, "fffftt"),
    (EMPTY, NULL, "ffttff"),
    (ACCENT, ACCENT, "ttOOOO"),
    (ACCENT, NULL, "ffOOOO"),
    (NULL, ACCENT, "ffOOOO"),
    (Value::Space(2), Value::Space(3), "ttPPPP"),
    (Value::Space(4), Value::Space(5), "ffPPPP"),
    (HOST, TRACE, "ffPPPP"),
];

/// The letters of the six comparisons of two values.
fn comparisons(alloc: Global, l: &Linked, a: &Arena, x: Value, y: Value) -> Result<Bytes, NoMemory>
    requires { StandsOver l.now a.now }
{
    let mut letters = Bytes::new(alloc);
    for op in [0xAB, 0xAC, 0xAD, 0xAE, 0xAF, 0xB0] {
        letters.push(letter_of(l, a, op, x, y))?;
    }
    Ok(letters)
}

/// The first row of these that is wrong.
fn wrong_within(alloc: Global, l: &Linked, a: &Arena) -> Result<Option<usize>, NoMemory>
    requires { StandsOver l.now a.now }
{
    for (row, (x, y, want)) in WITHIN.iter().enumerate() {
        if comparisons(alloc, l, a, *x, *y)?.as_slice() != want.as_bytes() {
            return Ok(Some(row));
        }
    }
    Ok(None)
}

/// A type that is asked for.
#[derive(Clone, Copy)]
enum Type {
    Is(Ty),
    /// The instances of a class.
    Class(u32),
    /// That of a slot of a class trait: the class object of Error.
    Slot,
}

/// Objects: the first that is made, and class objects of the host.
const DERIVED: Value = Value::Obj(ObjId(33));

const ERROR: Value = Value::Obj(ObjId(23));

const TYPE_ERROR: Value = Value::Obj(ObjId(24));

/// Types, values, and whether these are of them.
const TYPES: [(Type, Value, bool); 28] = [
    (Type::Class(0), DERIVED, true),
    (Type::Class(1), DERIVED, true),
    (Type::Class(0), HOST, false),
    (Type::Class(0), Value::Null, false),
    (Type::Class(0), Value::Undefined, false),
    (Type::Is(Ty::Interface(2)), DERIVED, true),
    (Type::Is(Ty::Interface(3)), DERIVED, false),
    (Type::Is(Ty::Interface(2)), HOST, false),
    (Type::Is(Ty::Interface(2)), Value::Null, false),
    (Type::Slot, ERROR, true),
    (Type::Slot, TYPE_ERROR, false),
    (Type::Is(Ty::Any), Value::Undefined, true),
    (Type::Is(Ty::Void), Value::Undefined, true),
    (Type::Is(Ty::Void), Value::Null, false),
    (Type::Is(Ty::Object), Value::Null, false),
    (Type::Is(Ty::Object), Value::Undefined, false),
    (Type::Is(Ty::Object), Value::Num(1), true),
    (Type::Is(Ty::Int), Value::Num(2147483647), true),
    (Type::Is(Ty::Int), Value::Num(2147483648), false),
    (Type::Is(Ty::UInt), Value::Num(0), true),
    (Type::Is(Ty::UInt), Value::Num(-1), false),
    (Type::Is(Ty::Number), Value::Num(-1), true),
    (Type::Is(Ty::Number), Value::Bool(true), false),
    (Type::Is(Ty::Boolean), Value::Bool(false), true),
    (Type::Is(Ty::Text), EMPTY, true),
    (Type::Is(Ty::Text), Value::Null, false),
    (Type::Is(Ty::Space), Value::Space(1), true),
    (Type::Is(Ty::Space), Value::Null, false),
];

fn type_of(l: &Linked, ty: Type) -> Ty {
    match ty {
        Type::Is(ty) => ty,
        Type::Class(class) => Ty::Of(l.layout_of(Part::Instance(class))),
        Type::Slot => Ty::Of(l.layout_of(Part::HostClassObject(HostClass::Error))),
    }
}

/// The first row of types that is wrong.
fn wrong_type(l: &Linked, a: &Arena) -> Option<usize>
    requires { StandsOver l.now a.now }
{
    for (row, (ty, v, want)) in TYPES.iter().enumerate() {
        if !exists(l, a, *v) || is_of(l, a, type_of(l, *ty), *v) != *want {
            return Some(row);
        }
    }
    None
}

/// An arena in which the first object that is made is an instance of class 1.
fn with_instance(alloc: Global, l: &Linked) -> Result<Arena, Fail>
    ensures { IfOk result (StandsOver l.now) }
{
    let mut a = opened(alloc, l, &LIMITS)?;
    match make(l, &mut a, Part::Instance(1), None) {
        Ok(()) => Ok(a),
        Err(full) => {
            release(a);
            Err(Fail::from(full))
        }
    }
}

/// The name of a table that is wrong, and a row of it.
fn wrong_operations(alloc: Global, l: &Linked) -> Result<Option<(&'static str, usize)>, Fail> {
    if let Some(row) = wrong_conversion(alloc, l)? {
        return Ok(Some(("conversions", row)));
    }
    if let Some(row) = wrong_on_numbers(alloc, l)? {
        return Ok(Some(("numbers", row)));
    }
    if let Some(row) = wrong_operation(alloc, l, &ON_VALUES)? {
        return Ok(Some(("values", row)));
    }
    if let Some(row) = wrong_operation(alloc, l, &COERCIONS)? {
        return Ok(Some(("coercions", row)));
    }
    Ok(None)
}

/// The same of the tables that are gone through in one arena.
fn wrong_in_arena(
    alloc: Global,
    l: &Linked,
    a: &Arena,
) -> Result<Option<(&'static str, usize)>, Fail>
    requires { StandsOver l.now a.now }
{
    if let Some(op) = wrong_comparing(alloc, l, a)? {
        return Ok(Some(("comparisons", usize::from(op))));
    }
    if let Some(row) = wrong_within(alloc, l, a)? {
        return Ok(Some(("within", row)));
    }
    if let Some(row) = wrong_type(l, a) {
        return Ok(Some(("types", row)));
    }
    Ok(None)
}

fn wrong_comparisons(alloc: Global, l: &Linked) -> Result<Option<(&'static str, usize)>, Fail> {
    let a = with_instance(alloc, l)?;
    let wrong = wrong_in_arena(alloc, l, &a);
    release(a);
    wrong
}

#[test]
fn operations(rt: HostRuntime) -> Result<(), Fail> {
    let file = linked(rt.alloc(), &FILE)?;
    assert_eq!(rt; wrong_operations(rt.alloc(), &file)?, None);
    Ok(())
}

#[test]
fn comparisons_and_types(rt: HostRuntime) -> Result<(), Fail> {
    let file = linked(rt.alloc(), &FILE)?;
    assert_eq!(rt; wrong_comparisons(rt.alloc(), &file)?, None);
    Ok(())
}
