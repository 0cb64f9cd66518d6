ghost use Rattle.std.specs.Prelude.{◌≡◌, get_or, slice_get, None};
ghost use Rattle.abc_verify_typing.specs.Rows.{row_at};
ghost use Rattle.abc_verify_typing.specs.Table.{shape_in};

use crate::row::{Gives, Leads, Locals, Need, Operand, Row, RowKind, Scoping, Site, Source, Takes};

/// An instruction that only goes on.
const GOES_ON: Row = Row {
    operand: Operand::Unnamed,
    args: 0,
    takes: Takes::Nothing,
    gives: Gives::Nothing,
    locals: Locals::Untouched,
    scoping: Scoping::Stays,
    leads: Leads::Next,
    site: Site::Anywhere,
};

/// The rows.
pub const ROWS: [Row; 67] = [
    // 0: nop, label, debugline
    GOES_ON,
    // 1: throw, returnvalue
    Row {
        takes: Takes::One(Need::Value),
        leads: Leads::Ends,
        ..GOES_ON
    },
    // 2: getsuper
    Row {
        operand: Operand::NameAt,
        takes: Takes::Two(Need::Runtime, Need::Instance),
        gives: Gives::One(Source::Fixed(RowKind::Any)),
        site: Site::OnInstance,
        ..GOES_ON
    },
    // 3: setsuper
    Row {
        operand: Operand::NameAt,
        takes: Takes::Three(Need::Value, Need::Runtime, Need::Instance),
        site: Site::OnInstance,
        ..GOES_ON
    },
    // 4: kill
    Row {
        locals: Locals::Sets(Source::Fixed(RowKind::Undef)),
        ..GOES_ON
    },
    // 5: ifnlt, ifnle, ifngt, ifnge, ifeq, ifne, iflt, ifle, ifgt, ifge, ifstricteq, ifstrictne
    Row {
        takes: Takes::Two(Need::Value, Need::Value),
        leads: Leads::Branches,
        ..GOES_ON
    },
    // 6: jump
    Row {
        leads: Leads::Jumps,
        ..GOES_ON
    },
    // 7: iftrue, iffalse
    Row {
        takes: Takes::One(Need::Value),
        leads: Leads::Branches,
        ..GOES_ON
    },
    // 8: lookupswitch
    Row {
        takes: Takes::One(Need::Index),
        leads: Leads::Switches,
        ..GOES_ON
    },
    // 9: pushwith
    Row {
        takes: Takes::One(Need::Value),
        scoping: Scoping::Pushes(true),
        ..GOES_ON
    },
    // 10: popscope
    Row {
        scoping: Scoping::Pops,
        ..GOES_ON
    },
    // 11: nextname
    Row {
        takes: Takes::Two(Need::Index, Need::Value),
        gives: Gives::One(Source::Fixed(RowKind::Text)),
        ..GOES_ON
    },
    // 12: hasnext
    Row {
        takes: Takes::Two(Need::Index, Need::Value),
        gives: Gives::One(Source::Fixed(RowKind::Num)),
        ..GOES_ON
    },
    // 13: pushnull
    Row {
        gives: Gives::One(Source::Fixed(RowKind::Null)),
        ..GOES_ON
    },
    // 14: pushundefined
    Row {
        gives: Gives::One(Source::Fixed(RowKind::Undef)),
        ..GOES_ON
    },
    // 15: nextvalue
    Row {
        takes: Takes::Two(Need::Index, Need::Value),
        gives: Gives::One(Source::Fixed(RowKind::Any)),
        ..GOES_ON
    },
    // 16: pushbyte, pushshort, pushnan
    Row {
        gives: Gives::One(Source::Fixed(RowKind::Num)),
        ..GOES_ON
    },
    // 17: pushtrue, pushfalse
    Row {
        gives: Gives::One(Source::Fixed(RowKind::Bool)),
        ..GOES_ON
    },
    // 18: pop
    Row {
        takes: Takes::One(Need::Value),
        ..GOES_ON
    },
    // 19: dup
    Row {
        takes: Takes::One(Need::Value),
        gives: Gives::Two(Source::Taken(0), Source::Taken(0)),
        ..GOES_ON
    },
    // 20: swap
    Row {
        takes: Takes::Two(Need::Value, Need::Value),
        gives: Gives::Two(Source::Taken(1), Source::Taken(0)),
        ..GOES_ON
    },
    // 21: pushstring
    Row {
        operand: Operand::StringAt,
        gives: Gives::One(Source::Fixed(RowKind::Text)),
        ..GOES_ON
    },
    // 22: pushint
    Row {
        operand: Operand::IntAt,
        gives: Gives::One(Source::Fixed(RowKind::Num)),
        ..GOES_ON
    },
    // 23: pushuint
    Row {
        operand: Operand::UintAt,
        gives: Gives::One(Source::Fixed(RowKind::Num)),
        ..GOES_ON
    },
    // 24: pushdouble
    Row {
        operand: Operand::DoubleAt,
        gives: Gives::One(Source::Fixed(RowKind::Num)),
        ..GOES_ON
    },
    // 25: pushscope
    Row {
        takes: Takes::One(Need::Value),
        scoping: Scoping::Pushes(false),
        ..GOES_ON
    },
    // 26: pushnamespace
    Row {
        operand: Operand::NamespaceAt,
        gives: Gives::One(Source::Fixed(RowKind::Space)),
        ..GOES_ON
    },
    // 27: hasnext2
    Row {
        gives: Gives::One(Source::Fixed(RowKind::Bool)),
        locals: Locals::Walks,
        ..GOES_ON
    },
    // 28: newfunction
    Row {
        operand: Operand::FunctionAt,
        gives: Gives::One(Source::Fixed(RowKind::Function)),
        ..GOES_ON
    },
    // 29: call
    Row {
        args: 1,
        takes: Takes::Two(Need::Value, Need::Value),
        gives: Gives::One(Source::Fixed(RowKind::Any)),
        ..GOES_ON
    },
    // 30: construct
    Row {
        args: 1,
        takes: Takes::One(Need::Value),
        gives: Gives::One(Source::Fixed(RowKind::Any)),
        ..GOES_ON
    },
    // 31: callsuper
    Row {
        operand: Operand::NameAt,
        args: 1,
        takes: Takes::Two(Need::Runtime, Need::Instance),
        gives: Gives::One(Source::Fixed(RowKind::Any)),
        site: Site::OnInstance,
        ..GOES_ON
    },
    // 32: callproperty, constructprop, callproplex
    Row {
        operand: Operand::NameAt,
        args: 1,
        takes: Takes::Two(Need::Runtime, Need::Value),
        gives: Gives::One(Source::Fixed(RowKind::Any)),
        ..GOES_ON
    },
    // 33: returnvoid
    Row {
        leads: Leads::Ends,
        ..GOES_ON
    },
    // 34: constructsuper
    Row {
        args: 1,
        takes: Takes::One(Need::Instance),
        site: Site::InMaker,
        ..GOES_ON
    },
    // 35: callsupervoid
    Row {
        operand: Operand::NameAt,
        args: 1,
        takes: Takes::Two(Need::Runtime, Need::Instance),
        site: Site::OnInstance,
        ..GOES_ON
    },
    // 36: callpropvoid
    Row {
        operand: Operand::NameAt,
        args: 1,
        takes: Takes::Two(Need::Runtime, Need::Value),
        ..GOES_ON
    },
    // 37: newobject
    Row {
        args: 2,
        gives: Gives::One(Source::Fixed(RowKind::Object)),
        ..GOES_ON
    },
    // 38: newarray
    Row {
        args: 1,
        gives: Gives::One(Source::Fixed(RowKind::Array)),
        ..GOES_ON
    },
    // 39: newactivation
    Row {
        gives: Gives::One(Source::ActivationKind),
        site: Site::WithActivation,
        ..GOES_ON
    },
    // 40: newclass
    Row {
        operand: Operand::ClassAt,
        takes: Takes::One(Need::Value),
        gives: Gives::One(Source::ClassObjectKind),
        ..GOES_ON
    },
    // 41: newcatch
    Row {
        operand: Operand::HandlerAt,
        gives: Gives::One(Source::CatchObjectKind),
        ..GOES_ON
    },
    // 42: findpropstrict, findproperty
    Row {
        operand: Operand::NameAt,
        takes: Takes::One(Need::Runtime),
        gives: Gives::One(Source::Fixed(RowKind::Object)),
        ..GOES_ON
    },
    // 43: getlex
    Row {
        operand: Operand::PlainNameAt,
        gives: Gives::One(Source::Fixed(RowKind::Any)),
        ..GOES_ON
    },
    // 44: setproperty, initproperty
    Row {
        operand: Operand::NameAt,
        takes: Takes::Three(Need::Value, Need::Runtime, Need::Value),
        ..GOES_ON
    },
    // 45: getlocal, getlocal_0, getlocal_1, getlocal_2, getlocal_3
    Row {
        gives: Gives::One(Source::LocalKind),
        locals: Locals::Reads,
        ..GOES_ON
    },
    // 46: setlocal, setlocal_0, setlocal_1, setlocal_2, setlocal_3
    Row {
        takes: Takes::One(Need::Value),
        locals: Locals::Sets(Source::Taken(0)),
        ..GOES_ON
    },
    // 47: getglobalscope
    Row {
        gives: Gives::One(Source::Fixed(RowKind::Object)),
        ..GOES_ON
    },
    // 48: getscopeobject
    Row {
        operand: Operand::ScopeAt,
        gives: Gives::One(Source::ScopeKind),
        ..GOES_ON
    },
    // 49: getproperty
    Row {
        operand: Operand::NameAt,
        takes: Takes::Two(Need::Runtime, Need::Value),
        gives: Gives::One(Source::Fixed(RowKind::Any)),
        ..GOES_ON
    },
    // 50: deleteproperty
    Row {
        operand: Operand::NameAt,
        takes: Takes::Two(Need::Runtime, Need::Value),
        gives: Gives::One(Source::Fixed(RowKind::Bool)),
        ..GOES_ON
    },
    // 51: getslot
    Row {
        takes: Takes::One(Need::Slotted),
        gives: Gives::One(Source::SlotKind),
        ..GOES_ON
    },
    // 52: setslot
    Row {
        takes: Takes::Two(Need::Value, Need::Slotted),
        ..GOES_ON
    },
    // 53: convert_s, coerce_s, typeof
    Row {
        takes: Takes::One(Need::Value),
        gives: Gives::One(Source::Fixed(RowKind::Text)),
        ..GOES_ON
    },
    // 54: convert_i, convert_u, convert_d, negate, increment, decrement, bitnot, increment_i, decrement_i, negate_i
    Row {
        takes: Takes::One(Need::Value),
        gives: Gives::One(Source::Fixed(RowKind::Num)),
        ..GOES_ON
    },
    // 55: convert_b, not
    Row {
        takes: Takes::One(Need::Value),
        gives: Gives::One(Source::Fixed(RowKind::Bool)),
        ..GOES_ON
    },
    // 56: convert_o
    Row {
        takes: Takes::One(Need::Value),
        gives: Gives::One(Source::Taken(0)),
        ..GOES_ON
    },
    // 57: coerce
    Row {
        operand: Operand::TypeOrAny,
        takes: Takes::One(Need::Value),
        gives: Gives::One(Source::TypeKind),
        ..GOES_ON
    },
    // 58: coerce_a
    Row {
        takes: Takes::One(Need::Value),
        gives: Gives::One(Source::Fixed(RowKind::Any)),
        ..GOES_ON
    },
    // 59: astype
    Row {
        operand: Operand::TypeAt,
        takes: Takes::One(Need::Value),
        gives: Gives::One(Source::AsTypeKind),
        ..GOES_ON
    },
    // 60: astypelate
    Row {
        takes: Takes::Two(Need::Value, Need::Value),
        gives: Gives::One(Source::Fixed(RowKind::Any)),
        ..GOES_ON
    },
    // 61: inclocal, declocal, inclocal_i, declocal_i
    Row {
        locals: Locals::Sets(Source::Fixed(RowKind::Num)),
        ..GOES_ON
    },
    // 62: add
    Row {
        takes: Takes::Two(Need::Value, Need::Value),
        gives: Gives::One(Source::SumKind),
        ..GOES_ON
    },
    // 63: subtract, multiply, divide, modulo, lshift, rshift, urshift, bitand, bitor, bitxor, add_i, subtract_i,
    // multiply_i
    Row {
        takes: Takes::Two(Need::Value, Need::Value),
        gives: Gives::One(Source::Fixed(RowKind::Num)),
        ..GOES_ON
    },
    // 64: equals, strictequals, lessthan, lessequals, greaterthan, greaterequals, instanceof, istypelate, in
    Row {
        takes: Takes::Two(Need::Value, Need::Value),
        gives: Gives::One(Source::Fixed(RowKind::Bool)),
        ..GOES_ON
    },
    // 65: istype
    Row {
        operand: Operand::TypeAt,
        takes: Takes::One(Need::Value),
        gives: Gives::One(Source::Fixed(RowKind::Bool)),
        ..GOES_ON
    },
    // 66: debug, debugfile
    Row {
        operand: Operand::StringAt,
        ..GOES_ON
    },
];

/// The number of the row of each opcode; 67, which no row has, where it is not run.
pub const NUMBERS: [u8; 256] = [
    67, 67, 0, 1, 2, 3, 67, 67, 4, 0, 67, 67, 5, 5, 5, 5, 6, 7, 7, 5, 5, 5, 5, 5, 5, 5, 5, 8, 9,
    10, 11, 12, 13, 14, 67, 15, 16, 16, 17, 17, 16, 18, 19, 20, 21, 22, 23, 24, 25, 26, 27, 67, 67,
    67, 67, 67, 67, 67, 67, 67, 67, 67, 67, 67, 28, 29, 30, 67, 67, 31, 32, 33, 1, 34, 32, 67, 32,
    67, 35, 36, 67, 67, 67, 67, 67, 37, 38, 39, 40, 67, 41, 67, 67, 42, 42, 67, 43, 44, 45, 46, 47,
    48, 49, 67, 44, 67, 50, 67, 51, 52, 67, 67, 53, 67, 67, 54, 54, 54, 55, 56, 67, 67, 67, 67, 67,
    67, 67, 67, 57, 67, 58, 67, 67, 53, 59, 60, 67, 67, 67, 67, 67, 67, 67, 67, 54, 54, 61, 54, 61,
    53, 55, 54, 67, 67, 67, 67, 67, 67, 67, 67, 62, 63, 63, 63, 63, 63, 63, 63, 63, 63, 63, 64, 64,
    64, 64, 64, 64, 64, 65, 64, 64, 67, 67, 67, 67, 67, 67, 67, 67, 67, 67, 67, 54, 54, 61, 61, 54,
    63, 63, 63, 67, 67, 67, 67, 67, 67, 67, 67, 45, 45, 45, 45, 46, 46, 46, 46, 67, 67, 67, 67, 67,
    67, 67, 67, 67, 67, 67, 67, 67, 67, 67, 67, 67, 67, 67, 67, 67, 67, 67, 66, 0, 66, 67, 67, 67,
    67, 67, 67, 67, 67, 67, 67, 67, 67, 67, 67,
];

/// The row with a number, if there is one.
fn fetch(rows: &[Row], number: u8) -> Option<Row>
    ensures { result ≡ slice_get rows.now number }
{
    rows.get(number as usize).copied()
}

fn number_of(numbers: &[u8; 256], op: u8) -> u8
    ensures { result ≡ get_or numbers.now op 0 }
{
    numbers[op as usize]
}

/// The row of an opcode, or `None` where it is not run.
#[tactic(auto, using(crate::proofs::Same::same_row))]
pub fn row_of(op: u8) -> Option<Row>
    ensures { shape_in result ≡ row_at op }
{
    fetch(&ROWS, number_of(&NUMBERS, op))
}
