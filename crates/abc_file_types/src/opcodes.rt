ghost use Rattle.std.specs.Prelude.{◌≡◌, option_map, take};
ghost use Rattle.abc_file_types.specs.Opcodes.{info_at, name_at};
ghost use Rattle.abc_file_types.specs.Rows.{info_in, name_in_row};
ghost use Rattle.abc_file_types.specs.declared.opcodes.TheConstants.{OPCODES as rows_of_code};

/// What follows an opcode: one form for each variant of `Instr`.
#[derive(Clone, Copy, Debug, PartialEq, Eq)]
pub enum Form {
    Plain,
    One,
    Two,
    Branch,
    Switch,
    Byte,
    Short,
    ScopeObject,
    Debug,
}

/// The pool that the first operand of an instruction names; that of `debug` is its second.
#[derive(Clone, Copy, Debug, PartialEq, Eq)]
pub enum Pool {
    /// The first operand, if there is one, names no pool.
    NoPool,
    Int,
    UInt,
    Double,
    Text,
    Space,
    Name,
}

/// What the table of instructions says of an opcode.
#[derive(Clone, Copy, Debug, PartialEq, Eq)]
pub struct OpInfo {
    pub form: Form,
    pub pool: Pool,
}

/// A row of the table of instructions: the name, padded with blanks, how many bytes it has, what follows the opcode, and
/// the pool.
type Row = ([u8; 16], u8, Form, Pool);

/// The instructions by their opcodes (Overview, chapter 5), with the operands that the file format gives them.
pub const OPCODES: [Option<Row>; 256] = [
    // 00 to 0f
    None,
    None,
    Some((*b"nop             ", 3, Form::Plain, Pool::NoPool)),
    Some((*b"throw           ", 5, Form::Plain, Pool::NoPool)),
    Some((*b"getsuper        ", 8, Form::One, Pool::Name)),
    Some((*b"setsuper        ", 8, Form::One, Pool::Name)),
    Some((*b"dxns            ", 4, Form::One, Pool::Text)),
    Some((*b"dxnslate        ", 8, Form::Plain, Pool::NoPool)),
    Some((*b"kill            ", 4, Form::One, Pool::NoPool)),
    Some((*b"label           ", 5, Form::Plain, Pool::NoPool)),
    None,
    None,
    Some((*b"ifnlt           ", 5, Form::Branch, Pool::NoPool)),
    Some((*b"ifnle           ", 5, Form::Branch, Pool::NoPool)),
    Some((*b"ifngt           ", 5, Form::Branch, Pool::NoPool)),
    Some((*b"ifnge           ", 5, Form::Branch, Pool::NoPool)),
    // 10 to 1f
    Some((*b"jump            ", 4, Form::Branch, Pool::NoPool)),
    Some((*b"iftrue          ", 6, Form::Branch, Pool::NoPool)),
    Some((*b"iffalse         ", 7, Form::Branch, Pool::NoPool)),
    Some((*b"ifeq            ", 4, Form::Branch, Pool::NoPool)),
    Some((*b"ifne            ", 4, Form::Branch, Pool::NoPool)),
    Some((*b"iflt            ", 4, Form::Branch, Pool::NoPool)),
    Some((*b"ifle            ", 4, Form::Branch, Pool::NoPool)),
    Some((*b"ifgt            ", 4, Form::Branch, Pool::NoPool)),
    Some((*b"ifge            ", 4, Form::Branch, Pool::NoPool)),
    Some((*b"ifstricteq      ", 10, Form::Branch, Pool::NoPool)),
    Some((*b"ifstrictne      ", 10, Form::Branch, Pool::NoPool)),
    Some((*b"lookupswitch    ", 12, Form::Switch, Pool::NoPool)),
    Some((*b"pushwith        ", 8, Form::Plain, Pool::NoPool)),
    Some((*b"popscope        ", 8, Form::Plain, Pool::NoPool)),
    Some((*b"nextname        ", 8, Form::Plain, Pool::NoPool)),
    Some((*b"hasnext         ", 7, Form::Plain, Pool::NoPool)),
    // 20 to 2f
    Some((*b"pushnull        ", 8, Form::Plain, Pool::NoPool)),
    Some((*b"pushundefined   ", 13, Form::Plain, Pool::NoPool)),
    None,
    Some((*b"nextvalue       ", 9, Form::Plain, Pool::NoPool)),
    Some((*b"pushbyte        ", 8, Form::Byte, Pool::NoPool)),
    Some((*b"pushshort       ", 9, Form::Short, Pool::NoPool)),
    Some((*b"pushtrue        ", 8, Form::Plain, Pool::NoPool)),
    Some((*b"pushfalse       ", 9, Form::Plain, Pool::NoPool)),
    Some((*b"pushnan         ", 7, Form::Plain, Pool::NoPool)),
    Some((*b"pop             ", 3, Form::Plain, Pool::NoPool)),
    Some((*b"dup             ", 3, Form::Plain, Pool::NoPool)),
    Some((*b"swap            ", 4, Form::Plain, Pool::NoPool)),
    Some((*b"pushstring      ", 10, Form::One, Pool::Text)),
    Some((*b"pushint         ", 7, Form::One, Pool::Int)),
    Some((*b"pushuint        ", 8, Form::One, Pool::UInt)),
    Some((*b"pushdouble      ", 10, Form::One, Pool::Double)),
    // 30 to 3f
    Some((*b"pushscope       ", 9, Form::Plain, Pool::NoPool)),
    Some((*b"pushnamespace   ", 13, Form::One, Pool::Space)),
    Some((*b"hasnext2        ", 8, Form::Two, Pool::NoPool)),
    None,
    None,
    None,
    None,
    None,
    None,
    None,
    None,
    None,
    None,
    None,
    None,
    None,
    // 40 to 4f
    Some((*b"newfunction     ", 11, Form::One, Pool::NoPool)),
    Some((*b"call            ", 4, Form::One, Pool::NoPool)),
    Some((*b"construct       ", 9, Form::One, Pool::NoPool)),
    Some((*b"callmethod      ", 10, Form::Two, Pool::NoPool)),
    Some((*b"callstatic      ", 10, Form::Two, Pool::NoPool)),
    Some((*b"callsuper       ", 9, Form::Two, Pool::Name)),
    Some((*b"callproperty    ", 12, Form::Two, Pool::Name)),
    Some((*b"returnvoid      ", 10, Form::Plain, Pool::NoPool)),
    Some((*b"returnvalue     ", 11, Form::Plain, Pool::NoPool)),
    Some((*b"constructsuper  ", 14, Form::One, Pool::NoPool)),
    Some((*b"constructprop   ", 13, Form::Two, Pool::Name)),
    None,
    Some((*b"callproplex     ", 11, Form::Two, Pool::Name)),
    None,
    Some((*b"callsupervoid   ", 13, Form::Two, Pool::Name)),
    Some((*b"callpropvoid    ", 12, Form::Two, Pool::Name)),
    // 50 to 5f
    None,
    None,
    None,
    Some((*b"applytype       ", 9, Form::One, Pool::NoPool)),
    None,
    Some((*b"newobject       ", 9, Form::One, Pool::NoPool)),
    Some((*b"newarray        ", 8, Form::One, Pool::NoPool)),
    Some((*b"newactivation   ", 13, Form::Plain, Pool::NoPool)),
    Some((*b"newclass        ", 8, Form::One, Pool::NoPool)),
    Some((*b"getdescendants  ", 14, Form::One, Pool::Name)),
    Some((*b"newcatch        ", 8, Form::One, Pool::NoPool)),
    None,
    None,
    Some((*b"findpropstrict  ", 14, Form::One, Pool::Name)),
    Some((*b"findproperty    ", 12, Form::One, Pool::Name)),
    None,
    // 60 to 6f
    Some((*b"getlex          ", 6, Form::One, Pool::Name)),
    Some((*b"setproperty     ", 11, Form::One, Pool::Name)),
    Some((*b"getlocal        ", 8, Form::One, Pool::NoPool)),
    Some((*b"setlocal        ", 8, Form::One, Pool::NoPool)),
    Some((*b"getglobalscope  ", 14, Form::Plain, Pool::NoPool)),
    Some((*b"getscopeobject  ", 14, Form::ScopeObject, Pool::NoPool)),
    Some((*b"getproperty     ", 11, Form::One, Pool::Name)),
    None,
    Some((*b"initproperty    ", 12, Form::One, Pool::Name)),
    None,
    Some((*b"deleteproperty  ", 14, Form::One, Pool::Name)),
    None,
    Some((*b"getslot         ", 7, Form::One, Pool::NoPool)),
    Some((*b"setslot         ", 7, Form::One, Pool::NoPool)),
    Some((*b"getglobalslot   ", 13, Form::One, Pool::NoPool)),
    Some((*b"setglobalslot   ", 13, Form::One, Pool::NoPool)),
    // 70 to 7f
    Some((*b"convert_s       ", 9, Form::Plain, Pool::NoPool)),
    Some((*b"esc_xelem       ", 9, Form::Plain, Pool::NoPool)),
    Some((*b"esc_xattr       ", 9, Form::Plain, Pool::NoPool)),
    Some((*b"convert_i       ", 9, Form::Plain, Pool::NoPool)),
    Some((*b"convert_u       ", 9, Form::Plain, Pool::NoPool)),
    Some((*b"convert_d       ", 9, Form::Plain, Pool::NoPool)),
    Some((*b"convert_b       ", 9, Form::Plain, Pool::NoPool)),
    Some((*b"convert_o       ", 9, Form::Plain, Pool::NoPool)),
    Some((*b"checkfilter     ", 11, Form::Plain, Pool::NoPool)),
    None,
    None,
    None,
    None,
    None,
    None,
    None,
    // 80 to 8f
    Some((*b"coerce          ", 6, Form::One, Pool::Name)),
    None,
    Some((*b"coerce_a        ", 8, Form::Plain, Pool::NoPool)),
    None,
    None,
    Some((*b"coerce_s        ", 8, Form::Plain, Pool::NoPool)),
    Some((*b"astype          ", 6, Form::One, Pool::Name)),
    Some((*b"astypelate      ", 10, Form::Plain, Pool::NoPool)),
    None,
    None,
    None,
    None,
    None,
    None,
    None,
    None,
    // 90 to 9f
    Some((*b"negate          ", 6, Form::Plain, Pool::NoPool)),
    Some((*b"increment       ", 9, Form::Plain, Pool::NoPool)),
    Some((*b"inclocal        ", 8, Form::One, Pool::NoPool)),
    Some((*b"decrement       ", 9, Form::Plain, Pool::NoPool)),
    Some((*b"declocal        ", 8, Form::One, Pool::NoPool)),
    Some((*b"typeof          ", 6, Form::Plain, Pool::NoPool)),
    Some((*b"not             ", 3, Form::Plain, Pool::NoPool)),
    Some((*b"bitnot          ", 6, Form::Plain, Pool::NoPool)),
    None,
    None,
    None,
    None,
    None,
    None,
    None,
    None,
    // a0 to af
    Some((*b"add             ", 3, Form::Plain, Pool::NoPool)),
    Some((*b"subtract        ", 8, Form::Plain, Pool::NoPool)),
    Some((*b"multiply        ", 8, Form::Plain, Pool::NoPool)),
    Some((*b"divide          ", 6, Form::Plain, Pool::NoPool)),
    Some((*b"modulo          ", 6, Form::Plain, Pool::NoPool)),
    Some((*b"lshift          ", 6, Form::Plain, Pool::NoPool)),
    Some((*b"rshift          ", 6, Form::Plain, Pool::NoPool)),
    Some((*b"urshift         ", 7, Form::Plain, Pool::NoPool)),
    Some((*b"bitand          ", 6, Form::Plain, Pool::NoPool)),
    Some((*b"bitor           ", 5, Form::Plain, Pool::NoPool)),
    Some((*b"bitxor          ", 6, Form::Plain, Pool::NoPool)),
    Some((*b"equals          ", 6, Form::Plain, Pool::NoPool)),
    Some((*b"strictequals    ", 12, Form::Plain, Pool::NoPool)),
    Some((*b"lessthan        ", 8, Form::Plain, Pool::NoPool)),
    Some((*b"lessequals      ", 10, Form::Plain, Pool::NoPool)),
    Some((*b"greaterthan     ", 11, Form::Plain, Pool::NoPool)),
    // b0 to bf
    Some((*b"greaterequals   ", 13, Form::Plain, Pool::NoPool)),
    Some((*b"instanceof      ", 10, Form::Plain, Pool::NoPool)),
    Some((*b"istype          ", 6, Form::One, Pool::Name)),
    Some((*b"istypelate      ", 10, Form::Plain, Pool::NoPool)),
    Some((*b"in              ", 2, Form::Plain, Pool::NoPool)),
    None,
    None,
    None,
    None,
    None,
    None,
    None,
    None,
    None,
    None,
    None,
    // c0 to cf
    Some((*b"increment_i     ", 11, Form::Plain, Pool::NoPool)),
    Some((*b"decrement_i     ", 11, Form::Plain, Pool::NoPool)),
    Some((*b"inclocal_i      ", 10, Form::One, Pool::NoPool)),
    Some((*b"declocal_i      ", 10, Form::One, Pool::NoPool)),
    Some((*b"negate_i        ", 8, Form::Plain, Pool::NoPool)),
    Some((*b"add_i           ", 5, Form::Plain, Pool::NoPool)),
    Some((*b"subtract_i      ", 10, Form::Plain, Pool::NoPool)),
    Some((*b"multiply_i      ", 10, Form::Plain, Pool::NoPool)),
    None,
    None,
    None,
    None,
    None,
    None,
    None,
    None,
    // d0 to df
    Some((*b"getlocal_0      ", 10, Form::Plain, Pool::NoPool)),
    Some((*b"getlocal_1      ", 10, Form::Plain, Pool::NoPool)),
    Some((*b"getlocal_2      ", 10, Form::Plain, Pool::NoPool)),
    Some((*b"getlocal_3      ", 10, Form::Plain, Pool::NoPool)),
    Some((*b"setlocal_0      ", 10, Form::Plain, Pool::NoPool)),
    Some((*b"setlocal_1      ", 10, Form::Plain, Pool::NoPool)),
    Some((*b"setlocal_2      ", 10, Form::Plain, Pool::NoPool)),
    Some((*b"setlocal_3      ", 10, Form::Plain, Pool::NoPool)),
    None,
    None,
    None,
    None,
    None,
    None,
    None,
    None,
    // e0 to ef
    None,
    None,
    None,
    None,
    None,
    None,
    None,
    None,
    None,
    None,
    None,
    None,
    None,
    None,
    None,
    Some((*b"debug           ", 5, Form::Debug, Pool::Text)),
    // f0 to ff
    Some((*b"debugline       ", 9, Form::One, Pool::NoPool)),
    Some((*b"debugfile       ", 9, Form::One, Pool::Text)),
    None,
    None,
    None,
    None,
    None,
    None,
    None,
    None,
    None,
    None,
    None,
    None,
    None,
    None,
];

/// The row of an opcode.
#[inline]
fn row_at<'a>(rows: &'a [Option<Row>; 256], op: u8) -> &'a Option<Row>
    requires { rows.now ≡ rows_of_code }
    ensures info { info_in result.now ≡ info_at op }
    ensures name { name_in_row result.now ≡ name_at op }
{
    &rows[op as usize]
}

/// What follows the opcode, and the pool that its operand names, or `None` where no instruction has the opcode.
#[inline]
pub fn opcode(op: u8) -> Option<OpInfo>
    ensures { result ≡ info_at op }
{
    match row_at(&OPCODES, op) {
        Some((_, _, form, pool)) => Some(OpInfo {
            form: *form,
            pool: *pool,
        }),
        None => None,
    }
}

/// A name of so many bytes, without the blanks behind it.
#[inline(always)]
fn without_blanks(name: &[u8; 16], len: u8) -> &[u8]
    ensures { result.now ≡ take len name.now }
{
    &name[..(len as usize).min(name.len())]
}

/// The name of the instruction with this opcode, as assembly texts write it, or `None` where there is none.
pub fn mnemonic(op: u8) -> Option<&'static [u8]>
    ensures { option_map (λ s. s.now) result ≡ name_at op }
{
    match row_at(&OPCODES, op) {
        Some(row) => Some(without_blanks(&row.0, row.1)),
        None => None,
    }
}
