ghost use Rattle.std.specs.Prelude.{◌≡◌, ◌≤◌, ◌<◌, ◌-◌, ◌^◌, ◌++◌, ◌∷◌, [], length, get_or, All};
ghost use Rattle.std.specs.List.{flat_map};
ghost use Rattle.abc_base.specs.Numbers.{number_bytes};
ghost use Rattle.abc_file_types.specs.Canonical.{s24_bytes};
ghost use Rattle.abc_varint.specs.Puts.{Puts};
ghost use Rattle.abc_file_types.specs.Starts.{start};
ghost use Rattle.abc_instr.specs.Pieces.{aimed_bytes, free_bytes};
ghost use Rattle.abc_file_types.specs.CodeBytes.{code_len as total, instr_len as len_of, offset as offset_of, with_lengths};
ghost use Rattle.abc_file_types.specs.Ready.{CanSpell, Small};

use abc_base::{NoMemory, Table};
use abc_file_types::{Instr, instr_len};
use abc_varint::{put_count, put_s24, put_u8, put_u30, put_u32};

/// `lookupswitch`
pub const SWITCH: u8 = 0x1b;

/// `pushbyte`
pub const BYTE: u8 = 0x24;

/// `pushshort`
const SHORT: u8 = 0x25;

/// `getscopeobject`
const SCOPE_OBJECT: u8 = 0x65;

/// `debug`
const DEBUG: u8 = 0xef;

/// How many bytes the instruction has.
pub fn short_len(instr: &Instr) -> u32
    requires { len_of instr.now < 2 ^ 32 }
    ensures { result ≡ len_of instr.now }
{
    instr_len(instr) as u32
}

/// Where an instruction starts in the canonical code, or where the code ends. Instructions count from 0.
#[tactic(auto, using(abc_file_types::proofs::Lengths::start_step, abc_file_types::proofs::Lengths::len_step))]
pub fn offset_at(code: &Table<Instr>, index: u32) -> u32
    requires index { index ≤ length code.now }
    requires short { total code.now < 2 ^ 23 }
    ensures { result ≡ start (with_lengths code.now) index }
{
    let mut here = 0;
    for i in 0..index as usize {
        here += short_len(code.get(i));
    }
    here
}

/// Appends the offset from a base to where the target starts.
fn put_offset(starts: &[u32], base: u32, target: u32, out: &mut Vec<u8>) -> Result<(), NoMemory>
    requires target { target < length starts.now }
    requires start { get_or starts.now target 0 < 2 ^ 23 }
    requires base { base < 2 ^ 23 }
    ensures { Puts out.old.items out.new.items result (s24_bytes (offset_of starts.now base target)) }
{
    let start = starts[target as usize];
    put_s24(start as i32 - base as i32, out)
}

/// Appends the offsets from a base to where each target starts.
#[tactic(auto, using(abc_varint::proofs::Putting::stays))]
fn put_offsets(
    starts: &[u32],
    base: u32,
    targets: &Table<u32>,
    out: &mut Vec<u8>,
) -> Result<(), NoMemory>
    requires targets { All (λ t. (t < length starts.now) × (get_or starts.now t 0 < 2 ^ 23)) targets.now }
    requires base { base < 2 ^ 23 }
    ensures { Puts out.old.items out.new.items result
        (flat_map (λ t. s24_bytes (offset_of starts.now base t)) targets.now) }
{
    for target in targets.as_slice() {
        put_offset(starts, base, *target, out)?;
    }
    Ok(())
}

/// Appends an opcode.
fn put_opcode(op: u8, out: &mut Vec<u8>) -> Result<(), NoMemory>
    ensures { Puts out.old.items out.new.items result (op ∷ []) }
{
    put_u8(op, out)?;
    Ok(())
}

/// Appends an opcode and a number.
#[tactic(auto, using(abc_varint::proofs::Putting::stays, std::proofs::Common::append_assoc))]
fn put_one(op: u8, n: u32, out: &mut Vec<u8>) -> Result<(), NoMemory>
    ensures { Puts out.old.items out.new.items result (op ∷ number_bytes n) }
{
    put_u8(op, out)?;
    put_u32(n, out)?;
    Ok(())
}

/// Appends an opcode and two numbers.
#[tactic(auto, using(abc_varint::proofs::Putting::stays, std::proofs::Common::append_assoc))]
fn put_two(op: u8, n: u32, m: u32, out: &mut Vec<u8>) -> Result<(), NoMemory>
    ensures { Puts out.old.items out.new.items result (op ∷ (number_bytes n ++ number_bytes m)) }
{
    put_u8(op, out)?;
    put_u30(n, out)?;
    put_u30(m, out)?;
    Ok(())
}

/// Appends an opcode and a byte.
#[tactic(auto, using(abc_varint::proofs::Putting::stays, std::proofs::Common::append_assoc))]
fn put_byte(op: u8, x: u8, out: &mut Vec<u8>) -> Result<(), NoMemory>
    ensures { Puts out.old.items out.new.items result (op ∷ x ∷ []) }
{
    put_u8(op, out)?;
    put_u8(x, out)?;
    Ok(())
}

/// Appends `debug` with its operands.
#[tactic(auto, using(abc_varint::proofs::Putting::stays, std::proofs::Common::append_assoc))]
fn put_debug(kind: u8, name: u32, reg: u8, extra: u32, out: &mut Vec<u8>) -> Result<(), NoMemory>
    ensures { Puts out.old.items out.new.items result
        (0xef ∷ kind ∷ (number_bytes name ++ reg ∷ number_bytes extra)) }
{
    put_u8(DEBUG, out)?;
    put_u8(kind, out)?;
    put_u30(name, out)?;
    put_u8(reg, out)?;
    put_u30(extra, out)?;
    Ok(())
}

/// Appends a branch, whose offset counts from its end.
#[tactic(auto, using(abc_varint::proofs::Putting::stays, std::proofs::Common::append_assoc))]
fn put_branch(
    op: u8,
    starts: &[u32],
    next: u32,
    target: u32,
    out: &mut Vec<u8>,
) -> Result<(), NoMemory>
    requires target { target < length starts.now }
    requires start { get_or starts.now target 0 < 2 ^ 23 }
    requires next { next < 2 ^ 23 }
    ensures { Puts out.old.items out.new.items result (op ∷ s24_bytes (offset_of starts.now next target)) }
{
    put_u8(op, out)?;
    put_offset(starts, next, target, out)?;
    Ok(())
}

/// Appends a switch, whose offsets count from its start: the default, how many cases there are but one, and the cases.
#[tactic(auto, using(abc_varint::proofs::Putting::stays, std::proofs::Common::append_assoc))]
fn put_switch(
    starts: &[u32],
    here: u32,
    default: u32,
    cases: &Table<u32>,
    out: &mut Vec<u8>,
) -> Result<(), NoMemory>
    requires default { (default < length starts.now) × (get_or starts.now default 0 < 2 ^ 23) }
    requires cases { All (λ t. (t < length starts.now) × (get_or starts.now t 0 < 2 ^ 23)) cases.now }
    requires here { here < 2 ^ 23 }
    ensures { Puts out.old.items out.new.items result (0x1b
        ∷ (s24_bytes (offset_of starts.now here default)
        ++ (number_bytes (length cases.now - 1)
        ++ flat_map (λ t. s24_bytes (offset_of starts.now here t)) cases.now))) }
{
    put_u8(SWITCH, out)?;
    put_offset(starts, here, default, out)?;
    put_count(cases.len().saturating_sub(1), out)?;
    put_offsets(starts, here, cases, out)?;
    Ok(())
}

/// Appends an instruction without targets; of one with some nothing.
#[inline(always)]
pub fn put_free(instr: &Instr, out: &mut Vec<u8>) -> Result<(), NoMemory>
    ensures { Puts out.old.items out.new.items result (free_bytes instr.now) }
{
    match instr {
        Instr::Plain(op) => put_opcode(*op, out),
        Instr::One(op, n) => put_one(*op, *n, out),
        Instr::Two(op, n, m) => put_two(*op, *n, *m, out),
        Instr::Branch(_, _) => Ok(()),
        Instr::Switch { .. } => Ok(()),
        Instr::Byte(x) => put_byte(BYTE, x.cast_unsigned(), out),
        Instr::Short(x) => put_one(SHORT, x.cast_unsigned() as u32, out),
        Instr::ScopeObject(x) => put_byte(SCOPE_OBJECT, *x, out),
        Instr::Debug {
            kind,
            name,
            reg,
            extra,
        } => put_debug(*kind, *name, *reg, *extra, out),
    }
}

/// Appends an instruction with targets, from `here` to `next` of the canonical code, whose instructions start so; its
/// targets are numbers of them, and each stands as an offset. Of one without targets it appends nothing.
pub fn put_aimed(
    instr: &Instr,
    starts: &[u32],
    here: u32,
    next: u32,
    out: &mut Vec<u8>,
) -> Result<(), NoMemory>
    requires can { CanSpell (length starts.now - 1) instr.now }
    requires some { 0 < length starts.now }
    requires small { Small starts.now (length starts.now - 1) }
    requires here { here < 2 ^ 23 }
    requires next { next < 2 ^ 23 }
    ensures { Puts out.old.items out.new.items result (aimed_bytes starts.now here next instr.now) }
{
    match instr {
        Instr::Branch(op, target) => put_branch(*op, starts, next, *target, out),
        Instr::Switch { default, cases } => put_switch(starts, here, *default, cases.list(), out),
        Instr::Plain(_) => Ok(()),
        Instr::One(_, _) => Ok(()),
        Instr::Two(_, _, _) => Ok(()),
        Instr::Byte(_) => Ok(()),
        Instr::Short(_) => Ok(()),
        Instr::ScopeObject(_) => Ok(()),
        Instr::Debug { .. } => Ok(()),
    }
}
