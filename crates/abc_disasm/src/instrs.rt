//! The lines of instructions.
ghost use Rattle.std.specs.Prelude.{◌≡◌, ◌∷◌, ◌++◌, ◌<◌, [], ℕ, Some, IsSome, length};
ghost use Rattle.abc_disasm.specs.Texts.{HasShownForm, instr_text, labels};
ghost use Rattle.abc_text_lines.specs.Listing.{label_of};
ghost use Rattle.abc_file_types.specs.Opcodes.{form_at, pool_of};
ghost use Rattle.abc_file_types.specs.declared.code.Instr.TheVariants as instrs;
ghost use Rattle.abc_file_types.specs.declared.opcodes.Form.TheVariants as forms;
ghost use Rattle.abc_varint.specs.Puts.{Puts};

use crate::heads::put_head;
use abc_base::NoMemory;
use abc_file_types::{Instr, Pool, opcode};
use abc_text_writer::{
    Shown, push_byte, put, put_label, put_number, put_number_line, put_operand,
    put_operand_comment, put_signed, put_target,
};

/// The pool that an instruction's first operand names.
#[tactic(auto, using(crate::proofs::PutForms::pool_is, crate::proofs::PutForms::no_instruction))]
fn pool(op: u8) -> Pool
    ensures { IsSome (form_at op) → result ≡ pool_of op }
{
    match opcode(op) {
        Some(info) => info.pool,
        None => Pool::NoPool,
    }
}

/// An instruction without operands.
#[tactic(auto, using(abc_varint::proofs::Putting::stays, std::proofs::Common::append_assoc, crate::proofs::Begun::plain_line))]
fn put_plain(op: u8, _abc: &Shown<'_>, out: &mut Vec<u8>) -> Result<(), NoMemory>
    requires { form_at op ≡ Some forms.Plain }
    ensures { Puts out.old.items out.new.items result (instr_text _abc.now (instrs.Plain op)) }
{
    put_head(op, out)?;
    Ok(())
}

/// An instruction with a number.
#[tactic(auto, using(abc_varint::proofs::Putting::stays, std::proofs::Common::append_assoc, crate::proofs::Begun::one_line))]
fn put_one(op: u8, n: u32, abc: &Shown<'_>, out: &mut Vec<u8>) -> Result<(), NoMemory>
    requires { form_at op ≡ Some forms.One }
    ensures { Puts out.old.items out.new.items result (instr_text abc.now (instrs.One op n)) }
{
    put_head(op, out)?;
    put_operand(n, out)?;
    put_operand_comment(abc, pool(op), n, out)?;
    push_byte(b'\n', out)?;
    Ok(())
}

/// An instruction with two numbers.
#[tactic(auto, using(abc_varint::proofs::Putting::stays, std::proofs::Common::append_assoc, crate::proofs::Begun::two_line))]
fn put_pair(op: u8, n: u32, m: u32, abc: &Shown<'_>, out: &mut Vec<u8>) -> Result<(), NoMemory>
    requires { form_at op ≡ Some forms.Two }
    ensures { Puts out.old.items out.new.items result (instr_text abc.now (instrs.Two op n m)) }
{
    put_head(op, out)?;
    put_operand(n, out)?;
    put_number(m, out)?;
    put_operand_comment(abc, pool(op), n, out)?;
    push_byte(b'\n', out)?;
    Ok(())
}

/// A branch.
#[tactic(auto, using(abc_varint::proofs::Putting::stays, std::proofs::Common::append_assoc, crate::proofs::Begun::branch_line))]
fn put_branch(op: u8, target: u32, _abc: &Shown<'_>, out: &mut Vec<u8>) -> Result<(), NoMemory>
    requires { form_at op ≡ Some forms.Branch }
    ensures { Puts out.old.items out.new.items result (instr_text _abc.now (instrs.Branch op target)) }
{
    put_head(op, out)?;
    put_label(target, out)?;
    push_byte(b'\n', out)?;
    Ok(())
}

/// Each label behind a space.
#[tactic(auto, using(abc_varint::proofs::Putting::stays))]
fn put_targets(targets: &[u32], out: &mut Vec<u8>) -> Result<(), NoMemory>
    ensures { Puts out.old.items out.new.items result (labels targets.now) }
{
    for target in targets {
        put_target(*target, out)?;
    }
    Ok(())
}

/// A line of a word and labels.
#[tactic(auto, using(abc_varint::proofs::Putting::stays, std::proofs::Common::append_assoc))]
fn put_target_line(
    word: &[u8],
    default: u32,
    cases: &[u32],
    out: &mut Vec<u8>,
) -> Result<(), NoMemory>
    ensures { Puts out.old.items out.new.items result
        (word.now ++ ((0x20 ∷ label_of default) ++ (labels cases.now ++ 0x0a ∷ []))) }
{
    put(word, out)?;
    put_target(default, out)?;
    put_targets(cases, out)?;
    push_byte(b'\n', out)?;
    Ok(())
}

/// A switch.
#[tactic(auto, using(crate::proofs::PutForms::switch_text))]
fn put_switch(
    default: u32,
    cases: &[u32],
    _abc: &Shown<'_>,
    out: &mut Vec<u8>,
) -> Result<(), NoMemory>
    requires { 0 < length cases.now }
    ensures { Puts out.old.items out.new.items result
        (instr_text _abc.now (instrs.Switch default cases.now)) }
{
    put_target_line(b"lookupswitch", default, cases, out)
}

/// `pushbyte`
#[tactic(auto, using(abc_varint::proofs::Putting::stays, std::proofs::Common::append_assoc, crate::proofs::PutForms::byte_text))]
fn put_byte(value: i8, _abc: &Shown<'_>, out: &mut Vec<u8>) -> Result<(), NoMemory>
    ensures { Puts out.old.items out.new.items result (instr_text _abc.now (instrs.Byte value)) }
{
    put(b"pushbyte", out)?;
    put_signed(value as i32, out)?;
    push_byte(b'\n', out)?;
    Ok(())
}

/// `pushshort`
#[tactic(auto, using(abc_varint::proofs::Putting::stays, std::proofs::Common::append_assoc, crate::proofs::PutForms::short_text))]
fn put_short(value: i16, _abc: &Shown<'_>, out: &mut Vec<u8>) -> Result<(), NoMemory>
    ensures { Puts out.old.items out.new.items result (instr_text _abc.now (instrs.Short value)) }
{
    put(b"pushshort", out)?;
    put_signed(value as i32, out)?;
    push_byte(b'\n', out)?;
    Ok(())
}

/// `getscopeobject`
#[tactic(auto, using(abc_varint::proofs::Putting::stays, std::proofs::Common::append_assoc, crate::proofs::PutForms::scope_text))]
fn put_scope_object(n: u8, _abc: &Shown<'_>, out: &mut Vec<u8>) -> Result<(), NoMemory>
    ensures { Puts out.old.items out.new.items result (instr_text _abc.now (instrs.ScopeObject n)) }
{
    put_number_line(b"getscopeobject", n as u32, out)
}

/// `debug`
#[tactic(auto, using(abc_varint::proofs::Putting::stays, std::proofs::Common::append_assoc, crate::proofs::PutForms::debug_text))]
fn put_debug(
    kind: u8,
    name: u32,
    reg: u8,
    extra: u32,
    _abc: &Shown<'_>,
    out: &mut Vec<u8>,
) -> Result<(), NoMemory>
    ensures { Puts out.old.items out.new.items result
        (instr_text _abc.now (instrs.Debug kind name reg extra)) }
{
    put(b"debug", out)?;
    put_number(kind as u32, out)?;
    put_number(name, out)?;
    put_number(reg as u32, out)?;
    put_number(extra, out)?;
    push_byte(b'\n', out)?;
    Ok(())
}

/// The line of an instruction.
pub fn put_instr(instr: &Instr, abc: &Shown<'_>, out: &mut Vec<u8>) -> Result<(), NoMemory>
    requires { HasShownForm instr.now }
    ensures { Puts out.old.items out.new.items result (instr_text abc.now instr.now) }
{
    match instr {
        Instr::Plain(op) => put_plain(*op, abc, out),
        Instr::One(op, n) => put_one(*op, *n, abc, out),
        Instr::Two(op, n, m) => put_pair(*op, *n, *m, abc, out),
        Instr::Branch(op, target) => put_branch(*op, *target, abc, out),
        Instr::Switch { default, cases } => put_switch(*default, cases.as_slice(), abc, out),
        Instr::Byte(value) => put_byte(*value, abc, out),
        Instr::Short(value) => put_short(*value, abc, out),
        Instr::ScopeObject(n) => put_scope_object(*n, abc, out),
        Instr::Debug {
            kind,
            name,
            reg,
            extra,
        } => put_debug(*kind, *name, *reg, *extra, abc, out),
    }
}
