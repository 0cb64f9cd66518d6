//! Instructions without targets that are taken straight from the bytes at hand.
ghost use Rattle.std.specs.Prelude.{◌≡◌, ◌≤◌, Some, IfOk, OnErr, get_or, length};
ghost use Rattle.abc_file_types.specs.Opcodes.{form_at};
ghost use Rattle.abc_instr.specs.Fronts.{PutsFront, TakesFront};
ghost use Rattle.abc_instr.specs.Reading.{done_in};

use crate::front::{Front, ROOM, branch_front};
use abc_base::{NoMemory, Table};
use abc_file_types::{Form, Instr, U30_LIMIT, opcode};
use abc_varint::{Window, front_number};

/// Adds an opcode alone.
#[inline(always)]
fn push_plain(bytes: &[u8], instrs: &mut Table<Instr>) -> Result<Option<Front>, NoMemory>
    requires room { 11 ≤ length bytes.now }
    requires form { form_at (get_or bytes.now 0 0) ≡ Some Form.Plain }
    ensures { IfOk result (λ f. PutsFront done_in f bytes.now instrs.old instrs.new) }
{
    instrs.push(Instr::Plain(bytes[0]))?;
    Ok(Some(Front::Put(1)))
}

/// Adds an opcode with a number.
#[inline(always)]
fn push_one(bytes: &[u8], instrs: &mut Table<Instr>) -> Result<Option<Front>, NoMemory>
    requires room { 11 ≤ length bytes.now }
    requires form { form_at (get_or bytes.now 0 0) ≡ Some Form.One }
    ensures { IfOk result (λ f. PutsFront done_in f bytes.now instrs.old instrs.new) }
{
    let Some((n, count)) = front_number(&bytes[1..]) else {
        return Ok(None);
    };
    if n >= U30_LIMIT as u64 {
        return Ok(None);
    }
    instrs.push(Instr::One(bytes[0], n as u32))?;
    Ok(Some(Front::Put(1 + count)))
}

/// Adds an opcode with two numbers.
#[inline(always)]
fn push_two(bytes: &[u8], instrs: &mut Table<Instr>) -> Result<Option<Front>, NoMemory>
    requires room { 11 ≤ length bytes.now }
    requires form { form_at (get_or bytes.now 0 0) ≡ Some Form.Two }
    ensures { IfOk result (λ f. PutsFront done_in f bytes.now instrs.old instrs.new) }
{
    let Some((n, first)) = front_number(&bytes[1..]) else {
        return Ok(None);
    };
    let Some((m, second)) = front_number(&bytes[1 + first..]) else {
        return Ok(None);
    };
    if n >= U30_LIMIT as u64 || m >= U30_LIMIT as u64 {
        return Ok(None);
    }
    instrs.push(Instr::Two(bytes[0], n as u32, m as u32))?;
    Ok(Some(Front::Put(1 + first + second)))
}

/// Adds `pushbyte`.
#[inline(always)]
fn push_byte(bytes: &[u8], instrs: &mut Table<Instr>) -> Result<Option<Front>, NoMemory>
    requires room { 11 ≤ length bytes.now }
    requires form { form_at (get_or bytes.now 0 0) ≡ Some Form.Byte }
    ensures { IfOk result (λ f. PutsFront done_in f bytes.now instrs.old instrs.new) }
{
    let x = bytes[1].cast_signed();
    instrs.push(Instr::Byte(x))?;
    Ok(Some(Front::Put(2)))
}

/// Adds the instruction that the bytes begin with, or gives it where it has targets. Nothing is added, and `None` given,
/// where they spell none or a rare one.
#[inline(always)]
#[tactic(auto, unfolding(abc_file_types::specs::Opcodes::form_at))]
fn push_front(bytes: &[u8], instrs: &mut Table<Instr>) -> Result<Option<Front>, NoMemory>
    requires { 11 ≤ length bytes.now }
    ensures { IfOk result (λ f. PutsFront done_in f bytes.now instrs.old instrs.new) }
{
    let Some(info) = opcode(bytes[0]) else {
        return Ok(None);
    };
    match info.form {
        Form::Plain => push_plain(bytes, instrs),
        Form::One => push_one(bytes, instrs),
        Form::Two => push_two(bytes, instrs),
        Form::Byte => push_byte(bytes, instrs),
        Form::Branch => Ok(Some(branch_front(bytes))),
        Form::Switch | Form::Short | Form::ScopeObject | Form::Debug => Ok(None),
    }
}

/// Adds the next instruction straight from the bytes that the window holds, or gives it where it has targets, and goes on
/// past it. `None`, and nothing changed, where that can't be done.
#[inline(always)]
pub(crate) fn push_next(
    w: &mut Window,
    instrs: &mut Table<Instr>,
) -> Result<Option<Front>, NoMemory>
    ensures taken { IfOk result (λ f. TakesFront done_in f w.old w.new instrs.old instrs.new) }
    ensures same { OnErr result (w.new ≡ w.old) }
{
    if !w.is_ready(ROOM) {
        return Ok(None);
    }
    match push_front(w.held(), instrs)? {
        Some(front) => {
            w.go_on(front.count());
            Ok(Some(front))
        }
        None => Ok(None),
    }
}
