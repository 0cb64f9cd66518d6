ghost use Rattle.std.specs.Prelude.{◌≡◌, ◌≤◌, ℕ, List, None, Some, IfOk, OnErr, get_or, length};
ghost use Rattle.abc_file_types.specs.Opcodes.{form_at};
ghost use Rattle.abc_file_types.specs.declared.code.Instr.{Instr};
ghost use Rattle.abc_instr.specs.Fronts.{IsInstructionFront, PutsFront, TakesFront, front_length};
ghost use Rattle.abc_instr.specs.Reading.{done_in};
ghost use Rattle.abc_instr.specs.Scanning.{plain_bytes};

use crate::put::BYTE;
use abc_base::NoMemory;
use abc_file_types::{Form, U30_LIMIT, opcode};
use abc_varint::{Window, front_number, front_s24, put_u8, put_u30};

/// How many bytes have to be at hand: an opcode, and two numbers of five bytes.
pub(crate) const ROOM: u32 = 11;

/// An instruction at the front of some bytes.
#[derive(Clone, Copy, Debug)]
pub enum Front {
    /// One without targets, which was put, and so many bytes spell it.
    Put(usize),
    /// A branch with this opcode and offset.
    Branch(u8, i32),
}

impl Front {
    /// How many bytes spell it.
    #[inline(always)]
    pub fn count(self) -> usize
        ensures { result ≡ front_length self }
    {
        match self {
            Front::Put(count) => count,
            Front::Branch(_, _) => 4,
        }
    }
}

/// Puts an opcode.
#[inline(always)]
fn put_plain_front(bytes: &[u8], plain: &mut Vec<u8>) -> Result<Option<Front>, NoMemory>
    requires room { 11 ≤ length bytes.now }
    requires form { form_at (get_or bytes.now 0 0) ≡ Some Form.Plain }
    ensures { IfOk result (λ f. PutsFront plain_bytes f bytes.now plain.old.items plain.new.items) }
{
    put_u8(bytes[0], plain)?;
    Ok(Some(Front::Put(1)))
}

/// Puts an opcode and a number.
#[inline(always)]
fn put_one_front(bytes: &[u8], plain: &mut Vec<u8>) -> Result<Option<Front>, NoMemory>
    requires room { 11 ≤ length bytes.now }
    requires form { form_at (get_or bytes.now 0 0) ≡ Some Form.One }
    ensures { IfOk result (λ f. PutsFront plain_bytes f bytes.now plain.old.items plain.new.items) }
{
    let Some((n, count)) = front_number(&bytes[1..]) else {
        return Ok(None);
    };
    if n >= U30_LIMIT as u64 {
        return Ok(None);
    }
    put_u8(bytes[0], plain)?;
    put_u30(n as u32, plain)?;
    Ok(Some(Front::Put(1 + count)))
}

/// Puts an opcode and two numbers.
#[inline(always)]
fn put_two_front(bytes: &[u8], plain: &mut Vec<u8>) -> Result<Option<Front>, NoMemory>
    requires room { 11 ≤ length bytes.now }
    requires form { form_at (get_or bytes.now 0 0) ≡ Some Form.Two }
    ensures { IfOk result (λ f. PutsFront plain_bytes f bytes.now plain.old.items plain.new.items) }
{
    let Some((n, first)) = front_number(&bytes[1..]) else {
        return Ok(None);
    };
    let Some((m, second)) = front_number(&bytes[1 + first..]) else {
        return Ok(None);
    };
    if n >= U30_LIMIT as u64 || m >= U30_LIMIT as u64 {
        return Ok(None);
    }
    put_u8(bytes[0], plain)?;
    put_u30(n as u32, plain)?;
    put_u30(m as u32, plain)?;
    Ok(Some(Front::Put(1 + first + second)))
}

/// Puts `pushbyte`.
#[inline(always)]
fn put_byte_front(bytes: &[u8], plain: &mut Vec<u8>) -> Result<Option<Front>, NoMemory>
    requires room { 11 ≤ length bytes.now }
    requires form { form_at (get_or bytes.now 0 0) ≡ Some Form.Byte }
    ensures { IfOk result (λ f. PutsFront plain_bytes f bytes.now plain.old.items plain.new.items) }
{
    let x = bytes[1].cast_signed();
    put_u8(BYTE, plain)?;
    put_u8(x.cast_unsigned(), plain)?;
    Ok(Some(Front::Put(2)))
}

/// Gives a branch.
#[inline(always)]
pub fn branch_front(bytes: &[u8]) -> Front
    requires room { 11 ≤ length bytes.now }
    requires form { form_at (get_or bytes.now 0 0) ≡ Some Form.Branch }
    ensures put { (old : List ℕ) → IsInstructionFront plain_bytes result bytes.now old old }
    ensures done { (old : List Instr) → IsInstructionFront done_in result bytes.now old old }
{
    Front::Branch(bytes[0], front_s24(&bytes[1..]))
}

/// Puts the instruction that the bytes begin with, or gives it where it has targets. Nothing is put, and `None` given,
/// where they spell none or a rare one.
#[inline(always)]
#[tactic(auto, unfolding(abc_file_types::specs::Opcodes::form_at))]
fn put_front(bytes: &[u8], plain: &mut Vec<u8>) -> Result<Option<Front>, NoMemory>
    requires { 11 ≤ length bytes.now }
    ensures { IfOk result (λ f. PutsFront plain_bytes f bytes.now plain.old.items plain.new.items) }
{
    let Some(info) = opcode(bytes[0]) else {
        return Ok(None);
    };
    match info.form {
        Form::Plain => put_plain_front(bytes, plain),
        Form::One => put_one_front(bytes, plain),
        Form::Two => put_two_front(bytes, plain),
        Form::Byte => put_byte_front(bytes, plain),
        Form::Branch => Ok(Some(branch_front(bytes))),
        Form::Switch | Form::Short | Form::ScopeObject | Form::Debug => Ok(None),
    }
}

/// Puts the next instruction straight from the bytes that the window holds, or gives it where it has targets, and goes on
/// past it. `None`, and nothing changed, where that can't be done.
#[inline(always)]
pub(crate) fn take_front(w: &mut Window, plain: &mut Vec<u8>) -> Result<Option<Front>, NoMemory>
    ensures taken { IfOk result (λ f. TakesFront plain_bytes f w.old w.new plain.old.items plain.new.items) }
    ensures same { OnErr result (w.new ≡ w.old) }
{
    if !w.is_ready(ROOM) {
        return Ok(None);
    }
    match put_front(w.held(), plain)? {
        Some(front) => {
            w.go_on(front.count());
            Ok(Some(front))
        }
        None => Ok(None),
    }
}
