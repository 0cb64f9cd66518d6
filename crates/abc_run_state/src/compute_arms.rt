ghost use Rattle.std.specs.Prelude.{◌<◌, length};
ghost use Rattle.abc_frames.specs.Ready.{HasFrameRoom};
ghost use Rattle.abc_frames.specs.Frame.{newest};
ghost use Rattle.abc_run_state.specs.Outer.{Outer};
ghost use Rattle.abc_run_state.specs.Standing.{IsSet};
ghost use Rattle.abc_run_state.specs.Plain.{computes_both, computes_top, converts_top, counts_local, pushes_test};
ghost use Rattle.abc_run_state.specs.Doing.{Does};

use crate::operands::{local, operand};
use crate::parts::{compare, compute_one, compute_two, convert};
use crate::state::{State, Stop};
use abc_frames::{finish, go_on};
use abc_heap_values::{Conversion, Value};
use abc_link::Linked;

/// Converts the top operand.
#[inline(always)]
pub fn convert_top(linked: &Linked, s: &mut State, to: Conversion) -> Result<(), Stop>
    ghost out: { Outer }
    requires set { IsSet linked.now s.old }
    requires ready { HasFrameRoom 1 1 s.old.frames }
    ensures { Does linked.now out (λ p. converts_top p to) s.old result s.new }
{
    let v = operand(&s.frames, 0);
    let made = convert(linked, s, to, v)?;
    finish(&mut s.frames, 1, made);
    Ok(())
}

/// Replaces the top operand by what an opcode computes of it.
#[inline(always)]
pub fn compute_top(linked: &Linked, s: &mut State, op: u8) -> Result<(), Stop>
    ghost out: { Outer }
    requires set { IsSet linked.now s.old }
    requires ready { HasFrameRoom 1 1 s.old.frames }
    ensures { Does linked.now out (λ p. computes_top op) s.old result s.new }
{
    let v = operand(&s.frames, 0);
    let made = compute_one(linked, s, op, v)?;
    finish(&mut s.frames, 1, made);
    Ok(())
}

/// Replaces the two top operands by what an opcode computes of them.
#[inline(always)]
pub fn compute_both(linked: &Linked, s: &mut State, op: u8) -> Result<(), Stop>
    ghost out: { Outer }
    requires set { IsSet linked.now s.old }
    requires ready { HasFrameRoom 2 1 s.old.frames }
    ensures { Does linked.now out (λ p. computes_both p op) s.old result s.new }
{
    let x = operand(&s.frames, 1);
    let y = operand(&s.frames, 0);
    let v = compute_two(linked, s, op, x, y)?;
    finish(&mut s.frames, 2, v);
    Ok(())
}

/// Replaces the two top operands by how an opcode compares them.
#[inline(always)]
pub fn compare_top(linked: &Linked, s: &mut State, op: u8) -> Result<(), Stop>
    ghost out: { Outer }
    requires set { IsSet linked.now s.old }
    requires ready { HasFrameRoom 2 1 s.old.frames }
    ensures { Does linked.now out (λ p. pushes_test p op) s.old result s.new }
{
    let x = operand(&s.frames, 1);
    let y = operand(&s.frames, 0);
    let is = compare(linked, s, op, x, y)?;
    finish(&mut s.frames, 2, Value::Bool(is));
    Ok(())
}

/// A local counts by the operation of an opcode.
#[inline(always)]
pub fn count_local(linked: &Linked, s: &mut State, op: u8, n: u32) -> Result<(), Stop>
    ghost out: { Outer }
    requires set { IsSet linked.now s.old }
    requires ready { HasFrameRoom 0 0 s.old.frames }
    requires local { n < length (newest s.old.frames).locals }
    ensures { Does linked.now out (λ p. counts_local op n) s.old result s.new }
{
    let v = local(&s.frames, n);
    let made = compute_one(linked, s, op, v)?;
    s.frames.set_local(n, made);
    go_on(&mut s.frames);
    Ok(())
}
