ghost use Rattle.std.specs.Prelude.{◌<◌, ◌-◌, [], ◌∷◌, length, take};
ghost use Rattle.abc_meaning.specs.At.{goes, jumps, next_frame, after_pushes};
ghost use Rattle.abc_meaning.specs.Simple.{pushes_scope};
ghost use Rattle.abc_heap_values.specs.declared.values.Value.TheVariants.{Undefined};
ghost use Rattle.abc_frames.specs.Ready.{HasFrameRoom};
ghost use Rattle.abc_run_values.specs.Reads.{reads_local, reads_scope};
ghost use Rattle.abc_frames.specs.Frame.{after_drop, newest, newest_size, with_local};
ghost use Rattle.abc_run_state.specs.Operands.{operand_at};
ghost use Rattle.abc_run_state.specs.Outer.{Outer};
ghost use Rattle.abc_meaning.specs.World.{Throws, stop};
ghost use Rattle.abc_run_state.specs.Doing.{Does};

use abc_base::HostClass;
use abc_frames::{
    dup, get_local, get_scope_object, go_on, jump, kill, pop, pop_scope, push, push_scope,
    set_local, swap,
};
use abc_heap_values::Value;
use abc_link::Linked;
use abc_run_state::{State, Stop, operand};

/// It goes on at the next instruction.
#[inline(always)]
pub(crate) fn step_on(linked: &Linked, s: &mut State) -> Result<(), Stop>
    ghost out: { Outer }
    requires { HasFrameRoom 0 0 s.old.frames }
    ensures { Does linked.now out (λ p f. goes (next_frame f)) s.old result s.new }
{
    go_on(&mut s.frames);
    Ok(())
}

/// It goes on at an instruction.
#[inline(always)]
pub(crate) fn step_to(linked: &Linked, s: &mut State, target: u32) -> Result<(), Stop>
    ghost out: { Outer }
    requires { HasFrameRoom 0 0 s.old.frames }
    ensures { Does linked.now out (λ p f. goes (jumps target f)) s.old result s.new }
{
    jump(&mut s.frames, target);
    Ok(())
}

/// A value is pushed.
#[inline(always)]
pub(crate) fn push_value(linked: &Linked, s: &mut State, v: Value) -> Result<(), Stop>
    ghost out: { Outer }
    requires { HasFrameRoom 0 1 s.old.frames }
    ensures { Does linked.now out (λ p f. goes (after_pushes (v ∷ []) f)) s.old result s.new }
{
    push(&mut s.frames, v);
    Ok(())
}

/// The top operand is dropped.
#[inline(always)]
pub(crate) fn drop_top(linked: &Linked, s: &mut State) -> Result<(), Stop>
    ghost out: { Outer }
    requires { HasFrameRoom 1 0 s.old.frames }
    ensures { Does linked.now out (λ p f. goes (next_frame (after_drop 1 f))) s.old result s.new }
{
    pop(&mut s.frames);
    Ok(())
}

/// The top operand is pushed once more.
#[inline(always)]
pub(crate) fn double_top(linked: &Linked, s: &mut State) -> Result<(), Stop>
    ghost out: { Outer }
    requires { HasFrameRoom 1 2 s.old.frames }
    ensures { Does linked.now out
        (λ p f. goes (after_pushes (operand_at 0 f ∷ operand_at 0 f ∷ []) (after_drop 1 f))) s.old result
        s.new }
{
    dup(&mut s.frames);
    Ok(())
}

/// The two top operands are exchanged.
#[inline(always)]
pub(crate) fn exchange(linked: &Linked, s: &mut State) -> Result<(), Stop>
    ghost out: { Outer }
    requires { HasFrameRoom 2 2 s.old.frames }
    ensures { Does linked.now out
        (λ p f. goes (after_pushes (operand_at 1 f ∷ operand_at 0 f ∷ []) (after_drop 2 f))) s.old result
        s.new }
{
    swap(&mut s.frames);
    Ok(())
}

/// The top operand is thrown.
pub(crate) fn throw_top(linked: &Linked, s: &mut State) -> Result<(), Stop>
    ghost out: { Outer }
    requires { HasFrameRoom 1 0 s.old.frames }
    ensures { Does linked.now out (λ p f. stop (Throws (operand_at 0 f))) s.old result s.new }
{
    Err(Stop::Throws(operand(&s.frames, 0)))
}

/// A local is pushed.
#[inline(always)]
pub(crate) fn read_local(linked: &Linked, s: &mut State, n: u32) -> Result<(), Stop>
    ghost out: { Outer }
    requires ready { HasFrameRoom 0 1 s.old.frames }
    requires local { n < length (newest s.old.frames).locals }
    ensures { Does linked.now out (λ p. reads_local n) s.old result s.new }
{
    get_local(&mut s.frames, n);
    Ok(())
}

/// A local takes the top operand.
#[inline(always)]
pub(crate) fn take_local(linked: &Linked, s: &mut State, n: u32) -> Result<(), Stop>
    ghost out: { Outer }
    requires ready { HasFrameRoom 1 0 s.old.frames }
    requires local { n < length (newest s.old.frames).locals }
    ensures { Does linked.now out (λ p f. goes (next_frame (with_local n (operand_at 0 f) (after_drop 1 f))))
        s.old result s.new }
{
    set_local(&mut s.frames, n);
    Ok(())
}

/// A local becomes undefined.
pub(crate) fn clear_local(linked: &Linked, s: &mut State, n: u32) -> Result<(), Stop>
    ghost out: { Outer }
    requires ready { HasFrameRoom 0 0 s.old.frames }
    requires local { n < length (newest s.old.frames).locals }
    ensures { Does linked.now out (λ p f. goes (next_frame (with_local n Undefined f))) s.old result s.new }
{
    kill(&mut s.frames, n);
    Ok(())
}

/// The top operand goes onto the scopes; where it is no object, a TypeError is thrown.
pub(crate) fn enter_scope(linked: &Linked, s: &mut State, with_flag: bool) -> Result<(), Stop>
    ghost out: { Outer }
    requires ready { HasFrameRoom 1 0 s.old.frames }
    requires room { length (newest s.old.frames).scopes < (newest_size s.old.frames).scopes }
    ensures { Does linked.now out (λ p f. pushes_scope with_flag (after_drop 1 f) (operand_at 0 f)) s.old
        result s.new }
{
    if push_scope(&mut s.frames, with_flag) {
        Ok(())
    } else {
        Err(Stop::Errs(HostClass::TypeError))
    }
}

/// The top scope is dropped.
pub(crate) fn leave_scope(linked: &Linked, s: &mut State) -> Result<(), Stop>
    ghost out: { Outer }
    requires ready { HasFrameRoom 0 0 s.old.frames }
    requires scope { 0 < length (newest s.old.frames).scopes }
    ensures { Does linked.now out
        (λ p f. goes (next_frame (record f { scopes = take (length f.scopes - 1) f.scopes }))) s.old result
        s.new }
{
    pop_scope(&mut s.frames);
    Ok(())
}

/// The object of a local scope is pushed, which is counted from the bottom.
pub(crate) fn read_scope(linked: &Linked, s: &mut State, n: u8) -> Result<(), Stop>
    ghost out: { Outer }
    requires ready { HasFrameRoom 0 1 s.old.frames }
    requires scope { n < length (newest s.old.frames).scopes }
    ensures { Does linked.now out (λ p. reads_scope n) s.old result s.new }
{
    get_scope_object(&mut s.frames, n);
    Ok(())
}
