ghost use Rattle.std.specs.Prelude.{◌≡◌, ◌<◌, ◌≤◌, [], ◌∷◌, length, Some, slice_get};
ghost use Rattle.abc_heap_values.specs.declared.values.Value.{Value};
ghost use Rattle.abc_frames.specs.Frame.{newest, with_newest, at_place};
ghost use Rattle.abc_frames.specs.Moves.{after_branch, after_dup, after_finish, after_kill, after_pop, after_store, after_swap, dropped_on, next, next_with};
ghost use Rattle.abc_frames.specs.Ready.{HasFrameRoom};

use crate::frames::Frames;
use abc_heap_values::Value;

/// Goes on at the next instruction.
#[inline]
pub fn go_on(frames: &mut Frames)
    requires { HasFrameRoom 0 0 frames.old }
    ensures { frames.new ≡ with_newest next frames.old }
{
    let place = frames.place();
    frames.go(place + 1);
}

/// Goes on at an instruction.
#[inline]
pub fn jump(frames: &mut Frames, target: u32)
    requires { HasFrameRoom 0 0 frames.old }
    ensures { frames.new ≡ with_newest (at_place target) frames.old }
{
    frames.go(target);
}

/// Goes on at an instruction, or at the next.
#[inline]
pub fn branch(frames: &mut Frames, taken: bool, target: u32)
    requires { HasFrameRoom 0 0 frames.old }
    ensures { frames.new ≡ with_newest (after_branch taken target) frames.old }
{
    if taken {
        frames.go(target);
    } else {
        go_on(frames);
    }
}

/// Pushes a value.
#[inline]
pub fn push(frames: &mut Frames, v: Value)
    requires { HasFrameRoom 0 1 frames.old }
    ensures { frames.new ≡ with_newest (next_with (v ∷ [])) frames.old }
{
    let place = frames.place();
    match v {
        Value::Num(x) => frames.push(Value::Num(x)),
        _ => frames.push(v),
    }
    frames.go(place + 1);
}

/// Drops the top operand.
#[inline]
pub fn pop(frames: &mut Frames)
    requires { HasFrameRoom 1 0 frames.old }
    ensures { frames.new ≡ with_newest after_pop frames.old }
{
    let place = frames.place();
    frames.drop_operands(1);
    frames.go(place + 1);
}

/// Drops the top operands, so many.
#[inline]
pub fn drop_and_go(frames: &mut Frames, count: u32)
    requires { HasFrameRoom count 0 frames.old }
    ensures { frames.new ≡ with_newest (dropped_on count) frames.old }
{
    let place = frames.place();
    frames.drop_operands(count);
    frames.go(place + 1);
}

/// Pushes the top operand once more.
#[inline]
pub fn dup(frames: &mut Frames)
    requires { HasFrameRoom 1 2 frames.old }
    ensures { frames.new ≡ with_newest after_dup frames.old }
{
    let place = frames.place();
    let v = frames.pop();
    frames.push(v);
    frames.push(v);
    frames.go(place + 1);
}

/// Exchanges the two top operands.
#[inline]
pub fn swap(frames: &mut Frames)
    requires { HasFrameRoom 2 2 frames.old }
    ensures { frames.new ≡ with_newest after_swap frames.old }
{
    let place = frames.place();
    let y = frames.pop();
    let x = frames.pop();
    frames.push(y);
    frames.push(x);
    frames.go(place + 1);
}

/// Pushes a local.
#[inline]
pub fn get_local(frames: &mut Frames, n: u32)
    requires ready { HasFrameRoom 0 1 frames.old }
    requires local { n < length (newest frames.old).locals }
    ensures { (v : Value) → slice_get (newest frames.old).locals n ≡ Some v
        → frames.new ≡ with_newest (next_with (v ∷ [])) frames.old }
{
    match frames.local(n) {
        Value::Num(x) => push(frames, Value::Num(x)),
        _ => {
            let v = frames.local(n);
            push(frames, v);
        }
    }
}

/// Takes the top operand into a local.
#[inline]
pub fn set_local(frames: &mut Frames, n: u32)
    requires ready { HasFrameRoom 1 0 frames.old }
    requires local { n < length (newest frames.old).locals }
    ensures { frames.new ≡ with_newest (after_store n) frames.old }
{
    let place = frames.place();
    match frames.operand(0) {
        Value::Num(x) => {
            frames.drop_operands(1);
            frames.set_local(n, Value::Num(x));
        }
        _ => {
            let v = frames.pop();
            frames.set_local(n, v);
        }
    }
    frames.go(place + 1);
}

/// Makes a local undefined.
#[inline]
pub fn kill(frames: &mut Frames, n: u32)
    requires ready { HasFrameRoom 0 0 frames.old }
    requires local { n < length (newest frames.old).locals }
    ensures { frames.new ≡ with_newest (after_kill n) frames.old }
{
    let place = frames.place();
    frames.set_local(n, Value::Undefined);
    frames.go(place + 1);
}

/// Puts a value in place of the top operands, so many.
#[inline]
pub fn finish(frames: &mut Frames, taken: u32, v: Value)
    requires { HasFrameRoom taken 1 frames.old }
    ensures { frames.new ≡ with_newest (after_finish taken v) frames.old }
{
    let place = frames.place();
    frames.drop_operands(taken);
    match v {
        Value::Num(x) => frames.push(Value::Num(x)),
        _ => frames.push(v),
    }
    frames.go(place + 1);
}
