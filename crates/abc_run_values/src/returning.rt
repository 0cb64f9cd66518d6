ghost use Rattle.std.specs.Prelude.{◌≡◌, ◌<◌, length, true};
ghost use Rattle.abc_meaning.specs.At.{Returns};
ghost use Rattle.abc_meaning.specs.Simple.{returns};
ghost use Rattle.abc_objects.specs.Stands.{StandsOver};
ghost use Rattle.abc_objects.specs.Values.{Exists};
ghost use Rattle.abc_run_values.specs.Groups.{return_ops};
ghost use Rattle.abc_run_values.specs.Here.{LeavesHere, act_here};
ghost use Rattle.abc_run_values.specs.Ready.{CanRun};
ghost use Rattle.abc_run_values.specs.Returned.{IsReturned, ReturnsIf};
ghost use Rattle.abc_frames.specs.Frame.{newest};
ghost use Rattle.abc_run_state.specs.Outer.{Outer, setting_in, world};
ghost use Rattle.abc_run_state.specs.Stops.{IsOpen};
ghost use Rattle.abc_run_state.specs.Turns.{Leaves};
ghost use Rattle.abc_meaning.specs.World.{Went};
ghost use Rattle.abc_file_types.specs.Opcodes.{is_in};
ghost use Rattle.abc_file_types.specs.declared.code.Instr.TheVariants.{Plain};
ghost use Rattle.abc_file_types.specs.declared.op.TheConstants.{RETURNVALUE};

use abc_file_types::op;
use abc_heap_values::Value;
use abc_link::Linked;
use abc_run_state::{Left, State, Stop, coerce, is_of_named, operand};

/// What returns is coerced to the type that the method returns, in the frame that returns it.
#[inline(always)]
fn return_value(linked: &Linked, s: &mut State, v: Value) -> Result<Left, Stop>
    ghost out: { Outer }
    requires over { StandsOver linked.now s.old.arena }
    requires value { Exists linked.now s.old.arena v }
    requires live { 0 < length s.old.frames.living }
    requires free { IsOpen (returns (setting_in linked.now out) (newest s.old.frames) v (world s.old out)) }
    ensures leaves { Leaves linked.now out (returns (setting_in linked.now out) (newest s.old.frames) v) s.old
        result s.new }
    ensures returns { IsReturned result }
    ensures limit { s.new.given.limit ≡ s.old.given.limit }
{
    let Some(method) = linked.abc().methods.find(s.frames.method() as usize) else {
        unreachable!()
    };
    let Some(ty) = linked.type_of(method.ret) else {
        unreachable!()
    };
    let returned = coerce(linked, s, ty, v)?;
    Ok(Left::Returns(returned))
}

/// `returnvoid`, `returnvalue`.
#[inline(always)]
pub fn run_return(linked: &Linked, s: &mut State, op: u8) -> Result<Left, Stop>
    ghost out: { Outer }
    requires run { CanRun linked.now out s.old (Plain op) }
    requires among { is_in op return_ops ≡ true }
    ensures leaves { LeavesHere linked.now out (Plain op) s.old result s.new }
    ensures returns { IsReturned result }
{
    match op {
        op::RETURNVOID => return_value(linked, s, Value::Undefined),
        op::RETURNVALUE => {
            let v = operand(&s.frames, 0);
            return_value(linked, s, v)
        }
        _ => unreachable!(),
    }
}

/// Whether the newest frame's method returns a value as it stands, by its type.
#[inline(always)]
fn returns_whole(linked: &Linked, s: &State, v: Value) -> bool
    ghost out: { Outer }
    requires { 0 < length s.now.frames.living }
    ensures { result ≡ true
        → returns (setting_in linked.now out) (newest s.now.frames) v (world s.now out)
        ≡ Went (world s.now out) (Returns v) }
{
    match linked.abc().methods.find(s.frames.method() as usize) {
        Some(method) => is_of_named(linked, method.ret, v),
        None => false,
    }
}

/// A value is returned, where the newest frame's method returns it as it stands: whether it is done; then that is put into `left`, else
/// nothing is.
#[inline(always)]
fn returns_kept(linked: &Linked, s: &State, v: Value, left: &mut Result<Left, Stop>) -> bool
    ghost out: { Outer }
    requires { 0 < length s.now.frames.living }
    ensures { ReturnsIf result linked.now out (λ p f. returns p f v) s.now left.old left.new }
{
    if !returns_whole(linked, s, v) {
        return false;
    }
    *left = Ok(Left::Returns(v));
    true
}

/// The same for the top operand, where it is a number.
#[inline(always)]
fn returns_number(linked: &Linked, s: &State, left: &mut Result<Left, Stop>) -> bool
    ghost out: { Outer }
    requires { CanRun linked.now out s.now (Plain RETURNVALUE) }
    ensures { ReturnsIf result linked.now out (λ p f. act_here p f (Plain RETURNVALUE)) s.now left.old
        left.new }
{
    let v = operand(&s.frames, 0);
    match v {
        Value::Num(n) => returns_kept(linked, s, Value::Num(n), left),
        _ => false,
    }
}

/// The fast path of `run_return`, for a number that is returned as it stands: whether it is done; then that is put into `left`. It says
/// no, and has done nothing, of `returnvoid`, and where the top operand is no number or is to be coerced. (So no more of it is copied
/// than the number.)
#[inline(always)]
pub fn run_return_fast(linked: &Linked, s: &State, op: u8, left: &mut Result<Left, Stop>) -> bool
    ghost out: { Outer }
    requires { CanRun linked.now out s.now (Plain op) }
    ensures { ReturnsIf result linked.now out (λ p f. act_here p f (Plain op)) s.now left.old left.new }
{
    match op {
        op::RETURNVALUE => returns_number(linked, s, left),
        _ => false,
    }
}
