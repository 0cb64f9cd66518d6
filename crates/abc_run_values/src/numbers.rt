ghost use Rattle.std.specs.Prelude.{◌≡◌, ◌<◌, length};
ghost use Rattle.abc_run_values.specs.Numbers.{are_numbers_on_top, is_number_value, is_number_on_top};
ghost use Rattle.abc_frames.specs.Frame.{newest};

use abc_frames::Frames;
use abc_heap_values::Value;
use abc_run_state::operand;

/// Whether a value is a number.
#[inline(always)]
fn is_number(v: Value) -> bool
    ensures { result ≡ is_number_value v }
{
    match v {
        Value::Num(_) => true,
        _ => false,
    }
}

/// Whether the top operand is a number.
#[inline(always)]
pub fn number_on_top(frames: &Frames) -> bool
    requires { 0 < length (newest frames.now).stack }
    ensures { result ≡ is_number_on_top (newest frames.now) }
{
    is_number(operand(frames, 0))
}

/// Whether the two top operands are numbers.
#[inline(always)]
pub fn numbers_on_top(frames: &Frames) -> bool
    requires { 1 < length (newest frames.now).stack }
    ensures { result ≡ are_numbers_on_top (newest frames.now) }
{
    is_number(operand(frames, 1)) && number_on_top(frames)
}
