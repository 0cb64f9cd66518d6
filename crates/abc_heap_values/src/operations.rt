ghost use Rattle.std.specs.Prelude.{◌≡◌, IfOk};
ghost use Rattle.abc_base.specs.Ranges.{IsNumber};
ghost use Rattle.abc_heap_values.specs.Operations.{calculation, calculated_single};

use crate::plain::{add, divide, modulo, multiply, negate, subtract};
use crate::whole::{
    add_whole, bit_and, bit_not, bit_or, bit_xor, multiply_whole, negate_whole, shift_left,
    shift_right, shift_right_unsigned, subtract_whole,
};
use abc_base::Fault;

/// What an instruction computes of two numbers. Those from `ShiftLeft` on are modulo 2^32.
#[derive(Clone, Copy, Debug, PartialEq, Eq)]
pub enum Operation {
    Add,
    Subtract,
    Multiply,
    Divide,
    Modulo,
    ShiftLeft,
    ShiftRight,
    ShiftRightUnsigned,
    BitAnd,
    BitOr,
    BitXor,
    AddWhole,
    SubtractWhole,
    MultiplyWhole,
}

/// What an instruction computes of one number. Those from `BitNot` on are modulo 2^32.
#[derive(Clone, Copy, Debug, PartialEq, Eq)]
pub enum Single {
    Negate,
    Increment,
    Decrement,
    BitNot,
    NegateWhole,
    IncrementWhole,
    DecrementWhole,
}

/// The result of an operation on two numbers. It is the fault Range where that is not whole or outside -2147483648 to
/// 4294967295, and NotANumber at a divisor 0.
#[inline(always)]
pub fn calculate(op: Operation, x: i64, y: i64) -> Result<i64, Fault>
    requires left { IsNumber x }
    requires right { IsNumber y }
    ensures value { result ≡ calculation op x y }
    ensures number { IfOk result IsNumber }
{
    match op {
        Operation::Add => add(x, y),
        Operation::Subtract => subtract(x, y),
        Operation::Multiply => multiply(x, y),
        Operation::Divide => divide(x, y),
        Operation::Modulo => modulo(x, y),
        Operation::ShiftLeft => Ok(shift_left(x, y)),
        Operation::ShiftRight => Ok(shift_right(x, y)),
        Operation::ShiftRightUnsigned => Ok(shift_right_unsigned(x, y)),
        Operation::BitAnd => Ok(bit_and(x, y)),
        Operation::BitOr => Ok(bit_or(x, y)),
        Operation::BitXor => Ok(bit_xor(x, y)),
        Operation::AddWhole => Ok(add_whole(x, y)),
        Operation::SubtractWhole => Ok(subtract_whole(x, y)),
        Operation::MultiplyWhole => Ok(multiply_whole(x, y)),
    }
}

/// The result of an operation on one number. It is the fault Range where that is outside -2147483648 to 4294967295.
#[inline(always)]
pub fn calculate_single(op: Single, x: i64) -> Result<i64, Fault>
    requires { IsNumber x }
    ensures value { result ≡ calculated_single op x }
    ensures number { IfOk result IsNumber }
{
    match op {
        Single::Negate => negate(x),
        Single::Increment => add(x, 1),
        Single::Decrement => subtract(x, 1),
        Single::BitNot => Ok(bit_not(x)),
        Single::NegateWhole => Ok(negate_whole(x)),
        Single::IncrementWhole => Ok(add_whole(x, 1)),
        Single::DecrementWhole => Ok(subtract_whole(x, 1)),
    }
}
