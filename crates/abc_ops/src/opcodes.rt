ghost use Rattle.std.specs.Prelude.{◌≡◌};
ghost use Rattle.abc_ops.specs.Opcodes.{comparison_of, operation_of, single_of};

use abc_file_types::op;
use abc_heap_values::Order;
use abc_heap_values::operations::{Operation, Single};

/// What a comparison asks.
#[derive(Clone, Copy, Debug, PartialEq, Eq)]
pub enum Comparison {
    Equal,
    StrictlyEqual,
    Ordered(Order),
}

/// The operation of an opcode from A0 to AA or from C5 to C7; of any other, that of C7.
pub fn operation(op: u8) -> Operation
    ensures { result ≡ operation_of op }
{
    match op {
        op::ADD => Operation::Add,
        op::SUBTRACT => Operation::Subtract,
        op::MULTIPLY => Operation::Multiply,
        op::DIVIDE => Operation::Divide,
        op::MODULO => Operation::Modulo,
        op::LSHIFT => Operation::ShiftLeft,
        op::RSHIFT => Operation::ShiftRight,
        op::URSHIFT => Operation::ShiftRightUnsigned,
        op::BITAND => Operation::BitAnd,
        op::BITOR => Operation::BitOr,
        op::BITXOR => Operation::BitXor,
        op::ADD_I => Operation::AddWhole,
        op::SUBTRACT_I => Operation::SubtractWhole,
        _ => Operation::MultiplyWhole,
    }
}

/// The operation of the opcodes 90, 91, 93, 97, C0, C1 and C4; of any other, that of C4.
pub fn single(op: u8) -> Single
    ensures { result ≡ single_of op }
{
    match op {
        op::NEGATE => Single::Negate,
        op::INCREMENT => Single::Increment,
        op::DECREMENT => Single::Decrement,
        op::BITNOT => Single::BitNot,
        op::INCREMENT_I => Single::IncrementWhole,
        op::DECREMENT_I => Single::DecrementWhole,
        _ => Single::NegateWhole,
    }
}

/// The comparison of an opcode from AB to B0; of any other, that of B0.
pub fn comparison_at(op: u8) -> Comparison
    ensures { result ≡ comparison_of op }
{
    match op {
        op::EQUALS => Comparison::Equal,
        op::STRICTEQUALS => Comparison::StrictlyEqual,
        op::LESSTHAN => Comparison::Ordered(Order::Less),
        op::LESSEQUALS => Comparison::Ordered(Order::LessOrEqual),
        op::GREATERTHAN => Comparison::Ordered(Order::Greater),
        _ => Comparison::Ordered(Order::GreaterOrEqual),
    }
}
