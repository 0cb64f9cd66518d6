ghost use Rattle.std.specs.Prelude.{◌≡◌, IfOk};
ghost use Rattle.abc_base.specs.Ranges.{IsNumber};
ghost use Rattle.abc_heap_values.specs.Numbers.{IsInRange, calculated_of, calculated_single_of, int_of, is_modular as modular, is_modular_single as modular_single, number_of, number_of_bool, operand_of, operand_of_single, truth_of, uint_of, whole_of};

use crate::kinds::is_undefined;
use crate::modular::{from_signed, from_unsigned, to_signed, to_unsigned};
use crate::operations::{Operation, Single, calculate, calculate_single};
use crate::values::Value;
use abc_base::Fault;

/// What a value may be converted to: by `convert_s`, `convert_i`, `convert_u`, `convert_d`, `convert_b`, `convert_o` or
/// `coerce_s`.
#[derive(Clone, Copy, Debug, PartialEq, Eq)]
pub enum Conversion {
    ConvertS,
    ConvertI,
    ConvertU,
    ConvertD,
    ConvertB,
    ConvertO,
    CoerceS,
}

/// 1 for true and 0 for false.
pub fn number_of_truth(truth: bool) -> i64
    ensures value { result ≡ number_of_bool truth }
    ensures number { IsNumber result }
{
    if truth { 1 } else { 0 }
}

/// A value as a number: undefined is the fault NotANumber, a text TextToNumber, a namespace or an object
/// ObjectToPrimitive.
pub fn to_number(v: Value) -> Result<i64, Fault>
    requires { IsInRange v }
    ensures value { result ≡ number_of v }
    ensures number { IfOk result IsNumber }
{
    match v {
        Value::Undefined => Err(Fault::NotANumber),
        Value::Null => Ok(0),
        Value::Num(n) => Ok(n),
        Value::Bool(truth) => Ok(number_of_truth(truth)),
        Value::Text(_) => Err(Fault::TextToNumber),
        Value::Space(_) | Value::Obj(_) => Err(Fault::ObjectToPrimitive),
    }
}

/// A value as a number that is to be taken modulo 2^32, for which undefined is 0.
pub fn to_whole(v: Value) -> Result<i64, Fault>
    requires { IsInRange v }
    ensures value { result ≡ whole_of v }
    ensures number { IfOk result IsNumber }
{
    if is_undefined(v) {
        return Ok(0);
    }
    to_number(v)
}

/// A value as a number from -2147483648 to 2147483647.
#[tactic(auto, using(crate::proofs::Following::goes, crate::proofs::Following::stops))]
pub fn to_int(v: Value) -> Result<i64, Fault>
    requires { IsInRange v }
    ensures value { result ≡ int_of v }
    ensures number { IfOk result IsNumber }
{
    let n = to_whole(v)?;
    Ok(from_signed(to_signed(n)))
}

/// A value as a number from 0 to 4294967295.
#[tactic(auto, using(crate::proofs::Following::goes, crate::proofs::Following::stops))]
pub fn to_uint(v: Value) -> Result<i64, Fault>
    requires { IsInRange v }
    ensures value { result ≡ uint_of v }
    ensures number { IfOk result IsNumber }
{
    let n = to_whole(v)?;
    Ok(from_unsigned(to_unsigned(n)))
}

/// Whether a value counts as true: a number other than 0, a text that isn't empty, a namespace, an object.
pub fn is_true(v: Value) -> bool
    ensures { result ≡ truth_of v }
{
    match v {
        Value::Undefined | Value::Null => false,
        Value::Num(n) => n != 0,
        Value::Bool(truth) => truth,
        Value::Text(s) => s.len != 0,
        Value::Space(_) | Value::Obj(_) => true,
    }
}

fn is_modular(op: Operation) -> bool
    ensures { result ≡ modular op }
{
    match op {
        Operation::Add => false,
        Operation::Subtract => false,
        Operation::Multiply => false,
        Operation::Divide => false,
        Operation::Modulo => false,
        _ => true,
    }
}

/// What is no number, as an operand.
#[inline(always)]
fn operand_made(op: Operation, v: Value) -> Result<i64, Fault>
    requires { IsInRange v }
    ensures value { result ≡ operand_of op v }
    ensures number { IfOk result IsNumber }
{
    if is_modular(op) {
        to_whole(v)
    } else {
        to_number(v)
    }
}

/// An operand: a number is its own, as most are.
#[tactic(auto, using(crate::proofs::Operands::operand_is))]
#[inline(always)]
fn operand(op: Operation, v: Value) -> Result<i64, Fault>
    requires { IsInRange v }
    ensures value { result ≡ operand_of op v }
    ensures number { IfOk result IsNumber }
{
    match v {
        Value::Num(n) => Ok(n),
        _ => operand_made(op, v),
    }
}

/// The result of an operation on two values, of which the left is made a number first.
#[tactic(auto, using(crate::proofs::Following::goes, crate::proofs::Following::stops))]
#[inline(always)]
pub fn calculate_values(op: Operation, x: Value, y: Value) -> Result<i64, Fault>
    requires left { IsInRange x }
    requires right { IsInRange y }
    ensures value { result ≡ calculated_of op x y }
    ensures number { IfOk result IsNumber }
{
    let a = operand(op, x)?;
    let b = operand(op, y)?;
    calculate(op, a, b)
}

fn is_modular_single(op: Single) -> bool
    ensures { result ≡ modular_single op }
{
    match op {
        Single::Negate => false,
        Single::Increment => false,
        Single::Decrement => false,
        _ => true,
    }
}

/// What is no number, as the operand.
#[inline(always)]
fn operand_single_made(op: Single, v: Value) -> Result<i64, Fault>
    requires { IsInRange v }
    ensures value { result ≡ operand_of_single op v }
    ensures number { IfOk result IsNumber }
{
    if is_modular_single(op) {
        to_whole(v)
    } else {
        to_number(v)
    }
}

/// The operand: a number is its own, as most are.
#[tactic(auto, using(crate::proofs::Operands::single_is))]
#[inline(always)]
fn operand_single(op: Single, v: Value) -> Result<i64, Fault>
    requires { IsInRange v }
    ensures value { result ≡ operand_of_single op v }
    ensures number { IfOk result IsNumber }
{
    match v {
        Value::Num(n) => Ok(n),
        _ => operand_single_made(op, v),
    }
}

/// The result of an operation on one value.
#[tactic(auto, using(crate::proofs::Following::goes, crate::proofs::Following::stops))]
#[inline(always)]
pub fn calculate_value(op: Single, v: Value) -> Result<i64, Fault>
    requires { IsInRange v }
    ensures value { result ≡ calculated_single_of op v }
    ensures number { IfOk result IsNumber }
{
    let n = operand_single(op, v)?;
    calculate_single(op, n)
}
