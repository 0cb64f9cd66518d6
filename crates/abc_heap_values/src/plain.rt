ghost use Rattle.std.specs.Prelude.{◌≡◌, ◌≢◌, pos, IfOk};
ghost use Rattle.abc_base.specs.Ranges.{IsNumber};
ghost use Rattle.abc_heap_values.specs.Plain.{difference, negation, product, quotient, remainder, sum, whole_quotient};

use crate::range::within;
use abc_base::Fault;

pub fn add(x: i64, y: i64) -> Result<i64, Fault>
    requires left { IsNumber x }
    requires right { IsNumber y }
    ensures value { result ≡ sum x y }
    ensures number { IfOk result IsNumber }
{
    within(x + y)
}

pub fn subtract(x: i64, y: i64) -> Result<i64, Fault>
    requires left { IsNumber x }
    requires right { IsNumber y }
    ensures value { result ≡ difference x y }
    ensures number { IfOk result IsNumber }
{
    within(x - y)
}

/// The product may have more than 64 bits.
pub fn multiply(x: i64, y: i64) -> Result<i64, Fault>
    requires left { IsNumber x }
    requires right { IsNumber y }
    ensures value { result ≡ product x y }
    ensures number { IfOk result IsNumber }
{
    match x.checked_mul(y) {
        Some(n) => within(n),
        None => Err(Fault::Range),
    }
}

/// The quotient where the division leaves no remainder.
fn divide_exactly(x: i64, y: i64) -> Result<i64, Fault>
    requires left { IsNumber x }
    requires right { IsNumber y }
    requires nonzero { y ≢ pos 0 }
    ensures value { result ≡ whole_quotient x y }
    ensures number { IfOk result IsNumber }
{
    if x % y != 0 {
        return Err(Fault::Range);
    }
    within(x / y)
}

pub fn divide(x: i64, y: i64) -> Result<i64, Fault>
    requires left { IsNumber x }
    requires right { IsNumber y }
    ensures value { result ≡ quotient x y }
    ensures number { IfOk result IsNumber }
{
    if y == 0 {
        return Err(Fault::NotANumber);
    }
    divide_exactly(x, y)
}

pub fn modulo(x: i64, y: i64) -> Result<i64, Fault>
    requires left { IsNumber x }
    requires right { IsNumber y }
    ensures value { result ≡ remainder x y }
    ensures number { IfOk result IsNumber }
{
    if y == 0 {
        return Err(Fault::NotANumber);
    }
    Ok(x % y)
}

pub fn negate(x: i64) -> Result<i64, Fault>
    requires { IsNumber x }
    ensures value { result ≡ negation x }
    ensures number { IfOk result IsNumber }
{
    within(-x)
}
