ghost use Rattle.std.specs.Prelude.{◌≡◌, ◌+ℤ◌, ◌-ℤ◌, ◌*ℤ◌, neg_ℤ};
ghost use Rattle.abc_base.specs.Ranges.{IsNumber};
ghost use Rattle.abc_heap_values.specs.Modular.{modulo_signed};
ghost use Rattle.abc_heap_values.specs.Whole.{bits_in_both, bits_in_either, bits_in_one, bits_turned, shifted_left, shifted_right, shifted_right_unsigned, whole_difference, whole_negated, whole_product, whole_sum};

use crate::modular::{from_signed, from_unsigned, to_signed, to_unsigned};

fn wrapped_sum(a: i32, b: i32) -> i32
    ensures { result ≡ modulo_signed (a +ℤ b) }
{
    a.wrapping_add(b)
}

fn wrapped_difference(a: i32, b: i32) -> i32
    ensures { result ≡ modulo_signed (a -ℤ b) }
{
    a.wrapping_sub(b)
}

fn wrapped_product(a: i32, b: i32) -> i32
    ensures { result ≡ modulo_signed (a *ℤ b) }
{
    a.wrapping_mul(b)
}

fn wrapped_opposite(a: i32) -> i32
    ensures { result ≡ modulo_signed (neg_ℤ a) }
{
    a.wrapping_neg()
}

pub fn add_whole(x: i64, y: i64) -> i64
    ensures value { result ≡ whole_sum x y }
    ensures number { IsNumber result }
{
    from_signed(wrapped_sum(to_signed(x), to_signed(y)))
}

pub fn subtract_whole(x: i64, y: i64) -> i64
    ensures value { result ≡ whole_difference x y }
    ensures number { IsNumber result }
{
    from_signed(wrapped_difference(to_signed(x), to_signed(y)))
}

pub fn multiply_whole(x: i64, y: i64) -> i64
    ensures value { result ≡ whole_product x y }
    ensures number { IsNumber result }
{
    from_signed(wrapped_product(to_signed(x), to_signed(y)))
}

pub fn negate_whole(x: i64) -> i64
    ensures value { result ≡ whole_negated x }
    ensures number { IsNumber result }
{
    from_signed(wrapped_opposite(to_signed(x)))
}

pub fn bit_not(x: i64) -> i64
    ensures value { result ≡ bits_turned x }
    ensures number { IsNumber result }
{
    from_signed((!to_unsigned(x)).cast_signed())
}

pub fn bit_and(x: i64, y: i64) -> i64
    ensures value { result ≡ bits_in_both x y }
    ensures number { IsNumber result }
{
    from_signed((to_unsigned(x) & to_unsigned(y)).cast_signed())
}

pub fn bit_or(x: i64, y: i64) -> i64
    ensures value { result ≡ bits_in_either x y }
    ensures number { IsNumber result }
{
    from_signed((to_unsigned(x) | to_unsigned(y)).cast_signed())
}

pub fn bit_xor(x: i64, y: i64) -> i64
    ensures value { result ≡ bits_in_one x y }
    ensures number { IsNumber result }
{
    from_signed((to_unsigned(x) ^ to_unsigned(y)).cast_signed())
}

pub fn shift_left(x: i64, y: i64) -> i64
    ensures value { result ≡ shifted_left x y }
    ensures number { IsNumber result }
{
    from_signed(to_signed(x).wrapping_shl(to_unsigned(y)))
}

pub fn shift_right(x: i64, y: i64) -> i64
    ensures value { result ≡ shifted_right x y }
    ensures number { IsNumber result }
{
    from_signed(to_signed(x).wrapping_shr(to_unsigned(y)))
}

pub fn shift_right_unsigned(x: i64, y: i64) -> i64
    ensures value { result ≡ shifted_right_unsigned x y }
    ensures number { IsNumber result }
{
    from_unsigned(to_unsigned(x).wrapping_shr(to_unsigned(y)))
}
