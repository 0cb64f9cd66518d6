ghost use Rattle.std.specs.Prelude.{◌≡◌, pos};
ghost use Rattle.abc_base.specs.Ranges.{IsNumber};
ghost use Rattle.abc_heap_values.specs.Modular.{modulo_signed, modulo_unsigned};

/// The number from 0 to 2^32 - 1 that differs from `n` by a multiple of 2^32.
#[tactic(auto, unfolding(crate::specs::Modular::modulo_unsigned))]
pub fn to_unsigned(n: i64) -> u32
    ensures { result ≡ modulo_unsigned n }
{
    n.rem_euclid(4294967296) as u32
}

/// The number from -2^31 to 2^31 - 1 that differs from `n` by a multiple of 2^32.
pub fn to_signed(n: i64) -> i32
    ensures { result ≡ modulo_signed n }
{
    to_unsigned(n).cast_signed()
}

/// A signed whole number, as a number.
pub fn from_signed(n: i32) -> i64
    ensures value { result ≡ n }
    ensures number { IsNumber result }
{
    n as i64
}

/// An unsigned whole number, as a number.
pub fn from_unsigned(n: u32) -> i64
    ensures value { result ≡ pos n }
    ensures number { IsNumber result }
{
    n as i64
}
