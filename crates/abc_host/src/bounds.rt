ghost use Rattle.std.specs.Prelude.{◌↔◌, IsTrue, All, length};
ghost use Rattle.abc_base.specs.Hosts.{IsSmall};
ghost use Rattle.abc_host.specs.Tables.{IsWithinBounds};

use abc_base::Formula;

/// Whether a number is from -2^31 to 2^31.
fn is_small(z: i64) -> bool
    ensures { IsTrue result ↔ IsSmall z }
{
    -2147483648 <= z && z <= 2147483648
}

/// Whether all numbers are from -2^31 to 2^31.
fn are_small(numbers: &[i64]) -> bool
    ensures { IsTrue result ↔ All IsSmall numbers.now }
{
    numbers.iter().all(|z| is_small(*z))
}

/// Whether the name, the factors and the numbers of a formula are within their bounds.
pub fn is_within_bounds(formula: &Formula) -> bool
    ensures { IsTrue result ↔ IsWithinBounds formula.now }
{
    formula.name.len() <= 64
        && is_small(formula.constant)
        && formula.factors.len() <= 4
        && are_small(formula.factors.as_slice())
}
