ghost use Rattle.std.specs.Prelude.{◌≡◌, ◌<◌, ℤ, List, length};
ghost use Rattle.abc_base.specs.Hosts.{AreFormulas, answer_of, builtin_formulas, formula_at, number_or_none};
ghost use Rattle.abc_base.specs.declared.formula.Formula.{Formula};
ghost use Rattle.abc_base.specs.Builtin.{builtin_formed};

use crate::plain::Plain;

/// What code runs in: a list of at most 64 formulas, with zero to four factors each, numbers from -2^31 to 2^31, and
/// names of at most 64 bytes, which differ from each other, from `trace` and from the names of the host's classes.
pub trait Host {
    /// The formulas, in order.
    ghost formulas: { Self → List Formula };

    /// How many formulas there are, at most 64.
    fn count(&self) -> u32
        ensures { result ≡ length (formulas self.now) };

    /// The name of a formula, by its position, which counts from 0.
    fn name(&self, id: u32) -> &[u8]
        requires { id < length (formulas self.now) }
        ensures { result.now ≡ (formula_at (formulas self.now) id).name };

    /// How many arguments a formula takes, at most four.
    fn params(&self, id: u32) -> u32
        requires { id < length (formulas self.now) }
        ensures { result ≡ length (formula_at (formulas self.now) id).factors };

    /// The value of a formula, or `None` exactly where that is outside -2147483648 to 4294967295.
    fn call(&self, id: u32, args: &Plain) -> Option<i64>
        requires known { id < length (formulas self.now) }
        requires given { args.now.count ≡ length (formula_at (formulas self.now) id).factors }
        ensures { result ≡ answer_of (formula_at (formulas self.now) id) args.now };

    ghost formed: { (host : Self) → AreFormulas (formulas host) };
}

/// The host that comes with the program. Its formulas are `twice`, which doubles a number, and `plus`, which adds two.
#[derive(Clone, Copy, Debug, PartialEq, Eq)]
pub struct BuiltinHost;

impl Host for BuiltinHost {
    ghost formulas = { λ _. builtin_formulas };

    ghost formed = { λ _. builtin_formed };

    fn count(&self) -> u32 {
        2
    }

    fn name(&self, id: u32) -> &[u8] {
        match id {
            0 => b"twice",
            1 => b"plus",
            _ => unreachable!(),
        }
    }

    fn params(&self, id: u32) -> u32 {
        match id {
            0 => 1,
            1 => 2,
            _ => unreachable!(),
        }
    }

    fn call(&self, id: u32, args: &Plain) -> Option<i64> {
        match id {
            0 => in_range(2 * args.a),
            1 => in_range(args.a + args.b),
            _ => unreachable!(),
        }
    }
}

/// A number from -2147483648 to 4294967295, or `None`.
fn in_range(z: i64) -> Option<i64>
    ensures { result ≡ number_or_none z }
{
    if -2147483648 <= z && z <= 4294967295 {
        Some(z)
    } else {
        None
    }
}
